//! Which states, cores and laps a station has, asked line by line: what a poll or a command never makes is refused. theorem_live shows
//! that these lines are those of a sound station. It leans on station and settings for what is asked.
#![tactic(auto)]

ghost use Rattle.std.specs.Prelude.{◌≡◌};
ghost use Rattle.station_lines.specs.Lines.{low_line, apart_line, other_line, one_line, held_line, listens_line, idles_line, unasked_line, uses_line, claims_line, awaits_line, passes_line, polled_line, asks_line, noted_line, rests_line, state_line, in_gap_line, gap_line, within_line, activity_line, no_token, counts_from, gap_time, hold_line, core_line, offline_line, resting_line, fresh_line, starts_line, sound_line};

use bit_times::{Bits, Micros};
use ring::GapState;
use settings::Parameters;
use settings_rules::GAP_ALLOWANCE;
use station::{ConnectivityState, Core, PassTokenAttempt, State, UseTokenData};

// Where the clock ends.
const CLOCK_END: u64 = 281_474_976_710_656;

// No address, or one below 128.
#[tactic(auto, unfolding(crate::specs::Lines::low_line))]
fn low_line(address: Option<u8>) -> bool
    ensures { result ≡ low_line address }
{
    match address {
        None => true,
        Some(a) => a < 128,
    }
}

// An address below 128 that is not our own.
#[tactic(auto, unfolding(crate::specs::Lines::apart_line))]
fn apart_line(address: u8, own: u8) -> bool
    ensures { result ≡ apart_line address own }
{
    address != own && address < 128
}

// No address, or such a one.
#[tactic(auto, unfolding(crate::specs::Lines::other_line))]
fn other_line(address: Option<u8>, own: u8) -> bool
    ensures { result ≡ other_line address own }
{
    match address {
        None => true,
        Some(a) => apart_line(a, own),
    }
}

// No application, or one of so many.
#[tactic(auto, unfolding(crate::specs::Lines::one_line))]
fn one_line(application: Option<u8>, applications: u8) -> bool
    ensures { result ≡ one_line application applications }
{
    match application {
        None => true,
        Some(a) => a < applications,
    }
}

// A token in hand came at a time of a clock, and its first application is one of so many.
#[tactic(auto, unfolding(crate::specs::Lines::held_line))]
fn held_line(token: UseTokenData, applications: u8) -> bool
    ensures { result ≡ held_line token applications }
{
    token.token_time.0 < CLOCK_END && one_line(token.first_app, applications)
}

// ListenToken: another station's address, and at most one collision.
#[tactic(auto, unfolding(crate::specs::Lines::listens_line))]
fn listens_line(request: Option<u8>, collisions: u8, own: u8) -> bool
    ensures { result ≡ listens_line request collisions own }
{
    other_line(request, own) && collisions <= 1
}

// ActiveIdle: the remembered station is another one, who asked may be any, and the last bus activity is known.
#[tactic(auto, unfolding(crate::specs::Lines::idles_line))]
fn idles_line(
    request: Option<u8>,
    previous: Option<u8>,
    collisions: u8,
    own: u8,
    known: bool,
) -> bool
    ensures { result ≡ idles_line request previous collisions own known }
{
    known && low_line(request) && listens_line(previous, collisions, own)
}

// With a token no application was asked yet.
#[tactic(auto, unfolding(crate::specs::Lines::unasked_line))]
fn unasked_line(first: Option<u8>) -> bool
    ensures { result ≡ unasked_line first }
{
    first.is_none()
}

// UseToken: the token in hand is the last token, once its first cycle is done; before that it is a new one.
#[tactic(auto, unfolding(crate::specs::Lines::uses_line))]
fn uses_line(cycled: bool, token: UseTokenData, applications: u8, known: bool, last: Micros) -> bool
    ensures { result ≡ uses_line cycled token applications known last }
{
    known
        && held_line(token, applications)
        && if cycled {
            token.token_time.0 == last.0
        } else {
            unasked_line(token.first_app)
        }
}

// AwaitDataResponse: and an address below 128 is to answer.
#[tactic(auto, unfolding(crate::specs::Lines::awaits_line))]
fn awaits_line(
    address: u8,
    token: UseTokenData,
    applications: u8,
    known: bool,
    last: Micros,
) -> bool
    ensures { result ≡ awaits_line address token applications known last }
{
    address < 128 && uses_line(true, token, applications, known, last)
}

// ClaimToken: the first token is sent.
#[tactic(auto, unfolding(crate::specs::Lines::claims_line))]
fn claims_line(first: bool, known: bool) -> bool
    ensures { result ≡ claims_line first known }
{
    !first && known
}

// PassToken: at its first attempt.
#[tactic(auto, unfolding(crate::specs::Lines::passes_line))]
fn passes_line(attempt: PassTokenAttempt, known: bool) -> bool
    ensures { result ≡ passes_line attempt known }
{
    known && matches!(attempt, PassTokenAttempt::First)
}

// Whether this is the address that the gap state polls.
#[tactic(auto, unfolding(crate::specs::Lines::polled_line))]
fn polled_line(gap: GapState, address: u8) -> bool
    ensures { result ≡ polled_line gap address }
{
    matches!(gap, GapState::DoPoll { current_address } if current_address == address)
}

// AwaitStatusResponse: the status of the address that the gap state polls.
#[tactic(auto, unfolding(crate::specs::Lines::asks_line))]
fn asks_line(address: u8, gap: GapState, known: bool) -> bool
    ensures { result ≡ asks_line address gap known }
{
    known && polled_line(gap, address)
}

// Another station's request that is noted: the last bus activity is known.
#[tactic(auto, unfolding(crate::specs::Lines::noted_line))]
fn noted_line(source: u8, own: u8, known: bool) -> bool
    ensures { result ≡ noted_line source own known }
{
    known && apart_line(source, own)
}

// PassiveIdle, with a request or with none.
#[tactic(auto, unfolding(crate::specs::Lines::rests_line))]
fn rests_line(request: Option<u8>, own: u8, known: bool) -> bool
    ensures { result ≡ rests_line request own known }
{
    match request {
        None => true,
        Some(source) => noted_line(source, own, known),
    }
}

// What a state holds, by our own address, by the gap state, by whether the last bus activity is known and by the last token time.
#[tactic(auto, unfolding(crate::specs::Lines::state_line))]
fn state_line(
    state: State,
    own: u8,
    applications: u8,
    gap: GapState,
    known: bool,
    last: Micros,
) -> bool
    ensures { result ≡ state_line state own applications gap known last }
{
    match state {
        State::Offline => true,
        State::ListenToken {
            status_request,
            collision_count,
        } => listens_line(status_request, collision_count, own),
        State::ActiveIdle {
            status_request,
            new_previous_station,
            collision_count,
        } => idles_line(
            status_request,
            new_previous_station,
            collision_count,
            own,
            known,
        ),
        State::UseToken {
            first_cycle_done,
            data,
        } => uses_line(first_cycle_done, data, applications, known, last),
        State::ClaimToken { first } => claims_line(first, known),
        State::AwaitDataResponse { address, data } => {
            awaits_line(address, data, applications, known, last)
        }
        State::PassToken { attempt, .. } => passes_line(attempt, known),
        State::CheckTokenPass { .. } => known,
        State::AwaitStatusResponse { address } => asks_line(address, gap, known),
        State::PassiveIdle { status_request } => rests_line(status_request, own, known),
    }
}

// An address that is asked in the gap.
#[tactic(auto, unfolding(crate::specs::Lines::in_gap_line))]
fn in_gap_line(p: Parameters, address: u8) -> bool
    ensures { result ≡ in_gap_line p address }
{
    address != p.address && address < p.highest_station_address
}

// The gap's count is at most one above the settings' gap wait, the address it polls is one that is asked.
#[tactic(auto, unfolding(crate::specs::Lines::gap_line))]
fn gap_line(p: Parameters, gap: GapState) -> bool
    ensures { result ≡ gap_line p gap }
{
    match gap {
        GapState::Waiting { rotation_count } => {
            rotation_count <= u16::from(p.gap_wait_rotations) + 1
        }
        GapState::DoPoll { current_address } => in_gap_line(p, current_address),
    }
}

// Whether a time is less than so much after the end of the clock.
#[tactic(auto, using(crate::specs::Laws::ltb_minus, crate::specs::Laws::ltb_low), unfolding(crate::specs::Lines::within_line))]
fn within(last: u64, time: u64) -> bool
    ensures { result ≡ within_line last time }
{
    last < CLOCK_END || last - CLOCK_END < time
}

// The last bus activity is at most the time of 255 bytes after a time of a clock.
#[tactic(auto, unfolding(crate::specs::Lines::activity_line))]
fn activity_line(p: Parameters, activity: Option<Micros>) -> bool
    ensures { result ≡ activity_line p activity }
{
    match activity {
        None => true,
        Some(last) => {
            let time = p.baudrate.bits_to_time(Bits(2805));
            within(last.0, time.0)
        }
    }
}

// No token was used yet.
#[tactic(auto, unfolding(crate::specs::Lines::no_token))]
fn no_token(last: Micros, end: Micros) -> bool
    ensures { result ≡ no_token last end }
{
    last.0 == 0 && end.0 == 0
}

// Whether the end of hold comes so much after a time of a clock that is not the last token time.
#[tactic(auto, unfolding(crate::specs::Lines::counts_from))]
fn counts_from(end: u64, more: u64, last: u64) -> bool
    ensures { result ≡ counts_from end more last }
{
    end >= more && end - more != last && end - more < CLOCK_END
}

// What a gap poll takes off.
#[tactic(auto, unfolding(crate::specs::Lines::gap_time))]
fn gap_time(p: Parameters) -> Micros
    ensures { result ≡ gap_time p }
{
    p.baudrate
        .bits_to_time(Bits(u32::from(p.slot_bits) + GAP_ALLOWANCE))
}

// The end of hold is a fresh station's, or was set with the last token time.
#[tactic(auto, unfolding(crate::specs::Lines::hold_line))]
fn hold_line(p: Parameters, last: Micros, end: Micros) -> bool
    ensures { result ≡ hold_line p last end }
{
    let span = p.token_rotation_time();
    let less = gap_time(p);
    no_token(last, end)
        || counts_from(end.0, span.0, last.0)
        || span.0 >= less.0 && counts_from(end.0, span.0 - less.0, last.0)
}

// A core, with so many applications.
#[tactic(auto, unfolding(crate::specs::Lines::core_line))]
fn core_line(p: Parameters, applications: u8, core: Core) -> bool
    ensures { result ≡ core_line p applications core }
{
    core.next_application < applications
        && core.pending_bytes < 2048
        && gap_line(p, core.gap_state)
        && activity_line(p, core.last_bus_activity)
        && core.last_token_time.0 < CLOCK_END
        && hold_line(p, core.last_token_time, core.end_token_hold_time)
}

// A station that is put offline is in Offline.
#[tactic(auto, unfolding(crate::specs::Lines::offline_line))]
fn offline_line(connectivity: ConnectivityState, state: State) -> bool
    ensures { result ≡ offline_line connectivity state }
{
    match connectivity {
        ConnectivityState::Offline => state.number() == 0,
        ConnectivityState::Passive | ConnectivityState::Online => true,
    }
}

// The gap state of a fresh station.
#[tactic(auto, unfolding(crate::specs::Lines::resting_line))]
fn resting_line(gap: GapState) -> bool
    ensures { result ≡ resting_line gap }
{
    matches!(gap, GapState::Waiting { rotation_count: 0 })
}

// A core as a fresh station's, but for the last bus activity and the connectivity state.
#[tactic(auto, unfolding(crate::specs::Lines::fresh_line))]
fn fresh_line(core: Core) -> bool
    ensures { result ≡ fresh_line core }
{
    core.pending_bytes == 0
        && core.next_application == 0
        && resting_line(core.gap_state)
        && no_token(core.last_token_time, core.end_token_hold_time)
}

// In Offline the core is such a one.
#[tactic(auto, unfolding(crate::specs::Lines::starts_line))]
fn starts_line(state: State, core: Core) -> bool
    ensures { result ≡ starts_line state core }
{
    state.number() != 0 || fresh_line(core)
}

/// Whether a station can have this state, this core and these laps.
#[tactic(auto, unfolding(crate::specs::Lines::sound_line))]
pub fn sound_line(p: Parameters, applications: u8, state: State, core: Core, laps: u16) -> bool
    ensures { result ≡ sound_line p applications state core laps }
{
    let known = core.last_bus_activity.is_some();
    laps <= 2
        && offline_line(core.connectivity_state, state)
        && starts_line(state, core)
        && state_line(
            state,
            p.address,
            applications,
            core.gap_state,
            known,
            core.last_token_time,
        )
        && core_line(p, applications, core)
}
