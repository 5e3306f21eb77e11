//! The token in hand: asking the applications, sending for them, and awaiting their replies. From profirust's active.rs, in
//! its order: app_transmit_telegram, schedule_next_application, apps_transmit_telegram, do_use_token,
//! do_await_data_response. It leans on station, and on codec_records for what the applications decide and what was
//! received.
#![tactic(auto)]

ghost use Rattle.std.specs.Prelude.{◌≡◌, Some, eqb};
ghost use Rattle.station.specs.Steps.{ring_step_of};
ghost use Rattle.station.specs.Whole.{after, with_core};
ghost use Rattle.station_hold.specs.Hold.{first_or, turn_of, asked_of, asked_decision, app_transmit_of, end_of, hold_end_of, use_pass_of, use_apps_of, use_token_of, valid_response, received_of, await_data_of};

use bit_times::{Bits, Instant, Micros};
use codec_answers::{Notice, Outcome, Sent};
use codec_decisions::Decision;
use codec_records::Record;
use codec_telegrams::Telegram;
use ring::GapState;
use settings::Parameters;
use settings_rules::GAP_ALLOWANCE;
use station::{Core, Done, PassTokenAttempt, State, Station, UseTokenData};

// app_transmit_telegram, of an application that was found to send; Decline cannot be here, and its arm is filled.
#[tactic(auto, unfolding(crate::specs::Hold::app_transmit_of))]
fn app_transmit_telegram(
    station: &mut Station,
    now: Instant,
    data: UseTokenData,
    decision: Decision,
    high: bool,
) -> Done
    ensures { (station.new, result) ≡ after station.old (ring_step_of (app_transmit_of station.old.p station.old.core now «data» decision high) station.old.token_ring) }
{
    let (destination, bytes) = match decision {
        Decision::Decline => return do_use_token_pass(station),
        Decision::Send { length } => {
            station.state = State::UseToken {
                first_cycle_done: true,
                data,
            };
            (0, length)
        }
        Decision::SendExpectReply { address, length } => {
            station.state = State::AwaitDataResponse { address, data };
            (address, length)
        }
    };
    let application = station.core.next_application;
    station.transmit(
        now,
        Sent::Application {
            destination,
            application,
            high,
            bytes,
        },
    )
}

// schedule_next_application: the turn moves on to the next application, the last followed by the first. Has each been asked since the
// first that declined?
#[tactic(auto, unfolding(crate::specs::Hold::first_or, crate::specs::Hold::turn_of))]
fn schedule_next_application(
    application: &mut u8,
    first_app: &mut Option<u8>,
    applications: u8,
) -> bool
    ensures first { first_app.new ≡ Some (first_or first_app.old application.old) }
    ensures turn { application.new ≡ turn_of application.old applications }
    ensures done { result ≡ eqb (turn_of application.old applications) (first_or first_app.old application.old) }
{
    let first = *first_app.get_or_insert(*application);
    *application = match application.checked_add(1) {
        Some(next) if next < applications => next,
        _ => 0,
    };
    *application == first
}

// apps_transmit_telegram: the applications are asked in turn until one sends or all have completed their cycle: what it decided, and
// none where nobody sends.
#[tactic(auto, using(crate::specs::Laws::asked_step), unfolding(crate::specs::Hold::asked_from, crate::specs::Hold::asked_of, crate::specs::Hold::asked_decision, crate::specs::Hold::declines_at, crate::specs::Hold::declines_on))]
fn apps_transmit_telegram(
    application: &mut u8,
    first_app: &mut Option<u8>,
    poll: Record<'_>,
    high: bool,
) -> Option<Decision>
    ensures turn { application.new ≡ (asked_of poll.entry.bytes.now poll.entry.applications application.old first_app.old high).application }
    ensures first { first_app.new ≡ (asked_of poll.entry.bytes.now poll.entry.applications application.old first_app.old high).first_app }
    ensures decision { result ≡ asked_decision poll.entry.bytes.now poll.entry.applications high (asked_of poll.entry.bytes.now poll.entry.applications application.old first_app.old high) }
{
    for _ in 0..poll.applications {
        let decision = poll.decision(*application, high);
        if !matches!(decision, Decision::Decline) {
            return Some(decision);
        }
        if schedule_next_application(application, first_app, poll.applications) {
            return None;
        }
    }
    None
}

// The end of the hold time, from + span - less: 0 if it lies below, the largest number if it lies above.
#[tactic(auto, unfolding(crate::specs::Hold::end_of, crate::specs::Hold::capped))]
fn hold_end(from: Micros, span: Micros, less: Micros) -> Micros
    ensures { result ≡ end_of from span less }
{
    Micros(if less <= span {
        from.0.saturating_add(span.0 - less.0)
    } else {
        from.0.saturating_sub(less.0 - span.0)
    })
}

// do_use_token: a new token sets the end of the hold time, less the time of a gap poll while the gap is polled.
#[tactic(auto, unfolding(crate::specs::Hold::hold_end_of, crate::specs::Hold::hold_less, station::specs::Parts::with_token_times))]
fn do_use_token_hold(p: &Parameters, core: &mut Core, token_time: Micros)
    ensures { core.new ≡ hold_end_of p.now core.old token_time }
{
    if core.last_token_time == token_time {
        return;
    }
    let less = match core.gap_state {
        GapState::Waiting { .. } => Micros(0),
        GapState::DoPoll { .. } => p
            .baudrate
            .bits_to_time(Bits(u32::from(p.slot_bits) + GAP_ALLOWANCE)),
    };
    core.end_token_hold_time = hold_end(core.last_token_time, p.token_rotation_time(), less);
    core.last_token_time = token_time;
}

// do_use_token: to PassToken, with the gap question and the first attempt; the pass itself is the next poll's.
#[tactic(auto, unfolding(crate::specs::Hold::use_pass_of, station::specs::Steps::done_of))]
fn do_use_token_pass(station: &mut Station) -> Done
    ensures { (station.new, result) ≡ after station.old (ring_step_of (use_pass_of station.old.core) station.old.token_ring) }
{
    station.state = State::PassToken {
        do_gap: true,
        attempt: PassTokenAttempt::First,
    };
    Done::new(Outcome::Delay)
}

// do_use_token: one cycle of the applications; if none sends, to PassToken.
#[tactic(auto, unfolding(crate::specs::Hold::use_apps_of, crate::specs::Hold::use_apps_after, crate::specs::Hold::asked_decision, station::specs::Parts::with_next_application))]
fn do_use_token_apps(
    station: &mut Station,
    now: Instant,
    data: UseTokenData,
    poll: Record<'_>,
    high: bool,
) -> Done
    ensures { (station.new, result) ≡ after station.old (ring_step_of (use_apps_of station.old.p station.old.core now «data» poll.entry.bytes.now poll.entry.applications high) station.old.token_ring) }
{
    let mut held = data;
    let turn = &mut station.core.next_application;
    match apps_transmit_telegram(turn, &mut held.first_app, poll, high) {
        Some(decision) => app_transmit_telegram(station, now, held, decision, high),
        None => do_use_token_pass(station),
    }
}

/// do_use_token: within the hold time normal telegrams; after it one cycle of high priority, only if no cycle was begun
/// with this token.
#[tactic(auto, unfolding(crate::specs::Hold::use_token_of, crate::specs::Hold::use_token_timed, crate::specs::Hold::holds_of, station::specs::Steps::done_of))]
pub fn do_use_token(
    station: &mut Station,
    now: Instant,
    data: UseTokenData,
    first_cycle_done: bool,
    poll: Record<'_>,
) -> Done
    ensures { (station.new, result) ≡ after station.old (ring_step_of (use_token_of station.old.p station.old.core now «data» first_cycle_done poll.entry.bytes.now poll.entry.applications) station.old.token_ring) }
{
    do_use_token_hold(&station.p, &mut station.core, data.token_time);
    if !station.wait_synchronization_pause(now.micros()) {
        station.state = State::UseToken {
            first_cycle_done,
            data,
        };
        return Done::new(Outcome::Delay);
    }
    let is_over = now.micros() >= station.core.end_token_hold_time;
    if is_over && first_cycle_done {
        return do_use_token_pass(station);
    }
    do_use_token_apps(station, now, data, poll, is_over)
}

// do_await_data_response: a short confirmation, or a response to us from the station that was asked.
#[tactic(auto, unfolding(crate::specs::Hold::valid_response))]
fn is_valid_response(telegram: Telegram, address: u8, own: u8) -> bool
    ensures { result ≡ valid_response telegram address own }
{
    match telegram {
        Telegram::ShortConfirmation => true,
        Telegram::Response {
            destination,
            source,
            ..
        } => source == address && destination == own,
        _ => false,
    }
}

// do_await_data_response: a telegram came. A reply is told to the application; anything else ends the cycle.
#[tactic(auto, unfolding(crate::specs::Hold::received_of, station::specs::Steps::rx_of, station::specs::Parts::with_activity, station::specs::Parts::with_pending))]
fn do_await_data_response_received(
    station: &mut Station,
    now: Micros,
    address: u8,
    data: UseTokenData,
    telegram: Telegram,
) -> Done
    ensures { (station.new, result) ≡ after station.old (ring_step_of (received_of station.old.p station.old.core now address «data» telegram) station.old.token_ring) }
{
    station.core.mark_rx(now);
    if !is_valid_response(telegram, address, station.p.address) {
        station.state = State::active_idle();
        return Done {
            consumed: 1,
            ..Done::new(Outcome::Bus)
        };
    }
    station.state = State::UseToken {
        first_cycle_done: true,
        data,
    };
    let application = station.core.next_application;
    Done {
        notice: Notice::Reply {
            application,
            address,
        },
        consumed: 1,
        ..Done::new(Outcome::Delay)
    }
}

/// do_await_data_response: only the first telegram is looked at. Where no reply came in time, that is told to the application, and the
/// token is used at once.
#[tactic(auto, unfolding(crate::specs::Hold::await_data_of, crate::specs::Hold::timeout_of, crate::specs::Hold::with_notice, station::specs::Steps::done_of))]
pub fn do_await_data_response(
    station: &mut Station,
    now: Instant,
    address: u8,
    data: UseTokenData,
    poll: Record<'_>,
) -> Done
    ensures { (station.new, result) ≡ after station.old (ring_step_of (await_data_of station.old.p station.old.core now address «data» poll.entry.bytes.now poll.entry.applications poll.entry.telegrams) station.old.token_ring) }
{
    if poll.telegrams > 0 {
        let telegram = poll.telegram(0);
        return do_await_data_response_received(station, now.micros(), address, data, telegram);
    }
    if !station.check_slot_expired(now.micros()) {
        station.state = State::AwaitDataResponse { address, data };
        return Done::new(Outcome::Bus);
    }
    let application = station.core.next_application;
    let notice = Notice::Timeout {
        application,
        address,
    };
    Done {
        notice,
        ..do_use_token(station, now, data, true, poll)
    }
}
