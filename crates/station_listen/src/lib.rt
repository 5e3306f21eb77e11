//! Listening: what a station without the token does. From profirust's active.rs, in its order: do_listen_token and do_active_idle,
//! each of which begins with handle_lost_token. It leans on station_hear_listen and station_hear_active for one telegram heard, on
//! station_claim for a lost token, on codec_records for what was received, on station and ring.
#![tactic(auto)]

ghost use Rattle.std.specs.Prelude.{◌≡◌, ◌<◌};
ghost use Rattle.codec_answers.specs.declared.Outcome.TheVariants.{Bus};
ghost use Rattle.station.specs.Whole.{after, after_hearing};
ghost use Rattle.station.specs.Steps.{heard_of};
ghost use Rattle.station_listen.specs.Listen.{response_state, listen_answered, respond_of, listen_response, heard_telegram, met_too, received_all, meetings_of, consumed_all, listen_token_of, active_response, active_idle_of};

use bit_times::{Instant, Micros};
use codec_answers::{Outcome, Sent};
use codec_records::Record;
use codec_telegrams::{ResponseState, Telegram};
use ring::TokenRing;
use station::{Done, Event, Hearing, State, Station};

// do_listen_token: without token exactly if ready and asked by the previous station.
#[tactic(auto, unfolding(crate::specs::Listen::response_state))]
fn do_listen_token_state(token_ring: &TokenRing, source: u8) -> ResponseState
    ensures { result ≡ response_state token_ring.now source }
{
    if token_ring.ready_for_ring() && source == token_ring.previous_station() {
        ResponseState::MasterWithoutToken
    } else {
        ResponseState::MasterNotReady
    }
}

// do_listen_token: after the response a ready station goes to ActiveIdle, whoever asked.
#[tactic(auto, unfolding(crate::specs::Listen::listen_answered))]
fn do_listen_token_answered(token_ring: &TokenRing, collision_count: u8) -> State
    ensures { result ≡ listen_answered token_ring.now collision_count }
{
    if token_ring.ready_for_ring() {
        State::active_idle()
    } else {
        State::ListenToken {
            status_request: None,
            collision_count,
        }
    }
}

/// A status request is answered after the pause, with this type: until then the state stays, `answered` is the one from then on.
#[tactic(auto, unfolding(crate::specs::Listen::respond_of, station::specs::Steps::done_of))]
pub fn respond(
    station: &mut Station,
    now: Instant,
    answered: State,
    source: u8,
    state: ResponseState,
) -> Done
    ensures { (station.new, result) ≡ after station.old (respond_of station.old.p station.old.state answered station.old.core station.old.token_ring now source state) }
{
    if !station.wait_synchronization_pause(now.micros()) {
        return Done::new(Outcome::Delay);
    }
    station.state = answered;
    station.transmit(
        now,
        Sent::StatusResponse {
            destination: source,
            state,
        },
    )
}

// One telegram of receive_all_telegrams, while listening (in ListenToken or PassiveIdle) or in ActiveIdle.
#[tactic(auto, unfolding(crate::specs::Listen::heard_telegram, station::specs::Steps::heard_of))]
fn receive_telegram(
    station: &mut Station,
    now: Micros,
    listening: bool,
    telegram: Telegram,
    is_last: bool,
) -> Hearing
    ensures { (station.new, result) ≡ after_hearing station.old (heard_telegram station.old.p (heard_of station.old.state station.old.core station.old.token_ring Bus) now listening telegram is_last) }
{
    station.core.mark_rx(now);
    if listening {
        station_hear_listen::do_listen_token_telegram(station, telegram, is_last)
    } else {
        station_hear_active::handle_telegram(station, now, telegram, is_last)
    }
}

// The collisions of a poll, with one telegram more, which is one or none.
#[tactic(auto, unfolding(crate::specs::Listen::met_too))]
fn met_too(met: u8, here: u8) -> u8
    requires { met < 255 }
    ensures { result ≡ met_too met here }
{
    if here == 0 { met } else { met + 1 }
}

/// receive_all_telegrams, in their order. With none the poll waits for the bus.
#[tactic(auto, using(crate::proofs::Heard::met_low, crate::proofs::Heard::count_of, crate::proofs::Heard::in_turn))]
pub fn receive_all_telegrams(
    station: &mut Station,
    now: Micros,
    listening: bool,
    poll: Record<'_>,
) -> Hearing
    ensures { (station.new, result) ≡ after_hearing station.old (received_all station.old.p station.old.state station.old.core station.old.token_ring now listening poll.entry.bytes.now poll.entry.applications poll.entry.telegrams) }
{
    let mut all = Hearing::new(Outcome::Bus);
    for (telegram, is_last) in poll.telegrams() {
        let heard = receive_telegram(station, now, listening, telegram, is_last);
        all = Hearing {
            outcome: heard.outcome,
            met: met_too(all.met, heard.met),
        };
    }
    all
}

// What is counted of a poll with so many collisions.
#[tactic(auto, unfolding(crate::specs::Listen::meetings_of))]
fn meetings(met: u8) -> Event
    ensures { result ≡ meetings_of met }
{
    if met == 0 {
        Event::Nothing
    } else {
        Event::Meetings(met)
    }
}

// The step that the telegrams of a poll lead to, where there are some. A function of its own, and kept one: what it needs room for is
// laid out where its caller begins, and a poll without telegrams is spared that.
#[inline(never)]
#[tactic(auto, unfolding(crate::specs::Listen::consumed_all))]
fn received_some(station: &mut Station, now: Micros, listening: bool, poll: Record<'_>) -> Done
    ensures { (station.new, result) ≡ after station.old (consumed_all (received_all station.old.p station.old.state station.old.core station.old.token_ring now listening poll.entry.bytes.now poll.entry.applications poll.entry.telegrams) poll.entry.telegrams) }
{
    let all = receive_all_telegrams(station, now, listening, poll);
    Done {
        consumed: poll.telegrams,
        event: meetings(all.met),
        ..Done::new(all.outcome)
    }
}

/// The step that the telegrams of a poll lead to, from the station's state: all of them are consumed, and the collisions among them
/// are counted. Most polls have none.
#[tactic(auto, unfolding(station::specs::Steps::done_of, station::specs::Steps::heard_of, crate::specs::Listen::heard_all, crate::specs::Listen::met_in, crate::specs::Listen::received_all, crate::specs::Listen::consumed_all, crate::specs::Listen::meetings_of))]
pub fn received(station: &mut Station, now: Micros, listening: bool, poll: Record<'_>) -> Done
    ensures { (station.new, result) ≡ after station.old (consumed_all (received_all station.old.p station.old.state station.old.core station.old.token_ring now listening poll.entry.bytes.now poll.entry.applications poll.entry.telegrams) poll.entry.telegrams) }
{
    if poll.telegrams == 0 {
        return Done::new(Outcome::Bus);
    }
    received_some(station, now, listening, poll)
}

/// do_listen_token.
#[tactic(auto, unfolding(crate::specs::Listen::listen_token_of, crate::specs::Listen::handle_lost_token, crate::specs::Listen::listen_token_on, crate::specs::Listen::listen_response, station::specs::Steps::with_event))]
pub fn do_listen_token(
    station: &mut Station,
    now: Instant,
    status_request: Option<u8>,
    collision_count: u8,
    poll: Record<'_>,
) -> Done
    ensures { (station.new, result) ≡ after station.old (listen_token_of station.old.p station.old.core station.old.token_ring now status_request collision_count poll.entry.bytes.now poll.entry.applications poll.entry.telegrams) }
{
    if station.token_lost(now.micros()) {
        return Done {
            event: Event::Claim,
            ..station_claim::do_claim_token(station, now, true)
        };
    }
    station.state = State::ListenToken {
        status_request,
        collision_count,
    };
    let Some(source) = status_request else {
        return received(station, now.micros(), true, poll);
    };
    let answered = do_listen_token_answered(&station.token_ring, collision_count);
    let state = do_listen_token_state(&station.token_ring, source);
    respond(station, now, answered, source, state)
}

/// do_active_idle.
#[tactic(auto, unfolding(crate::specs::Listen::active_idle_of, crate::specs::Listen::handle_lost_token, crate::specs::Listen::active_idle_on, crate::specs::Listen::active_response, station::specs::Steps::with_event))]
pub fn do_active_idle(
    station: &mut Station,
    now: Instant,
    status_request: Option<u8>,
    new_previous_station: Option<u8>,
    collision_count: u8,
    poll: Record<'_>,
) -> Done
    ensures { (station.new, result) ≡ after station.old (active_idle_of station.old.p station.old.core station.old.token_ring now status_request new_previous_station collision_count poll.entry.bytes.now poll.entry.applications poll.entry.telegrams) }
{
    if station.token_lost(now.micros()) {
        return Done {
            event: Event::Claim,
            ..station_claim::do_claim_token(station, now, true)
        };
    }
    station.state = State::ActiveIdle {
        status_request,
        new_previous_station,
        collision_count,
    };
    let Some(source) = status_request else {
        return received(station, now.micros(), false, poll);
    };
    let answered = State::ActiveIdle {
        status_request: None,
        new_previous_station,
        collision_count,
    };
    respond(station, now, answered, source, ResponseState::MasterInRing)
}
