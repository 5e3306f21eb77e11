//! A poll of the station with its answer. From profirust's active.rs: poll_inner and poll_multi; the answer is document 01's. It
//! leans on all of the station's crates: on those of its states for what a poll does, on station_answer for what it hands back.
#![tactic(auto)]

ghost use Rattle.std.specs.Prelude.{◌≡◌};
ghost use Rattle.station.specs.Whole.{after};
ghost use Rattle.station_answer.specs.Answer.{polled_at};
ghost use Rattle.station_poll.specs.Poll.{entered_of, dispatch_of, poll_online, poll_inner, poll_of};

use bit_times::Instant;
use codec_answers::{Answer, Outcome};
use codec_records::Record;
use station::{ConnectivityState, Done, State, Station};

// poll_inner: the state that the connectivity state leads to, first thing in a poll. A station that was put online starts listening,
// from Offline or from PassiveIdle. One that was put passive, or is back in ListenToken or ActiveIdle while it is passive, leaves the
// ring. In any other state it goes on.
#[tactic(auto, unfolding(crate::specs::Poll::entered_of, crate::specs::Poll::connected_of, crate::specs::Poll::passivated_of))]
fn poll_inner_enter(connectivity: ConnectivityState, state: &mut State)
    ensures { state.new ≡ entered_of connectivity state.old }
{
    match (connectivity, *state) {
        (ConnectivityState::Online, State::Offline | State::PassiveIdle { .. }) => {
            *state = State::listen_token();
        }
        (
            ConnectivityState::Passive,
            State::Offline | State::ListenToken { .. } | State::ActiveIdle { .. },
        ) => *state = State::passive_idle(),
        _ => {}
    }
}

// poll_inner: what the state asks for. Offline cannot be: poll_inner_enter comes first.
#[tactic(auto, unfolding(crate::specs::Poll::dispatch_of, station::specs::Steps::done_of))]
fn poll_inner_dispatch(station: &mut Station, now: Instant, poll: Record<'_>) -> Done
    ensures { (station.new, result) ≡ after station.old (dispatch_of station.old.p station.old.state station.old.core station.old.token_ring now poll.entry.bytes.now poll.entry.applications poll.entry.telegrams) }
{
    match station.state {
        State::Offline => Done::new(Outcome::Offline),
        State::ListenToken {
            status_request,
            collision_count,
        } => station_listen::do_listen_token(station, now, status_request, collision_count, poll),
        State::ActiveIdle {
            status_request,
            new_previous_station,
            collision_count,
        } => station_listen::do_active_idle(
            station,
            now,
            status_request,
            new_previous_station,
            collision_count,
            poll,
        ),
        State::UseToken {
            first_cycle_done,
            data,
        } => station_hold::do_use_token(station, now, data, first_cycle_done, poll),
        State::ClaimToken { first } => station_claim::do_claim_token(station, now, first),
        State::AwaitDataResponse { address, data } => {
            station_hold::do_await_data_response(station, now, address, data, poll)
        }
        State::PassToken { do_gap, attempt } => {
            station_pass::do_pass_token(station, now, do_gap, attempt)
        }
        State::CheckTokenPass { attempt } => {
            station_check_pass::do_check_token_pass(station, now, attempt, poll)
        }
        State::AwaitStatusResponse { address } => {
            station_await_status::do_await_status_response(station, now, address, poll)
        }
        State::PassiveIdle { status_request } => {
            station_passive::do_passive_idle(station, now, status_request, poll)
        }
    }
}

// poll_inner: while a transmission goes on nothing else is done; then the bus is looked at, then the state.
#[tactic(auto, unfolding(crate::specs::Poll::poll_online, station::specs::Steps::done_of))]
fn poll_inner_online(
    station: &mut Station,
    now: Instant,
    transmitting: bool,
    pending: u16,
    poll: Record<'_>,
) -> Done
    ensures { (station.new, result) ≡ after station.old (poll_online station.old.p station.old.state station.old.core station.old.token_ring now transmitting pending poll.entry.bytes.now poll.entry.applications poll.entry.telegrams) }
{
    if station
        .core
        .check_for_ongoing_transmission(now.micros(), transmitting)
    {
        station.core.mark_bus_activity(now.micros());
        return Done::new(Outcome::Transmission);
    }
    station.core.check_for_bus_activity(now.micros(), pending);
    poll_inner_dispatch(station, now, poll)
}

// poll_inner: an offline station does nothing.
#[tactic(auto, unfolding(crate::specs::Poll::poll_inner, station::specs::Steps::done_of))]
fn poll_inner(
    station: &mut Station,
    now: Instant,
    transmitting: bool,
    pending: u16,
    poll: Record<'_>,
) -> Done
    ensures { (station.new, result) ≡ after station.old (poll_inner station.old.p station.old.state station.old.core station.old.token_ring now transmitting pending poll.entry.bytes.now poll.entry.applications poll.entry.telegrams) }
{
    let connectivity = station.core.connectivity_state;
    if connectivity.is_offline() {
        return Done::new(Outcome::Offline);
    }
    poll_inner_enter(connectivity, &mut station.state);
    poll_inner_online(station, now, transmitting, pending, poll)
}

/// poll_multi, on a poll record. A refused record leaves the station as it was: refusals 12 to 15.
#[tactic(auto, using(refusals::proofs::Numbers::refused, codec_records::specs::Records::head_of, codec_records::specs::Laws::clock_below), unfolding(crate::specs::Poll::poll_of, crate::specs::Poll::accepted_poll, crate::specs::Poll::accepted_after))]
pub fn poll(station: &mut Station, bytes: &[u8]) -> Answer
    ensures { polled_at station.new result ≡ poll_of station.old bytes.now }
{
    match Record::check(bytes, station.applications) {
        Ok(poll) => {
            let head = poll.head();
            let now = Instant::at(head.clock);
            let done = poll_inner(station, now, head.transmitting, head.pending, poll);
            station_answer::poll_done(station, done)
        }
        Err(refusal) => station_answer::refused(station, refusal.number()),
    }
}
