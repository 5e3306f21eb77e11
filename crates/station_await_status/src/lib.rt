//! AwaitStatusResponse: a gap question is answered, or its slot passes. From profirust's active.rs: do_await_status_response. It
//! leans on station_pass, since the token is passed on where nobody answers, on station and ring, and on codec_records for
//! what was received.
#![tactic(auto)]

ghost use Rattle.std.specs.Prelude.{◌≡◌};
ghost use Rattle.station.specs.Whole.{after};
ghost use Rattle.station_await_status.specs.AwaitStatus.{status_ring, status_received, await_status_of};

use bit_times::Instant;
use codec_answers::Outcome;
use codec_records::Record;
use codec_telegrams::{ResponseState, Telegram};
use ring::TokenRing;
use station::{Done, PassTokenAttempt, State, Station};

// do_await_status_response: a master that is ready for the token, or has it at times, is the next station from now on.
#[tactic(auto, unfolding(crate::specs::AwaitStatus::status_ring, crate::specs::AwaitStatus::status_ring_on))]
fn do_await_status_response_ring(
    ring: &mut TokenRing,
    address: u8,
    state: ResponseState,
    status: u8,
)
    ensures { ring.new ≡ status_ring ring.old address state status }
{
    if status == 0
        && matches!(
            state,
            ResponseState::MasterWithoutToken | ResponseState::MasterInRing
        )
    {
        ring.set_next_station(address);
    }
}

// do_await_status_response: a telegram came. Where the station that was asked has answered us, the state is PassToken, and the pass
// is the next poll's; anything else is unexpected.
#[tactic(auto, unfolding(crate::specs::AwaitStatus::status_received, crate::specs::AwaitStatus::status_answered, crate::specs::AwaitStatus::status_unexpected))]
fn do_await_status_response_received(station: &mut Station, address: u8, telegram: Telegram) -> Done
    ensures { (station.new, result) ≡ after station.old (status_received station.old.p station.old.core station.old.token_ring address telegram) }
{
    let outcome = match telegram {
        Telegram::Response {
            destination,
            source,
            state,
            status,
        } if source == address && destination == station.p.address => {
            do_await_status_response_ring(&mut station.token_ring, address, state, status);
            station.state = State::PassToken {
                do_gap: false,
                attempt: PassTokenAttempt::First,
            };
            Outcome::Delay
        }
        _ => {
            station.state = State::active_idle();
            Outcome::Bus
        }
    };
    Done {
        consumed: 1,
        ..Done::new(outcome)
    }
}

/// do_await_status_response: only the first telegram is looked at. With no answer in time the bus is free, and the token is passed
/// on at once.
#[tactic(auto, unfolding(crate::specs::AwaitStatus::await_status_of, station::specs::Steps::done_of))]
pub fn do_await_status_response(
    station: &mut Station,
    now: Instant,
    address: u8,
    poll: Record<'_>,
) -> Done
    ensures { (station.new, result) ≡ after station.old (await_status_of station.old.p station.old.core station.old.token_ring now address poll.entry.bytes.now poll.entry.applications poll.entry.telegrams) }
{
    if poll.telegrams > 0 {
        station.core.mark_rx(now.micros());
        return do_await_status_response_received(station, address, poll.telegram(0));
    }
    if station.check_slot_expired(now.micros()) {
        return station_pass::do_pass_token(station, now, false, PassTokenAttempt::First);
    }
    station.state = State::AwaitStatusResponse { address };
    Done::new(Outcome::Bus)
}
