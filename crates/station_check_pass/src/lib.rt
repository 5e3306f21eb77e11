//! CheckTokenPass: a passed token is heard of, or its slot passes and it is sent again, to the next station three times. From
//! profirust's active.rs: do_check_token_pass. It leans on station_pass, on station_listen for what is heard, and on station
//! and ring.
#![tactic(auto)]

ghost use Rattle.std.specs.Prelude.{◌≡◌};
ghost use Rattle.station.specs.Whole.{after};
ghost use Rattle.station_check_pass.specs.CheckPass.{removal_of, resend_of, check_token_pass_of};

use bit_times::Instant;
use codec_answers::Outcome;
use codec_records::Record;
use station::{Done, Event, PassTokenAttempt, State, Station};
use station_pass::{do_pass_token, token_destination};

// What is counted where the next station is taken out of the ring: a removal, and nothing where there is nobody.
#[tactic(auto, unfolding(crate::specs::CheckPass::removal_of))]
fn removal(next: Option<u8>) -> Event
    ensures { result ≡ removal_of next }
{
    match next {
        None => Event::Nothing,
        Some(_) => Event::Removal,
    }
}

// do_check_token_pass: the token was not taken up. It is sent again at once; after the third attempt the station that it
// went to is taken out of the ring, and the one behind it is tried. Own is never taken out.
#[tactic(auto, unfolding(crate::specs::CheckPass::resend_of, station::specs::Steps::with_event))]
fn do_check_token_pass_resend(
    station: &mut Station,
    now: Instant,
    attempt: PassTokenAttempt,
) -> Done
    ensures { (station.new, result) ≡ after station.old (resend_of station.old.p station.old.core station.old.token_ring now attempt) }
{
    match attempt {
        PassTokenAttempt::First => do_pass_token(station, now, false, PassTokenAttempt::Second),
        PassTokenAttempt::Second => do_pass_token(station, now, false, PassTokenAttempt::Third),
        PassTokenAttempt::Third => {
            let next = station.token_ring.next_station();
            let gone = token_destination(station.p.address, next);
            station.token_ring.remove_station(gone);
            Done {
                event: removal(next),
                ..do_pass_token(station, now, false, PassTokenAttempt::First)
            }
        }
    }
}

/// do_check_token_pass: the slot is asked first. Any telegram ends the check, whoever sent it; they are handled as in ActiveIdle.
#[tactic(auto, unfolding(crate::specs::CheckPass::check_token_pass_of, crate::specs::CheckPass::check_received, station::specs::Steps::done_of))]
pub fn do_check_token_pass(
    station: &mut Station,
    now: Instant,
    attempt: PassTokenAttempt,
    poll: Record<'_>,
) -> Done
    ensures { (station.new, result) ≡ after station.old (check_token_pass_of station.old.p station.old.core station.old.token_ring now attempt poll.entry.bytes.now poll.entry.applications poll.entry.telegrams) }
{
    if station.check_slot_expired(now.micros()) {
        return do_check_token_pass_resend(station, now, attempt);
    }
    if poll.telegrams > 0 {
        station.state = State::active_idle();
        return station_listen::received(station, now.micros(), false, poll);
    }
    station.state = State::CheckTokenPass { attempt };
    Done::new(Outcome::Bus)
}
