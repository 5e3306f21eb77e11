//! ClaimToken: the token is claimed by sending it to ourselves twice. From profirust's active.rs: do_claim_token. It leans on
//! station and ring.
#![tactic(auto)]

ghost use Rattle.std.specs.Prelude.{◌≡◌};
ghost use Rattle.station.specs.Whole.{after};
ghost use Rattle.station_claim.specs.Claim.{claim_next, claim_token_of};

use bit_times::{Instant, Micros};
use codec_answers::{Outcome, Sent};
use station::{Done, State, Station};

// The state after a claiming token: once more, or the token is ours.
#[tactic(auto, unfolding(crate::specs::Claim::claim_next))]
fn claim_next(now: Micros, first: bool) -> State
    ensures { result ≡ claim_next now first }
{
    if first {
        State::ClaimToken { first: false }
    } else {
        State::use_token(now)
    }
}

/// do_claim_token: the token is claimed by sending it to ourselves twice, each time after the pause.
#[tactic(auto, unfolding(crate::specs::Claim::claim_token_of, station::specs::Steps::done_of))]
pub fn do_claim_token(station: &mut Station, now: Instant, first: bool) -> Done
    ensures { (station.new, result) ≡ after station.old (claim_token_of station.old.p station.old.core station.old.token_ring now first) }
{
    if !station.wait_synchronization_pause(now.micros()) {
        station.state = State::ClaimToken { first };
        return Done::new(Outcome::Delay);
    }
    station.state = claim_next(now.micros(), first);
    station.token_ring.claim_token();
    let destination = station.p.address;
    station.transmit(now, Sent::Token { destination })
}
