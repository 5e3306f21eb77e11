//! PassToken: the token is passed on, after a gap question if one is due. From profirust's active.rs: do_pass_token. It leans on
//! station and ring.
#![tactic(auto)]

ghost use Rattle.std.specs.Prelude.{◌≡◌};
ghost use Rattle.station.specs.Whole.{after};
ghost use Rattle.station_pass.specs.Pass.{gap_advanced, destination_of, pass_send, pass_token_of};

use bit_times::Instant;
use codec_answers::{Outcome, Sent};
use ring::{GapState, TokenRing};
use settings::Parameters;
use station::{Done, PassTokenAttempt, State, Station};

// do_pass_token: the gap's turn. Waiting goes on until more rotations were counted than the settings ask for; then a walk starts
// from our own station, and goes on from where it is.
#[tactic(auto, unfolding(crate::specs::Pass::gap_advanced))]
fn do_pass_token_gap(p: &Parameters, ring: &TokenRing, gap: GapState) -> GapState
    ensures { result ≡ gap_advanced p.now ring.now gap }
{
    let from = match gap {
        GapState::Waiting { rotation_count } if rotation_count <= u16::from(p.gap_wait_rotations) =>
            {
                return GapState::Waiting {
                    rotation_count: rotation_count + 1,
                };
            }
        GapState::Waiting { .. } => p.address,
        GapState::DoPoll { current_address } => current_address,
    };
    ring.next_gap_poll(from, p.highest_station_address)
}

/// Whom the token is passed to, by who is next: the next station, and ourselves when we are alone.
pub fn token_destination(own: u8, next: Option<u8>) -> u8
    ensures { result ≡ destination_of own next }
{
    next.unwrap_or(own)
}

// do_pass_token: the token is sent to the next station. If there is nobody it is ours again and is used, else the pass is
// checked.
#[tactic(auto, unfolding(crate::specs::Pass::pass_send, crate::specs::Pass::pass_sent_on))]
fn do_pass_token_send(station: &mut Station, now: Instant, attempt: PassTokenAttempt) -> Done
    ensures { (station.new, result) ≡ after station.old (pass_send station.old.p station.old.core station.old.token_ring now attempt) }
{
    let own = station.p.address;
    let destination = token_destination(own, station.token_ring.next_station());
    station.token_ring.witness_token_pass(own, destination);
    station.state = match station.token_ring.next_station() {
        None => State::use_token(now.micros()),
        Some(_) => State::CheckTokenPass { attempt },
    };
    station.transmit(now, Sent::Token { destination })
}

/// do_pass_token: after the pause, a gap question where one is due, else the token.
#[tactic(auto, unfolding(crate::specs::Pass::pass_token_of, crate::specs::Pass::pass_poll, crate::specs::Pass::pass_poll_on, station::specs::Steps::pause_of, station::specs::Steps::waited_of, station::specs::Parts::with_activity, station::specs::Parts::with_gap, station::specs::Steps::done_of))]
pub fn do_pass_token(
    station: &mut Station,
    now: Instant,
    do_gap: bool,
    attempt: PassTokenAttempt,
) -> Done
    ensures { (station.new, result) ≡ after station.old (pass_token_of station.old.p station.old.core station.old.token_ring now do_gap attempt) }
{
    if !station.wait_synchronization_pause(now.micros()) {
        station.state = State::PassToken { do_gap, attempt };
        return Done::new(Outcome::Delay);
    }
    if do_gap {
        station.core.gap_state = do_pass_token_gap(
            &station.p,
            &station.token_ring,
            station.core.gap_state,
        );
        if let GapState::DoPoll { current_address } = station.core.gap_state {
            station.state = State::AwaitStatusResponse {
                address: current_address,
            };
            return station.transmit(
                now,
                Sent::StatusRequest {
                    destination: current_address,
                },
            );
        }
    }
    do_pass_token_send(station, now, attempt)
}
