//! The three commands, online, offline and passive, each with its answer. From profirust's active.rs: set_online, set_offline,
//! set_passive. It leans on station, station_answer and ring.
#![tactic(auto)]

ghost use Rattle.std.specs.Prelude.{◌≡◌};
ghost use Rattle.station_answer.specs.Answer.{polled_at};
ghost use Rattle.station_command.specs.Command.{connect_of, online_of, offline_of, passive_of};

use codec_answers::{Answer, Outcome};
use ring::TokenRing;
use station::{ConnectivityState, Core, Done, State, Station};
use station_answer::poll_done;

// set_state, but for offline: all but the connectivity state stays.
#[tactic(auto, unfolding(crate::specs::Command::connect_of, station::specs::Parts::with_connectivity, station::specs::Steps::done_of))]
fn set_state(station: &mut Station, connectivity: ConnectivityState) -> Answer
    ensures { polled_at station.new result ≡ connect_of station.old connectivity }
{
    station.core.connectivity_state = connectivity;
    poll_done(station, Done::new(Outcome::None))
}

/// set_online: the state changes with the next accepted poll.
#[tactic(auto, unfolding(crate::specs::Command::online_of))]
pub fn set_online(station: &mut Station) -> Answer
    ensures { polled_at station.new result ≡ online_of station.old }
{
    set_state(station, ConnectivityState::Online)
}

/// set_offline: a fresh station with the same settings and applications. What was counted stays counted.
#[tactic(auto, unfolding(crate::specs::Command::offline_of, station::specs::Steps::done_of))]
pub fn set_offline(station: &mut Station) -> Answer
    ensures { polled_at station.new result ≡ offline_of station.old }
{
    station.state = State::Offline;
    station.core = Core::new();
    station.token_ring = TokenRing::new(station.p.address);
    poll_done(station, Done::new(Outcome::None))
}

/// set_passive: the state changes with the next accepted poll.
#[tactic(auto, unfolding(crate::specs::Command::passive_of))]
pub fn set_passive(station: &mut Station) -> Answer
    ensures { polled_at station.new result ≡ passive_of station.old }
{
    set_state(station, ConnectivityState::Passive)
}
