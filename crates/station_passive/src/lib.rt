//! PassiveIdle: a station that answers status requests and witnesses tokens, and neither claims nor passes one. It is document 02's
//! (P10): profirust's poll_inner stops there with todo!. What it does is what do_listen_token does but for the lost token, the
//! collisions and the station type: it leans on station_listen for the telegrams and the response.
#![tactic(auto)]

ghost use Rattle.std.specs.Prelude.{◌≡◌};
ghost use Rattle.station.specs.Whole.{after};
ghost use Rattle.station_passive.specs.Passive.{passive_idle_of};

use bit_times::Instant;
use codec_records::Record;
use codec_telegrams::ResponseState;
use station::{Done, State, Station};

/// do_passive_idle: a noted status request is answered, with type slave; where none is noted, the poll's telegrams are heard.
#[tactic(auto, unfolding(crate::specs::Passive::passive_idle_of))]
pub fn do_passive_idle(
    station: &mut Station,
    now: Instant,
    status_request: Option<u8>,
    poll: Record<'_>,
) -> Done
    ensures { (station.new, result) ≡ after station.old (passive_idle_of station.old.p station.old.core station.old.token_ring now status_request poll.entry.bytes.now poll.entry.applications poll.entry.telegrams) }
{
    station.state = State::PassiveIdle { status_request };
    match status_request {
        None => station_listen::received(station, now.micros(), true, poll),
        Some(source) => station_listen::respond(
            station,
            now,
            State::passive_idle(),
            source,
            ResponseState::Slave,
        ),
    }
}
