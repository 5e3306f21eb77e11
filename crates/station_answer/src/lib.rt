//! What any call on the station hands back: its answer, with what happened counted. The answer is document 01's; profirust's
//! PollDone is its outcome. It leans on station, codec_answers and ring.
#![tactic(auto)]

ghost use Rattle.std.specs.Prelude.{◌≡◌};
ghost use Rattle.ring.specs.Ring.{next_of, next_number};
ghost use Rattle.station_answer.specs.Counted.{counted_of};
ghost use Rattle.station_answer.specs.Answer.{polled_at, stepped, polled_of, refused_poll};

use codec_answers::Answer;
use station::{Counts, Done, Event, Station};

// The counts after a step: what happened in it is counted. A count stops at its largest value.
#[tactic(auto, unfolding(crate::specs::Counted::counted_of, crate::specs::Counted::raised_by))]
fn count(counts: &mut Counts, event: Event)
    ensures { counts.new ≡ counted_of counts.old event }
{
    match event {
        Event::Nothing => {}
        Event::Claim => counts.claims = counts.claims.saturating_add(1),
        Event::Removal => counts.removals = counts.removals.saturating_add(1),
        Event::Meetings(met) => counts.meetings = counts.meetings.saturating_add(u32::from(met)),
    }
}

// The number of the next station in an answer.
fn next_station(station: &Station) -> u8
    ensures { result ≡ next_number (next_of station.now.token_ring) }
{
    ring::next_station_number(station.token_ring.next_station())
}

/// The answer of an entry that is not refused, once its step is made on the station. What happened in the step is counted here and
/// nowhere else.
#[tactic(auto, unfolding(crate::specs::Answer::polled_of, crate::specs::Answer::step_answer))]
pub fn poll_done(station: &mut Station, done: Done) -> Answer
    ensures { polled_at station.new result ≡ polled_of station.old.p station.old.applications station.old.counts (stepped station.old done) }
{
    count(&mut station.counts, done.event);
    Answer {
        refusal: 0,
        outcome: done.outcome,
        state: station.state.number(),
        sent: done.sent,
        consumed: done.consumed,
        notice: done.notice,
        next_application: station.core.next_application,
        next_station: next_station(station),
    }
}

/// The answer of a refused entry, which leaves the station as it was.
// The refusal is a number: an answer takes any.
#[tactic(auto, unfolding(crate::specs::Answer::refused_poll))]
pub fn refused(station: &Station, refusal: u8) -> Answer
    ensures { polled_at station.now result ≡ refused_poll station.now refusal }
{
    Answer::refused(
        refusal,
        station.state.number(),
        station.core.next_application,
        next_station(station),
    )
}
