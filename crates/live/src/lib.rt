//! The live door: a station as bytes in the caller's memory, opened by a header and stepped by one entry at a time. It leans on
//! trace_headers and trace for header and entry, on station_bytes for the bytes.
#![tactic(auto)]

ghost use Rattle.std.specs.Prelude.{◌≡◌, length, get_or, ◌<◌, Some, Ok};
ghost use Rattle.trace.specs.Trace.{start_in};
ghost use Rattle.live.specs.Live.{open_start, open_number, open_into, step_found, step_of, step_number, step_into, step_answer, done_in, done_of};

use codec_fields::store;
use refusals::Refusal;
use station::Station;
use trace::Entries;
use trace_headers::Header;

/// What a step consumed: the entry's bytes, 1 to 256, and so many telegrams of its record, which speaks for so many applications.
#[derive(Clone, Copy, Debug, PartialEq, Eq)]
pub struct Consumed {
    pub size: u16,
    pub telegrams: u8,
    pub applications: u8,
}

/// The number that C gets of a step: the entry's bytes × 256, or the refusal's.
pub fn done_number(done: Result<Consumed, Refusal>) -> u64
    ensures { result ≡ (done_in done).number }
{
    match done {
        Ok(consumed) => u64::from(consumed.size) * 256,
        Err(refusal) => u64::from(refusal.number()),
    }
}

// The station that a header starts, in either edition.
#[tactic(auto, using(crate::specs::Laws::open_made), unfolding(crate::specs::Live::open_start, trace::specs::Trace::started_with, station::specs::Parts::new_station))]
fn start(header: &[u8]) -> Result<Station, Refusal>
    ensures { start_in result ≡ open_start header.now }
{
    if header.len() < trace_headers::header_length(header) {
        return Err(Refusal::TraceLength);
    }
    let header = Header::read(header);
    let settings = trace::header_settings(header)?;
    Station::new(settings, header.applications)
}

/// Opens a station: a fresh one with the settings of the header that these bytes begin with, in either edition. Returns the bytes
/// written × 256, or the number that refuses: the header's as in a trace, then 18 where there is no room.
#[tactic(auto, using(crate::specs::Laws::open_refused, crate::specs::Laws::open_full, crate::specs::Laws::open_done))]
pub fn open_station(header: &[u8], station: &mut [u8]) -> u64
    ensures value { result ≡ open_number header.now (length station.old) }
    ensures station_after { station.new ≡ open_into header.now station.old }
{
    match start(header) {
        Ok(fresh) => {
            if station.len() < 96 {
                return u64::from(Refusal::NoRoom.number());
            }
            station_bytes::write_station(&fresh, station);
            24576
        }
        Err(refusal) => u64::from(refusal.number()),
    }
}

// Steps a station that was read by the entry that these bytes begin with, and writes its answer and the station after it.
#[tactic(auto, using(crate::specs::Laws::found_empty, crate::specs::Laws::found_cut, crate::specs::Laws::found_full, crate::specs::Laws::found_answered, crate::specs::Laws::record_short))]
fn step_found(
    found: &mut Station,
    station: &mut [u8],
    entry: &[u8],
    answer: &mut [u8],
) -> Result<Consumed, Refusal>
    ensures value { done_in result ≡ done_of (step_found found.old entry.now (length answer.old)) }
    ensures station_after { station.new ≡ step_into (step_found found.old entry.now (length answer.old)) station.old }
    ensures answer_after { answer.new ≡ step_answer (step_found found.old entry.now (length answer.old)) answer.old }
{
    let taken = match Entries::new(entry).next() {
        None => return Err(Refusal::TraceLength),
        Some(Err(_)) => return Err(Refusal::TraceLength),
        Some(Ok(taken)) => taken,
    };
    if answer.len() < 8 {
        return Err(Refusal::NoRoom);
    }
    let said = trace::answer_entry(found, taken);
    store(answer, 0, 8, said.pack());
    station_bytes::write_station(found, station);
    Ok(Consumed {
        size: taken.record().len() as u16 + 1,
        telegrams: said.consumed,
        applications: found.applications,
    })
}

/// Steps the station that bytes are by an entry: a command or a poll record, as in a trace. Its answer stands in the first 8 bytes of
/// `answer`, the station after it where it was. Says what was consumed. Refused, and then nothing is written: 36 where the bytes are no
/// station, 17 where the entry is empty or cut, 18 where the answer has no room.
#[tactic(auto, unfolding(crate::specs::Live::step_of, crate::specs::Live::step_on, crate::specs::Live::step_into, crate::specs::Live::step_answer, crate::specs::Live::done_of))]
pub fn step(station: &mut [u8], entry: &[u8], answer: &mut [u8]) -> Result<Consumed, Refusal>
    ensures value { done_in result ≡ done_of (step_of station.old entry.now (length answer.old)) }
    ensures station_after { station.new ≡ step_into (step_of station.old entry.now (length answer.old)) station.old }
    ensures answer_after { answer.new ≡ step_answer (step_of station.old entry.now (length answer.old)) answer.old }
{
    match station_bytes::read_station(station) {
        Some(mut found) => step_found(&mut found, station, entry, answer),
        None => Err(Refusal::StationBytes),
    }
}

/// The same for a caller that keeps nothing beside the station: returns the number alone.
#[tactic(auto, using(crate::specs::Laws::done_number))]
pub fn step_station(station: &mut [u8], entry: &[u8], answer: &mut [u8]) -> u64
    ensures value { result ≡ step_number (step_of station.old entry.now (length answer.old)) }
    ensures station_after { station.new ≡ step_into (step_of station.old entry.now (length answer.old)) station.old }
    ensures answer_after { answer.new ≡ step_answer (step_of station.old entry.now (length answer.old)) answer.old }
{
    done_number(step(station, entry, answer))
}
