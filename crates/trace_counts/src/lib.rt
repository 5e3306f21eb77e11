// The counts of a station after a trace (request P6): how often it claimed the token, removed a neighbour and met its own address. The
// run over the trace's entries needs no room for answers. It leans on trace for the entries, on trace_headers and station for the start
// and the counts, on codec_fields for the bytes.
#![tactic(auto)]

ghost use Rattle.std.specs.Prelude.{◌≡◌, ◌≤◌, ◌^◌, length};
ghost use Rattle.trace_headers.specs.Headers.{header_length};
ghost use Rattle.trace.specs.Trace.{room_for, ran_of, number_of};
ghost use Rattle.trace_counts.specs.TraceCounts.{counts_over, counted_after, counts_number, counts_into};

use codec_fields::store;
use refusals::Refusal;
use station::{Counts, Station};
use trace::Entries;

// The bytes of the three counts.
pub const COUNTS_LENGTH: usize = 12;

// Writes the counts into the first 12 bytes, each of 32 bits; every other byte stays. A shorter slice stays as it is.
#[tactic(auto, using(crate::specs::Laws::counts_stored), unfolding(crate::specs::TraceCounts::counts_over))]
pub fn write_counts(bytes: &mut [u8], counts: Counts)
    ensures { bytes.new ≡ counts_over bytes.old counts }
{
    if bytes.len() < COUNTS_LENGTH {
        return;
    }
    store(bytes, 0, 4, counts.claims as u64);
    store(bytes, 4, 4, counts.removals as u64);
    store(bytes, 8, 4, counts.meetings as u64);
}

// Answers the entries after the header one by one. What the station has counted at the end it keeps.
#[tactic(auto, using(crate::specs::Laws::entries_first, crate::specs::Laws::entries_cut, crate::specs::Laws::entries_next, crate::specs::Laws::entries_done))]
fn count(station: &mut Station, trace: &[u8]) -> u64
    requires { (header_length trace.now ≤ length trace.now) × (length trace.now ≤ 2 ^ 32) }
    ensures value { result ≡ number_of (ran_of station.old trace.now (room_for trace.now)) }
    ensures counts { station.new.counts ≡ counted_after station.old trace.now }
{
    let mut entries: u64 = 0;
    for entry in Entries::new(&trace[trace_headers::header_length(trace)..]) {
        match entry {
            Ok(entry) => trace::answer_entry(station, entry),
            Err(refusal) => return entries * 256 + u64::from(refusal.number()),
        };
        entries += 1;
    }
    entries * 256
}

/// Runs over a whole trace, and writes the counts of its station into the first 12 bytes of `counts`: claims, removals, meetings of
/// its own address. Returns the entries answered × 256 + the ending number. Refused with the header's numbers, or 18 where `counts`
/// is too short: then the number is returned and nothing is written.
#[tactic(auto, using(trace::proofs::Laws::start_long, crate::specs::Laws::ends_header, crate::specs::Laws::ends_no_room, crate::specs::Laws::ends_run))]
pub fn trace_counts(trace: &[u8], counts: &mut [u8]) -> u64
    ensures value { result ≡ counts_number trace.now (length counts.old) }
    ensures counts_after { counts.new ≡ counts_into trace.now counts.old }
{
    let mut station = match trace::start(trace) {
        Ok(station) => station,
        Err(refusal) => return u64::from(refusal.number()),
    };
    if counts.len() < COUNTS_LENGTH {
        return u64::from(Refusal::NoRoom.number());
    }
    let number = count(&mut station, trace);
    write_counts(counts, station.counts);
    number
}
