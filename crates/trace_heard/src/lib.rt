// Who was heard in a trace (request P7): the run over its entries with a table beside the station, fed with what each poll consumed.
// It needs no room for answers. It leans on trace for the entries, on heard_telegrams and heard_shown for the table, on
// trace_headers and station for the start.
#![tactic(auto)]

ghost use Rattle.std.specs.Prelude.{◌≡◌, ◌≤◌, ◌^◌, length, drop};
ghost use Rattle.heard.specs.Heard.{hear_all};
ghost use Rattle.trace_headers.specs.Headers.{header_length};
ghost use Rattle.trace.specs.Trace.{room_for, ran_of, number_of};
ghost use Rattle.trace_heard.specs.TraceHeard.{consumed_over, heard_number, heard_into};

use heard::{ENTRY_LENGTH, TABLE_LENGTH};
use refusals::Refusal;
use station::Station;
use trace::Entries;

// Answers the entries after the header one by one, and feeds the table with the telegrams that each consumed.
#[tactic(auto, using(crate::proofs::Laws::entries_first, crate::proofs::Laws::entries_cut, crate::proofs::Laws::entries_next, crate::proofs::Laws::entries_done))]
fn listen(station: &mut Station, applications: u8, trace: &[u8], table: &mut [u8]) -> u64
    requires { (header_length trace.now ≤ length trace.now) × (length trace.now ≤ 2 ^ 32) }
    ensures value { result ≡ number_of (ran_of station.old trace.now (room_for trace.now)) }
    ensures table_after { table.new ≡ hear_all table.old (consumed_over applications (drop (header_length trace.now) trace.now) (ran_of station.old trace.now (room_for trace.now)).answers) }
{
    let mut entries: u64 = 0;
    for entry in Entries::new(&trace[trace_headers::header_length(trace)..]) {
        let entry = match entry {
            Ok(entry) => entry,
            Err(refusal) => return entries * 256 + u64::from(refusal.number()),
        };
        let answer = trace::answer_entry(station, entry);
        heard_telegrams::hear_record(table, entry.record(), applications, answer.consumed);
        entries += 1;
    }
    entries * 256
}

// Runs over a whole trace, and writes what is then said of an address into the first 17 bytes of `entry`: times heard, first and last
// clock, station type; 17 zero bytes for one that was never heard. Returns the entries answered × 256 + the ending number. Refused
// with 26, the header's numbers, or 18 where `entry` is too short: then the number is returned and nothing is written.
#[tactic(auto, using(trace::proofs::Laws::start_long, crate::proofs::Laws::ends_refused, crate::proofs::Laws::ends_header, crate::proofs::Laws::ends_no_room, crate::proofs::Laws::ends_run))]
pub fn trace_heard(trace: &[u8], address: u8, entry: &mut [u8]) -> u64
    ensures value { result ≡ heard_number trace.now address (length entry.old) }
    ensures after { entry.new ≡ heard_into trace.now address entry.old }
{
    if let Err(refusal) = heard::check_address(address) {
        return u64::from(refusal.number());
    }
    let mut station = match trace::start(trace) {
        Ok(station) => station,
        Err(refusal) => return u64::from(refusal.number()),
    };
    if entry.len() < ENTRY_LENGTH {
        return u64::from(Refusal::NoRoom.number());
    }
    let mut table = [0u8; TABLE_LENGTH];
    let applications = station.applications;
    let number = listen(&mut station, applications, trace, &mut table);
    // The address and the room were checked above: it is not refused.
    let _ = heard_shown::summary(&table, address, entry);
    number
}
