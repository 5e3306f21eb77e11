// A trace of document 01, replayed: a header of either edition, then entries, each a command or a poll record, and each entry's
// answer into the next eight bytes of the caller's buffer. It leans on trace_headers and settings_build for the header, on
// station_command and station_poll for the entries, on codec_answers and codec_fields for the bytes.
#![tactic(auto)]

ghost use Rattle.std.specs.Prelude.{◌≡◌, ◌+◌, ◌*◌, ◌≤◌, ◌^◌, length};
ghost use Rattle.station_answer.specs.Answer.{polled_at};
ghost use Rattle.trace_headers.specs.Headers.{header_length};
ghost use Rattle.trace.specs.Entries.{record_length};
ghost use Rattle.trace.specs.Taken.{told};
ghost use Rattle.trace.specs.Trace.{settings_of, settings_at, start_of, start_in, ran_of, replay_of, number_of, buffer_of};

// Public, since the claims of theorem_determined name each contract by its module.
pub mod entries;

use codec_answers::Answer;
use codec_fields::store;
pub use entries::{Entries, Entry};
use refusals::Refusal;
use settings::Parameters;
use station::Station;
use trace_headers::Header;

// The settings that a header gives, or its first refusal.
#[tactic(auto, using(refusals::proofs::Numbers::refused, refusals::proofs::Numbers::named_back), unfolding(crate::specs::Trace::settings_of))]
pub fn header_settings(header: Header) -> Result<Parameters, Refusal>
    ensures { result ≡ settings_of header }
{
    header.check()?;
    Parameters::try_from(header.settings)
}

// The settings of a trace. Refusal 17 where it has fewer bytes than its edition's header or more than 2 to the 32.
#[tactic(auto, unfolding(crate::specs::Trace::settings_at))]
pub fn trace_settings(trace: &[u8]) -> Result<Parameters, Refusal>
    ensures { result ≡ settings_at trace.now }
{
    if trace.len() < trace_headers::header_length(trace) || trace.len() > 4_294_967_296 {
        return Err(Refusal::TraceLength);
    }
    header_settings(trace_headers::Header::read(trace))
}

// How many bytes of record follow an entry's first byte.
#[tactic(auto, unfolding(crate::specs::Entries::record_length))]
pub fn record_length(kind: u8) -> usize
    ensures { (result ≡ record_length kind) × (result ≤ 255) }
{
    if kind < 3 {
        return 0;
    }
    kind as usize
}

/// An entry: online, offline, passive, or a poll of the record.
#[tactic(auto, unfolding(crate::specs::Taken::told))]
pub fn answer_entry(station: &mut Station, entry: Entry<'_>) -> Answer
    ensures { polled_at station.new result ≡ told station.old entry.entry }
{
    match entry {
        Entry::Online => station_command::set_online(station),
        Entry::Offline => station_command::set_offline(station),
        Entry::Passive => station_command::set_passive(station),
        Entry::Poll(record) => station_poll::poll(station, record),
    }
}

// Answers the entries after the header one by one: the tail of the buffer past the answers given is handed on, and the next
// answer is written at its head.
#[tactic(auto, using(crate::proofs::Laws::answering_first, crate::proofs::Laws::answering_cut, crate::proofs::Laws::answering_full, crate::proofs::Laws::answering_next, crate::proofs::Laws::answering_done))]
fn run(station: &mut Station, trace: &[u8], answers: &mut [u8]) -> u64
    requires { (header_length trace.now ≤ length trace.now) × (length trace.now ≤ 2 ^ 32) }
    ensures value { result ≡ number_of (ran_of station.old trace.now (length answers.old)) }
    ensures answers_after { answers.new ≡ buffer_of (ran_of station.old trace.now (length answers.old)) answers.old }
{
    let mut out: usize = 0;
    let mut entries: u64 = 0;
    for entry in Entries::new(&trace[trace_headers::header_length(trace)..]) {
        let entry = match entry {
            Ok(entry) => entry,
            Err(refusal) => return entries * 256 + u64::from(refusal.number()),
        };
        if answers.len() - out < 8 {
            return entries * 256 + u64::from(Refusal::NoRoom.number());
        }
        let answer = answer_entry(station, entry);
        store(&mut answers[out..], 0, 8, answer.pack());
        out += 8;
        entries += 1;
    }
    entries * 256
}

/// The station that a trace starts, with its header's settings and applications: fresh and offline. Refused with the header's numbers.
#[tactic(auto, using(crate::proofs::Laws::start_refused, crate::proofs::Laws::start_made), unfolding(station::specs::Parts::new_station))]
pub fn start(trace: &[u8]) -> Result<Station, Refusal>
    ensures { start_in result ≡ start_of trace.now }
{
    let settings = trace_settings(trace)?;
    Station::new(settings, Header::read(trace).applications)
}

/// Replays a trace and returns the entries answered × 256 + the ending number. Each entry's answer stands in the next eight
/// bytes of `answers`; the bytes past them stay as they were.
#[tactic(auto, using(crate::proofs::Laws::start_long, crate::proofs::Laws::replay_started, crate::proofs::Laws::replay_refused))]
pub fn replay_trace(trace: &[u8], answers: &mut [u8]) -> u64
    ensures value { result ≡ number_of (replay_of trace.now (length answers.old)) }
    ensures answers_after { answers.new ≡ buffer_of (replay_of trace.now (length answers.old)) answers.old }
{
    match start(trace) {
        Ok(mut station) => run(&mut station, trace, answers),
        Err(refusal) => u64::from(refusal.number()),
    }
}
