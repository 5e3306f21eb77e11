// The library for hosts: every call that C and Rust programs make of it, each thin over the crate that does the work. Their
// names carry the prefix amsulfezd_, as a C library's names do. hosts/c/amsulfezd.h declares them. It leans on trace,
// trace_editions, trace_heard, trace_counts, bus, bus_trace, live, live_heard, live_counts, heard_shown, settings_header, codec_frames,
// capture_import and capture_export.
#![tactic(auto)]

ghost use Rattle.std.specs.Prelude.{◌≡◌, length, IfOk, IfErr};
ghost use Rattle.refusals.specs.Refusals.{number_of as refusal_number, number_in};
ghost use Rattle.bus_run.specs.Run.{simulate_number, simulate_into, trace_number, trace_into};
ghost use Rattle.capture_export.specs.Export.{export_of, exported_of, buffer_of as exportBuffer};
ghost use Rattle.capture_import.specs.Import.{import_of, imported_of, buffer_of as importBuffer};
ghost use Rattle.codec_frames.specs.Frames.{frame_of, read_number, write_of, write_number, written_over};
ghost use Rattle.heard.specs.Heard.{lookup_of, summary_number, summary_into};
ghost use Rattle.live.specs.Live.{open_number, open_into, step_of, step_number, step_into, step_answer};
ghost use Rattle.live_counts.specs.LiveCounts.{read_counts_number, read_counts_into};
ghost use Rattle.live_heard.specs.LiveHeard.{step_beside, step_table};
ghost use Rattle.settings.specs.Settings.{slot_bits_of, hsa_of, rotation_of, gap_wait_of, retry_of, min_tsdr_of, watchdog_of};
ghost use Rattle.settings_header.specs.SettingsHeader.{set_number, set_into, new_number, new_into, finish_number};
ghost use Rattle.station_bytes.specs.Bytes.{read_of};
ghost use Rattle.trace.specs.Trace.{replay_of, number_of, buffer_of};
ghost use Rattle.trace_editions.specs.Editions.{move_number, move_into};
ghost use Rattle.trace_counts.specs.TraceCounts.{counts_number, counts_into};
ghost use Rattle.trace_heard.specs.TraceHeard.{heard_number, heard_into};

use refusals::Refusal;

// The number that a caller is given: what a call gives, or the number of its refusal alone.
fn returned(answer: Result<u64, Refusal>) -> u64
    ensures value { IfOk answer (λ number. result ≡ number) }
    ensures refused { IfErr answer (λ refusal. result ≡ refusal_number refusal) }
{
    answer.unwrap_or_else(|refusal| u64::from(refusal.number()))
}

// The same of a call that gives nothing: 0, or the number of its refusal.
fn number(answer: Result<(), Refusal>) -> u64
    ensures { result ≡ number_in answer }
{
    returned(answer.map(|()| 0))
}

// Replays a trace and returns the entries answered × 256 + the ending number. Each entry's answer stands in the next eight
// bytes of `answers`; the bytes past them stay as they were.
#[unsafe(no_mangle)]
pub extern "C" fn amsulfezd_replay_trace(trace: &[u8], answers: &mut [u8]) -> u64
    ensures value { result ≡ number_of (replay_of trace.now (length answers.old)) }
    ensures answers_after { answers.new ≡ buffer_of (replay_of trace.now (length answers.old)) answers.old }
{
    trace::replay_trace(trace, answers)
}

// Runs over a trace and writes what its station has counted at the end: how often it claimed the token, removed a neighbour and met its
// own address, 32 bits each, 12 bytes into `counts`. Returns the entries answered × 256 + the ending number. Refused with the header's
// numbers, or 18 where `counts` is too short: then nothing is written.
#[unsafe(no_mangle)]
pub extern "C" fn amsulfezd_trace_counts(trace: &[u8], counts: &mut [u8]) -> u64
    ensures value { result ≡ counts_number trace.now (length counts.old) }
    ensures counts_after { counts.new ≡ counts_into trace.now counts.old }
{
    trace_counts::trace_counts(trace, counts)
}

// Runs over a trace and writes who was heard: of an address the times heard, the first and the last clock and the station type of its
// last response, 17 bytes into `entry`, all zero where it was never heard. Returns the entries answered × 256 + the ending number.
// Refused with 26 for an address above 125, the header's numbers, or 18 where `entry` is too short: then nothing is written.
#[unsafe(no_mangle)]
pub extern "C" fn amsulfezd_trace_heard(trace: &[u8], address: u8, entry: &mut [u8]) -> u64
    ensures value { result ≡ heard_number trace.now address (length entry.old) }
    ensures after { entry.new ≡ heard_into trace.now address entry.old }
{
    trace_heard::trace_heard(trace, address, entry)
}

// Runs a simulated bus and writes its report: the stations' answers, 8 bytes each, tick by tick, within a tick by rising address. Returns
// the ticks × 256, or a refusal's number alone; then nothing is written.
#[unsafe(no_mangle)]
pub extern "C" fn amsulfezd_simulate(setup: &[u8], report: &mut [u8]) -> u64
    ensures value { result ≡ simulate_number setup.now (length report.old) }
    ensures report_after { report.new ≡ simulate_into setup.now report.old }
{
    bus::simulate(setup, report)
}

// Runs a simulated bus and writes the trace of one station, by its place by rising address from 0: its header of edition 1, online, and
// the record of each tick. Returns the bytes written × 256, or a refusal's number alone; then nothing is written.
#[unsafe(no_mangle)]
pub extern "C" fn amsulfezd_simulated_trace(setup: &[u8], station: u8, trace: &mut [u8]) -> u64
    ensures value { result ≡ trace_number setup.now station (length trace.old) }
    ensures trace_after { trace.new ≡ trace_into setup.now station trace.old }
{
    bus_trace::simulated_trace(setup, station, trace)
}

// Writes the header that `header` begins with in the other edition into the first bytes of `out`, and returns the bytes written
// × 256. Refused with 17, the header's numbers, or 18 where `out` is too short: then the number is returned and nothing is
// written.
#[tactic(auto, using(refusals::proofs::Numbers::refused), unfolding(trace_editions::specs::Editions::move_number))]
#[unsafe(no_mangle)]
pub extern "C" fn amsulfezd_other_edition(header: &[u8], out: &mut [u8]) -> u64
    ensures value { result ≡ move_number header.now (length out.old) }
    ensures out_after { out.new ≡ move_into header.now out.old }
{
    match trace_editions::other_edition(header, out) {
        Ok(written) => returned(Ok(written as u64 * 256)),
        Err(refusal) => returned(Err(refusal)),
    }
}

// Reads the frame at the start of a slice and returns telegram word × 65536 + bytes used × 256, or a refusal's number alone.
#[unsafe(no_mangle)]
pub extern "C" fn amsulfezd_read_frame(frame: &[u8]) -> u64
    ensures { result ≡ read_number (frame_of frame.now) }
{
    codec_frames::read_number(codec_frames::read_frame(frame))
}

// Writes the frame of a telegram word at the start of a slice and returns bytes written × 256 + number. A refused call writes
// nothing; the bytes past the frame stay as they were.
#[tactic(auto, using(codec_frames::specs::Laws::counted, codec_frames::specs::Laws::count_small, codec_frames::specs::Laws::count_refused))]
#[unsafe(no_mangle)]
pub extern "C" fn amsulfezd_write_frame(word: u32, frame: &mut [u8]) -> u64
    ensures value { result ≡ write_number (write_of word (length frame.old)) }
    ensures frame_after { frame.new ≡ written_over (write_of word (length frame.old)) frame.old }
{
    match codec_frames::write_frame(word as u64, frame) {
        Ok(count) => count as u64 * 256,
        Err(refusal) => u64::from(refusal.number()),
    }
}

// Imports a capture: the entries of its lines stand at the start of `entries`, the bytes past them stay as they were. The first bad
// line decides: its number is returned, `line` says which, counted from 1, and all lines before it stand; else 0 and 0. `written`
// says how many bytes the entries have. Both are always written.
#[unsafe(no_mangle)]
pub extern "C" fn amsulfezd_import_capture(
    text: &[u8],
    entries: &mut [u8],
    line: &mut u64,
    written: &mut u64,
) -> u64
    ensures value { result ≡ (imported_of (import_of text.now (length entries.old))).refusal }
    ensures entries_after { entries.new ≡ importBuffer (import_of text.now (length entries.old)) entries.old }
    ensures line_after { line.new ≡ (imported_of (import_of text.now (length entries.old))).line }
    ensures written_after { written.new ≡ (imported_of (import_of text.now (length entries.old))).written }
{
    match capture_import::import_capture(text, entries) {
        Ok(count) => {
            *line = 0;
            *written = count;
            0
        }
        Err(refused) => {
            *line = refused.line;
            *written = refused.written;
            u64::from(refused.refusal.number())
        }
    }
}

// Exports trace entries as a capture: the lines stand at the start of `text`, the bytes past them stay as they were. The first bad
// entry decides: its number is returned, `entry` says which, counted from 1, and all lines before it stand, without room those of
// the same entry too; else 0 and 0. `written` says how many bytes the lines have. Both are always written.
#[unsafe(no_mangle)]
pub extern "C" fn amsulfezd_export_capture(
    entries: &[u8],
    text: &mut [u8],
    entry: &mut u64,
    written: &mut u64,
) -> u64
    ensures value { result ≡ (exported_of (export_of entries.now (length text.old))).refusal }
    ensures text_after { text.new ≡ exportBuffer (export_of entries.now (length text.old)) text.old }
    ensures after { entry.new ≡ (exported_of (export_of entries.now (length text.old))).entry }
    ensures written_after { written.new ≡ (exported_of (export_of entries.now (length text.old))).written }
{
    match capture_export::export_capture(entries, text) {
        Ok(count) => {
            *entry = 0;
            *written = count;
            0
        }
        Err(refused) => {
            *entry = refused.entry;
            *written = refused.written;
            u64::from(refused.refusal.number())
        }
    }
}

// Settings in the caller's memory: the first 16 bytes of `header` are a header of edition 1.

// New settings with the source's defaults: an address, a baud code, and so many applications. Refused with 1, 10, 11, or 18 where the
// bytes are too few: then nothing is written.
#[unsafe(no_mangle)]
pub extern "C" fn amsulfezd_new_settings(
    address: u8,
    baud: u8,
    applications: u8,
    header: &mut [u8],
) -> u64
    ensures value { result ≡ new_number address baud applications (length header.old) }
    ensures header_after { header.new ≡ new_into address baud applications header.old }
{
    number(settings_header::new_settings(address, baud, applications, header))
}

// The setters. Each is refused with 17 where the bytes are too few, with the header's own number if it is refused for another reason
// than 25, and then with the setter's: a refused call leaves the bytes as they were.

// Sets the slot time in bits. Refused with 2.
#[unsafe(no_mangle)]
pub extern "C" fn amsulfezd_set_slot_bits(header: &mut [u8], slot_bits: u16) -> u64
    ensures value { result ≡ set_number (λ p. slot_bits_of p slot_bits) header.old }
    ensures header_after { header.new ≡ set_into (λ p. slot_bits_of p slot_bits) header.old }
{
    number(settings_header::set_slot_bits(header, slot_bits))
}

// Sets the highest station address, and the rotation to 5000 bits for each of its addresses. Refused with 3.
#[unsafe(no_mangle)]
pub extern "C" fn amsulfezd_set_highest_station_address(header: &mut [u8], hsa: u8) -> u64
    ensures value { result ≡ set_number (λ p. hsa_of p hsa) header.old }
    ensures header_after { header.new ≡ set_into (λ p. hsa_of p hsa) header.old }
{
    number(settings_header::set_highest_station_address(header, hsa))
}

// Sets the target token rotation time in bits. Refused with 4.
#[unsafe(no_mangle)]
pub extern "C" fn amsulfezd_set_token_rotation_bits(header: &mut [u8], ttr: u32) -> u64
    ensures value { result ≡ set_number (λ p. rotation_of p ttr) header.old }
    ensures header_after { header.new ≡ set_into (λ p. rotation_of p ttr) header.old }
{
    number(settings_header::set_token_rotation_bits(header, ttr))
}

// Sets how many token rotations to wait before the gap is polled again. Refused with 5.
#[unsafe(no_mangle)]
pub extern "C" fn amsulfezd_set_gap_wait_rotations(header: &mut [u8], gap_wait: u8) -> u64
    ensures value { result ≡ set_number (λ p. gap_wait_of p gap_wait) header.old }
    ensures header_after { header.new ≡ set_into (λ p. gap_wait_of p gap_wait) header.old }
{
    number(settings_header::set_gap_wait_rotations(header, gap_wait))
}

// Sets how often a telegram is retried. Refused with 6.
#[unsafe(no_mangle)]
pub extern "C" fn amsulfezd_set_max_retry_limit(header: &mut [u8], max_retry_limit: u8) -> u64
    ensures value { result ≡ set_number (λ p. retry_of p max_retry_limit) header.old }
    ensures header_after { header.new ≡ set_into (λ p. retry_of p max_retry_limit) header.old }
{
    number(settings_header::set_max_retry_limit(header, max_retry_limit))
}

// Sets the least time in bits before anyone responds. Refused with 7.
#[unsafe(no_mangle)]
pub extern "C" fn amsulfezd_set_min_tsdr_bits(header: &mut [u8], min_tsdr_bits: u8) -> u64
    ensures value { result ≡ set_number (λ p. min_tsdr_of p min_tsdr_bits) header.old }
    ensures header_after { header.new ≡ set_into (λ p. min_tsdr_of p min_tsdr_bits) header.old }
{
    number(settings_header::set_min_tsdr_bits(header, min_tsdr_bits))
}

// Sets the watchdog timeout in milliseconds. Refused with 8.
#[unsafe(no_mangle)]
pub extern "C" fn amsulfezd_set_watchdog_timeout(header: &mut [u8], ms: u32) -> u64
    ensures value { result ≡ set_number (λ p. watchdog_of p ms) header.old }
    ensures header_after { header.new ≡ set_into (λ p. watchdog_of p ms) header.old }
{
    number(settings_header::set_watchdog_timeout(header, ms))
}

// The number that the whole header is refused with, 25 among them, or 0: then the settings are finished.
#[unsafe(no_mangle)]
pub extern "C" fn amsulfezd_finish_settings(header: &[u8]) -> u64
    ensures { result ≡ finish_number header.now }
{
    number(settings_header::finish_settings(header))
}

// Opens a station: writes the 96 bytes of a fresh one, with the settings of the header that `header` begins with in either edition, and
// returns the bytes written × 256. Refused with the header's numbers, or 18 where `station` is too short: then nothing is written.
#[unsafe(no_mangle)]
pub extern "C" fn amsulfezd_open_station(header: &[u8], station: &mut [u8]) -> u64
    ensures value { result ≡ open_number header.now (length station.old) }
    ensures station_after { station.new ≡ open_into header.now station.old }
{
    live::open_station(header, station)
}

// Steps a station by the entry that `entry` begins with, a command or a poll record as in a trace: writes its answer into the first 8
// bytes of `answer` and the station after it into `station`, and returns the entry's bytes × 256. Refused with 36 where `station` holds
// none, 17 where the entry is empty or cut, 18 where `answer` is too short: then nothing is written.
#[unsafe(no_mangle)]
pub extern "C" fn amsulfezd_step_station(station: &mut [u8], entry: &[u8], answer: &mut [u8]) -> u64
    ensures value { result ≡ step_number (step_of station.old entry.now (length answer.old)) }
    ensures station_after { station.new ≡ step_into (step_of station.old entry.now (length answer.old)) station.old }
    ensures answer_after { answer.new ≡ step_answer (step_of station.old entry.now (length answer.old)) answer.old }
{
    live::step_station(station, entry, answer)
}

// Writes what a station has counted, read from its bytes: how often it claimed the token, removed a neighbour and met its own address, as
// `amsulfezd_trace_counts` writes it, 12 bytes into `counts`, and returns 0. Refused with 36 where `station` holds none, then 18 where
// `counts` is too short: then nothing is written.
#[unsafe(no_mangle)]
pub extern "C" fn amsulfezd_station_counts(station: &[u8], counts: &mut [u8]) -> u64
    ensures value { result ≡ read_counts_number (read_of station.now) (length counts.old) }
    ensures counts_after { counts.new ≡ read_counts_into (read_of station.now) counts.old }
{
    live_counts::station_counts(station, counts)
}

// Steps a station as `amsulfezd_step_station` does, with a table of who was heard lent beside it, which begins as zeros: 17 bytes for each
// of the 126 addresses. It is fed with the telegrams that the entry consumed. Refused with 36, 17, and 18 where `answer` or `table` is too
// short: then nothing is written.
#[unsafe(no_mangle)]
pub extern "C" fn amsulfezd_step_heard(
    station: &mut [u8],
    entry: &[u8],
    answer: &mut [u8],
    table: &mut [u8],
) -> u64
    ensures value { result ≡ step_number (step_beside station.old entry.now (length answer.old) (length table.old)) }
    ensures station_after { station.new ≡ step_into (step_beside station.old entry.now (length answer.old) (length table.old)) station.old }
    ensures answer_after { answer.new ≡ step_answer (step_beside station.old entry.now (length answer.old) (length table.old)) answer.old }
    ensures table_after { table.new ≡ step_table (step_beside station.old entry.now (length answer.old) (length table.old)) entry.now table.old }
{
    live_heard::step_heard(station, entry, answer, table)
}

// Writes what such a table says of an address, as `amsulfezd_trace_heard` writes it, 17 bytes into `entry`, all zero where it was never
// heard or the table is too short for it, and returns 0. Refused with 26 for an address above 125, then 18 where `entry` is too short:
// then nothing is written.
#[unsafe(no_mangle)]
pub extern "C" fn amsulfezd_table_heard(table: &[u8], address: u8, entry: &mut [u8]) -> u64
    ensures value { result ≡ summary_number (lookup_of table.now address) (length entry.old) }
    ensures after { entry.new ≡ summary_into (lookup_of table.now address) entry.old }
{
    number(heard_shown::summary(table, address, entry))
}
