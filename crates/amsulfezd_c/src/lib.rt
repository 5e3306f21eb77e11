// The calls that C and Rust hosts link: out/libamsulfezd_c.a has these symbols, and no others. Each is thin over the function of the same
// name in amsulfezd, which says what it does, and ensures what that one ensures. hosts/c/amsulfezd.h declares them.
#![tactic(auto)]

ghost use Rattle.std.specs.Prelude.{◌≡◌, length};
ghost use Rattle.bus_run.specs.Run.{simulate_number, simulate_into, trace_number, trace_into};
ghost use Rattle.capture_export.specs.Export.{export_of, exported_of, buffer_of as exportBuffer};
ghost use Rattle.capture_import.specs.Import.{import_of, imported_of, buffer_of as importBuffer};
ghost use Rattle.codec_frames.specs.Frames.{frame_of, read_number, write_of, write_number, written_over};
ghost use Rattle.heard.specs.Heard.{lookup_of, summary_number, summary_into};
ghost use Rattle.live.specs.Live.{open_number, open_into, step_of, step_number, step_into, step_answer};
ghost use Rattle.live_counts.specs.LiveCounts.{read_counts_number, read_counts_into};
ghost use Rattle.live_heard.specs.LiveHeard.{step_beside, step_table};
ghost use Rattle.settings.specs.Settings.{slot_bits_of, hsa_of, rotation_of, gap_wait_of, retry_of, min_tsdr_of, watchdog_of};
ghost use Rattle.settings_header.specs.SettingsHeader.{set_number, set_into, new_number, new_into, finish_number};
ghost use Rattle.station_bytes.specs.Bytes.{read_of};
ghost use Rattle.trace.specs.Trace.{replay_of, number_of, buffer_of};
ghost use Rattle.trace_editions.specs.Editions.{move_number, move_into};
ghost use Rattle.trace_counts.specs.TraceCounts.{counts_number, counts_into};
ghost use Rattle.trace_heard.specs.TraceHeard.{heard_number, heard_into};

#[unsafe(no_mangle)]
pub extern "C" fn amsulfezd_replay_trace(trace: &[u8], answers: &mut [u8]) -> u64
    ensures value { result ≡ number_of (replay_of trace.now (length answers.old)) }
    ensures answers_after { answers.new ≡ buffer_of (replay_of trace.now (length answers.old)) answers.old }
{
    amsulfezd::amsulfezd_replay_trace(trace, answers)
}

#[unsafe(no_mangle)]
pub extern "C" fn amsulfezd_trace_counts(trace: &[u8], counts: &mut [u8]) -> u64
    ensures value { result ≡ counts_number trace.now (length counts.old) }
    ensures counts_after { counts.new ≡ counts_into trace.now counts.old }
{
    amsulfezd::amsulfezd_trace_counts(trace, counts)
}

#[unsafe(no_mangle)]
pub extern "C" fn amsulfezd_trace_heard(trace: &[u8], address: u8, entry: &mut [u8]) -> u64
    ensures value { result ≡ heard_number trace.now address (length entry.old) }
    ensures after { entry.new ≡ heard_into trace.now address entry.old }
{
    amsulfezd::amsulfezd_trace_heard(trace, address, entry)
}

#[unsafe(no_mangle)]
pub extern "C" fn amsulfezd_simulate(setup: &[u8], report: &mut [u8]) -> u64
    ensures value { result ≡ simulate_number setup.now (length report.old) }
    ensures report_after { report.new ≡ simulate_into setup.now report.old }
{
    amsulfezd::amsulfezd_simulate(setup, report)
}

#[unsafe(no_mangle)]
pub extern "C" fn amsulfezd_simulated_trace(setup: &[u8], station: u8, trace: &mut [u8]) -> u64
    ensures value { result ≡ trace_number setup.now station (length trace.old) }
    ensures trace_after { trace.new ≡ trace_into setup.now station trace.old }
{
    amsulfezd::amsulfezd_simulated_trace(setup, station, trace)
}

#[unsafe(no_mangle)]
pub extern "C" fn amsulfezd_other_edition(header: &[u8], out: &mut [u8]) -> u64
    ensures value { result ≡ move_number header.now (length out.old) }
    ensures out_after { out.new ≡ move_into header.now out.old }
{
    amsulfezd::amsulfezd_other_edition(header, out)
}

#[unsafe(no_mangle)]
pub extern "C" fn amsulfezd_read_frame(frame: &[u8]) -> u64
    ensures { result ≡ read_number (frame_of frame.now) }
{
    amsulfezd::amsulfezd_read_frame(frame)
}

#[unsafe(no_mangle)]
pub extern "C" fn amsulfezd_write_frame(word: u32, frame: &mut [u8]) -> u64
    ensures value { result ≡ write_number (write_of word (length frame.old)) }
    ensures frame_after { frame.new ≡ written_over (write_of word (length frame.old)) frame.old }
{
    amsulfezd::amsulfezd_write_frame(word, frame)
}

#[unsafe(no_mangle)]
pub extern "C" fn amsulfezd_import_capture(
    text: &[u8],
    entries: &mut [u8],
    line: &mut u64,
    written: &mut u64,
) -> u64
    ensures value { result ≡ (imported_of (import_of text.now (length entries.old))).refusal }
    ensures entries_after { entries.new ≡ importBuffer (import_of text.now (length entries.old)) entries.old }
    ensures line_after { line.new ≡ (imported_of (import_of text.now (length entries.old))).line }
    ensures written_after { written.new ≡ (imported_of (import_of text.now (length entries.old))).written }
{
    amsulfezd::amsulfezd_import_capture(text, entries, line, written)
}

#[unsafe(no_mangle)]
pub extern "C" fn amsulfezd_export_capture(
    entries: &[u8],
    text: &mut [u8],
    entry: &mut u64,
    written: &mut u64,
) -> u64
    ensures value { result ≡ (exported_of (export_of entries.now (length text.old))).refusal }
    ensures text_after { text.new ≡ exportBuffer (export_of entries.now (length text.old)) text.old }
    ensures after { entry.new ≡ (exported_of (export_of entries.now (length text.old))).entry }
    ensures written_after { written.new ≡ (exported_of (export_of entries.now (length text.old))).written }
{
    amsulfezd::amsulfezd_export_capture(entries, text, entry, written)
}

#[unsafe(no_mangle)]
pub extern "C" fn amsulfezd_new_settings(
    address: u8,
    baud: u8,
    applications: u8,
    header: &mut [u8],
) -> u64
    ensures value { result ≡ new_number address baud applications (length header.old) }
    ensures header_after { header.new ≡ new_into address baud applications header.old }
{
    amsulfezd::amsulfezd_new_settings(address, baud, applications, header)
}

#[unsafe(no_mangle)]
pub extern "C" fn amsulfezd_set_slot_bits(header: &mut [u8], slot_bits: u16) -> u64
    ensures value { result ≡ set_number (λ p. slot_bits_of p slot_bits) header.old }
    ensures header_after { header.new ≡ set_into (λ p. slot_bits_of p slot_bits) header.old }
{
    amsulfezd::amsulfezd_set_slot_bits(header, slot_bits)
}

#[unsafe(no_mangle)]
pub extern "C" fn amsulfezd_set_highest_station_address(header: &mut [u8], hsa: u8) -> u64
    ensures value { result ≡ set_number (λ p. hsa_of p hsa) header.old }
    ensures header_after { header.new ≡ set_into (λ p. hsa_of p hsa) header.old }
{
    amsulfezd::amsulfezd_set_highest_station_address(header, hsa)
}

#[unsafe(no_mangle)]
pub extern "C" fn amsulfezd_set_token_rotation_bits(header: &mut [u8], ttr: u32) -> u64
    ensures value { result ≡ set_number (λ p. rotation_of p ttr) header.old }
    ensures header_after { header.new ≡ set_into (λ p. rotation_of p ttr) header.old }
{
    amsulfezd::amsulfezd_set_token_rotation_bits(header, ttr)
}

#[unsafe(no_mangle)]
pub extern "C" fn amsulfezd_set_gap_wait_rotations(header: &mut [u8], gap_wait: u8) -> u64
    ensures value { result ≡ set_number (λ p. gap_wait_of p gap_wait) header.old }
    ensures header_after { header.new ≡ set_into (λ p. gap_wait_of p gap_wait) header.old }
{
    amsulfezd::amsulfezd_set_gap_wait_rotations(header, gap_wait)
}

#[unsafe(no_mangle)]
pub extern "C" fn amsulfezd_set_max_retry_limit(header: &mut [u8], max_retry_limit: u8) -> u64
    ensures value { result ≡ set_number (λ p. retry_of p max_retry_limit) header.old }
    ensures header_after { header.new ≡ set_into (λ p. retry_of p max_retry_limit) header.old }
{
    amsulfezd::amsulfezd_set_max_retry_limit(header, max_retry_limit)
}

#[unsafe(no_mangle)]
pub extern "C" fn amsulfezd_set_min_tsdr_bits(header: &mut [u8], min_tsdr_bits: u8) -> u64
    ensures value { result ≡ set_number (λ p. min_tsdr_of p min_tsdr_bits) header.old }
    ensures header_after { header.new ≡ set_into (λ p. min_tsdr_of p min_tsdr_bits) header.old }
{
    amsulfezd::amsulfezd_set_min_tsdr_bits(header, min_tsdr_bits)
}

#[unsafe(no_mangle)]
pub extern "C" fn amsulfezd_set_watchdog_timeout(header: &mut [u8], ms: u32) -> u64
    ensures value { result ≡ set_number (λ p. watchdog_of p ms) header.old }
    ensures header_after { header.new ≡ set_into (λ p. watchdog_of p ms) header.old }
{
    amsulfezd::amsulfezd_set_watchdog_timeout(header, ms)
}

#[unsafe(no_mangle)]
pub extern "C" fn amsulfezd_finish_settings(header: &[u8]) -> u64
    ensures { result ≡ finish_number header.now }
{
    amsulfezd::amsulfezd_finish_settings(header)
}

#[unsafe(no_mangle)]
pub extern "C" fn amsulfezd_open_station(header: &[u8], station: &mut [u8]) -> u64
    ensures value { result ≡ open_number header.now (length station.old) }
    ensures station_after { station.new ≡ open_into header.now station.old }
{
    amsulfezd::amsulfezd_open_station(header, station)
}

#[unsafe(no_mangle)]
pub extern "C" fn amsulfezd_step_station(station: &mut [u8], entry: &[u8], answer: &mut [u8]) -> u64
    ensures value { result ≡ step_number (step_of station.old entry.now (length answer.old)) }
    ensures station_after { station.new ≡ step_into (step_of station.old entry.now (length answer.old)) station.old }
    ensures answer_after { answer.new ≡ step_answer (step_of station.old entry.now (length answer.old)) answer.old }
{
    amsulfezd::amsulfezd_step_station(station, entry, answer)
}

#[unsafe(no_mangle)]
pub extern "C" fn amsulfezd_station_counts(station: &[u8], counts: &mut [u8]) -> u64
    ensures value { result ≡ read_counts_number (read_of station.now) (length counts.old) }
    ensures counts_after { counts.new ≡ read_counts_into (read_of station.now) counts.old }
{
    amsulfezd::amsulfezd_station_counts(station, counts)
}

#[unsafe(no_mangle)]
pub extern "C" fn amsulfezd_step_heard(
    station: &mut [u8],
    entry: &[u8],
    answer: &mut [u8],
    table: &mut [u8],
) -> u64
    ensures value { result ≡ step_number (step_beside station.old entry.now (length answer.old) (length table.old)) }
    ensures station_after { station.new ≡ step_into (step_beside station.old entry.now (length answer.old) (length table.old)) station.old }
    ensures answer_after { answer.new ≡ step_answer (step_beside station.old entry.now (length answer.old) (length table.old)) answer.old }
    ensures table_after { table.new ≡ step_table (step_beside station.old entry.now (length answer.old) (length table.old)) entry.now table.old }
{
    amsulfezd::amsulfezd_step_heard(station, entry, answer, table)
}

#[unsafe(no_mangle)]
pub extern "C" fn amsulfezd_table_heard(table: &[u8], address: u8, entry: &mut [u8]) -> u64
    ensures value { result ≡ summary_number (lookup_of table.now address) (length entry.old) }
    ensures after { entry.new ≡ summary_into (lookup_of table.now address) entry.old }
{
    amsulfezd::amsulfezd_table_heard(table, address, entry)
}
