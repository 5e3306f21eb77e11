// Trace entries exported as a capture (document 02, P13): a line for each telegram of each record that P1 can write, in their order.
// The entries are those of a trace without its header, for one application. It leans on capture_text for the lines, on codec_records
// for the records and on codec_frames for the frames.
#![tactic(auto)]

ghost use Rattle.std.specs.Prelude.{◌≡◌, ◌≤◌, length, slice_index};
ghost use Rattle.codec_frames.specs.Frames.{numbered, fitted, written_count, written_over};
ghost use Rattle.capture_export.specs.Export.{word_line, record_lines, lines_fitted, entry_fitted, entry_used, export_of, exported_of, export_told, buffer_of};
ghost use Rattle.capture_export.specs.Turns.{line_written, lines_told, entry_written, entry_told};

use capture_text::write_line;
use codec_fields::load;
use codec_frames::write_frame;
use codec_records::{Head, Record, telegram_place};
use refusals::Refusal;

mod cut;

use cut::Cut;

/// An entry that ended an export: which, counted from 1, why, and how many bytes are written, those of its own earlier lines among them.
#[derive(Clone, Copy, Debug, PartialEq, Eq)]
pub struct RefusedEntry {
    pub entry: u64,
    pub refusal: Refusal,
    pub written: u64,
}

// What became of an entry: how many bytes it has, and how many were written.
#[derive(Clone, Copy, Debug, PartialEq, Eq)]
struct EntryWritten {
    used: usize,
    bytes: usize,
}

// Writes the line of a telegram word, where P1 can write it; else nothing.
#[tactic(auto, using(crate::specs::Laws::word_skipped, crate::specs::Laws::word_small, crate::specs::Laws::word_written))]
fn write_word(text: &mut [u8], time: u64, word: u64) -> Result<usize, Refusal>
    ensures value { numbered result ≡ written_count (fitted (word_line time word) (length text.old)) }
    ensures text_after { text.new ≡ written_over (fitted (word_line time word) (length text.old)) text.old }
{
    let mut frame = [0u8; 6];
    let Ok(size) = write_frame(word, &mut frame) else {
        return Ok(0);
    };
    write_line(text, time, &frame[..size])
}

// Writes the lines of a record's telegrams, one behind the other, and says how many bytes they have; 18 before the first that has no
// room.
#[tactic(auto, using(codec_records::specs::Records::head_of, crate::specs::Laws::over_length, crate::specs::Laws::lined_none, crate::specs::Laws::lined_all, crate::specs::Laws::lined_full, crate::specs::Laws::lined_long, crate::specs::Laws::lined_room, crate::specs::Laws::lined_more))]
fn write_lines(text: &mut [u8], bytes: &[u8]) -> Result<usize, Cut>
    ensures value { lines_told result ≡ line_written (lines_fitted (record_lines bytes.now) (length text.old)) }
    ensures text_after { text.new ≡ written_over (lines_fitted (record_lines bytes.now) (length text.old)) text.old }
{
    let head = Head::read(bytes);
    let mut at = 0;
    for index in 0..head.telegrams {
        let word = load(bytes, telegram_place(1, index), 4);
        match write_word(&mut text[at..], head.clock, word) {
            Ok(count) => at += count,
            Err(refusal) => {
                return Err(Cut {
                    written: at,
                    refusal,
                });
            }
        }
    }
    Ok(at)
}

// Writes the lines of the entry at the start of a slice: none for a command; 17 for a cut entry, the record's own number, 18.
#[tactic(auto, using(refusals::proofs::Numbers::refused, crate::specs::Laws::code_command, crate::specs::Laws::code_cut, crate::specs::Laws::code_refused, crate::specs::Laws::code_lines))]
fn write_entry(entries: &[u8], text: &mut [u8]) -> Result<EntryWritten, Cut>
    requires { 1 ≤ length entries.now }
    ensures value { entry_told (entry_used (slice_index entries.now 0)) result ≡ entry_written entries.now (length text.old) }
    ensures text_after { text.new ≡ written_over (entry_fitted entries.now (length text.old)) text.old }
{
    let kind = entries[0];
    if kind < 3 {
        return Ok(EntryWritten { used: 1, bytes: 0 });
    }
    let used = 1 + kind as usize;
    if entries.len() < used {
        return Err(Cut::from(Refusal::TraceLength));
    }
    let record = &entries[1..used];
    Record::check(record, 1)?;
    let bytes = write_lines(text, record)?;
    Ok(EntryWritten { used, bytes })
}

/// Exports entries: the lines stand at the start of `text`, and the bytes past them stay. The answer is how many bytes they have. The
/// first bad entry decides; an export without room keeps the earlier lines of the same entry. Refused with 17 for a cut entry, 12 to
/// 15 for its record, 18 without room.
#[tactic(auto, using(crate::specs::Laws::goes_first, crate::specs::Laws::goes_length, crate::specs::Laws::goes_done, crate::specs::Laws::goes_room, crate::specs::Laws::goes_long, crate::specs::Laws::goes_refused, crate::specs::Laws::goes_next))]
pub fn export_capture(entries: &[u8], text: &mut [u8]) -> Result<u64, RefusedEntry>
    ensures value { export_told result ≡ exported_of (export_of entries.now (length text.old)) }
    ensures text_after { text.new ≡ buffer_of (export_of entries.now (length text.old)) text.old }
{
    let mut at = 0;
    let mut out = 0;
    let mut entry = 0;
    // An entry's first byte says its length, so the loop goes by the bytes that each entry has.
    while at < entries.len() {
        entry += 1;
        match write_entry(&entries[at..], &mut text[out..]) {
            Ok(done) => {
                out += done.bytes;
                at += done.used;
            }
            Err(cut) => {
                return Err(RefusedEntry {
                    entry,
                    refusal: cut.refusal,
                    written: (out + cut.written) as u64,
                });
            }
        }
    }
    Ok(out as u64)
}
