// A bus monitor's capture, imported (document 02, P13): one pass over its text, and each line's telegram is written where it
// belongs, into a new trace entry or into the newest one, whose length and count then change in place. The entries are poll records
// for a station with one application that declines. It leans on capture_lines for the lines and on codec_records_written for the records.
#![tactic(auto)]

ghost use Rattle.std.specs.Prelude.{◌≡◌, ◌+◌, ◌*◌, ◌≤◌, [], ◌∷◌, length};
ghost use Rattle.refusals.specs.Refusals.{number_in};
ghost use Rattle.codec_frames.specs.Frames.{numbered};
ghost use Rattle.codec_records_written.specs.Stored.{head_stored, telegram_stored};
ghost use Rattle.codec_records_written.specs.Whole.{record_stored};
ghost use Rattle.capture_lines.specs.Lines.{line_at};
ghost use Rattle.capture_import.specs.Import.{head_of, declines, telegram_of, new_poll, entry_bytes, time_refusal, import_of, imported_of, import_told, buffer_of};
ghost use Rattle.capture_import.specs.Turns.{Fits, is_newest, added_taken, added_left, extended_bytes, extended_taken, extended_left, hear_taken, hear_left, line_taken, line_left};

use capture_lines::{LineError, read_line};
use codec_decisions::Decision;
use codec_records::Head;
use codec_records_written::{store_decision, store_head, store_telegram};
use codec_telegrams::Telegram;
use refusals::Refusal;

/// A line that ended an import: which, counted from 1, why, and how many bytes the entries of the lines before it have.
#[derive(Clone, Copy, Debug, PartialEq, Eq)]
pub struct RefusedLine {
    pub line: u64,
    pub refusal: Refusal,
    pub written: u64,
}

// The newest entry: where it begins, where it ends, its time, and how many telegrams it has; all 0 before the first.
#[derive(Clone, Copy, Debug, PartialEq, Eq)]
struct Newest {
    place: usize,
    end: usize,
    time: u64,
    telegrams: u8,
}

// What became of a line that was taken: how many bytes it has, and the newest entry after it.
#[derive(Clone, Copy, Debug, PartialEq, Eq)]
struct Taken {
    used: usize,
    newest: Newest,
}

// The head of a poll of a capture.
fn poll_head(time: u64, telegrams: u8) -> Head
    ensures { result ≡ head_of time telegrams }
{
    Head {
        clock: time,
        pending: 0,
        telegrams,
        transmitting: false,
    }
}

// Writes a record with one telegram.
#[tactic(auto, unfolding(codec_records_written::specs::Whole::decisions_stored, codec_records_written::specs::Whole::telegrams_stored, codec_records_written::specs::Whole::record_stored))]
fn write_record(bytes: &mut [u8], time: u64, heard: Telegram)
    ensures { bytes.new ≡ record_stored bytes.old (head_of time 1) 1 declines (telegram_of (heard ∷ [])) }
{
    store_head(bytes, poll_head(time, 1));
    store_decision(bytes, 1, 0, false, Decision::Decline);
    store_decision(bytes, 1, 0, true, Decision::Decline);
    store_telegram(bytes, 1, 0, heard);
}

// Writes an entry with one telegram into its bytes.
#[tactic(auto, using(crate::specs::Import::new_poll, crate::proofs::Laws::entry_written_lem, crate::proofs::Laws::entry_length_lem))]
fn write_entry(entry: &mut [u8], time: u64, heard: Telegram)
    requires { length entry.old ≡ 19 }
    ensures { entry.new ≡ entry_bytes (new_poll time heard) }
{
    entry[0] = 18;
    write_record(&mut entry[1..19], time, heard);
}

// Writes one telegram more into a record: its head with the new count, and the telegram behind those that it has.
fn extend_record(bytes: &mut [u8], time: u64, telegrams: u8, heard: Telegram)
    requires { telegrams ≤ 8 }
    ensures { bytes.new ≡ telegram_stored (head_stored bytes.old (head_of time (telegrams + 1))) 1 telegrams heard }
{
    store_head(bytes, poll_head(time, telegrams + 1));
    store_telegram(bytes, 1, telegrams, heard);
}

// Makes one telegram more of an entry: its length, and its record.
#[tactic(auto, using(crate::proofs::Laws::extended_written, crate::proofs::Laws::extended_length))]
fn extend(entry: &mut [u8], time: u64, telegrams: u8, heard: Telegram)
    requires { (1 ≤ length entry.old) × (telegrams ≤ 8) }
    ensures { entry.new ≡ extended_bytes entry.old time telegrams heard }
{
    entry[0] = 18 + 4 * telegrams;
    extend_record(&mut entry[1..], time, telegrams, heard);
}

// A new entry behind the newest, or 18 where there is no room for it.
#[tactic(auto, using(crate::proofs::Laws::added_written), unfolding(crate::specs::Turns::added_taken, crate::specs::Turns::added_left))]
fn add_entry(
    entries: &mut [u8],
    newest: Newest,
    time: u64,
    heard: Telegram,
    used: usize,
) -> Result<Taken, Refusal>
    requires { Fits newest (length entries.old) }
    ensures value { numbered result ≡ added_taken newest time used (length entries.old) }
    ensures entries_after { entries.new ≡ added_left newest time heard entries.old }
{
    let place = newest.end;
    if entries.len() - place < 19 {
        return Err(Refusal::NoRoom);
    }
    let end = place + 19;
    write_entry(&mut entries[place..end], time, heard);
    let newest = Newest {
        place,
        end,
        time,
        telegrams: 1,
    };
    Ok(Taken { used, newest })
}

// One telegram more in the newest entry, or 18 where there is no room for it.
#[tactic(auto, using(crate::proofs::Laws::newest_written), unfolding(crate::specs::Turns::extended_taken, crate::specs::Turns::extended_left))]
fn extend_newest(
    entries: &mut [u8],
    mut newest: Newest,
    heard: Telegram,
    used: usize,
) -> Result<Taken, Refusal>
    requires { Fits newest (length entries.old) }
    ensures value { numbered result ≡ extended_taken newest used (length entries.old) }
    ensures entries_after { entries.new ≡ extended_left newest heard entries.old }
{
    if entries.len() - newest.end < 4 {
        return Err(Refusal::NoRoom);
    }
    let end = newest.end + 4;
    extend(
        &mut entries[newest.place..end],
        newest.time,
        newest.telegrams,
        heard,
    );
    newest.end = end;
    newest.telegrams += 1;
    Ok(Taken { used, newest })
}

impl Newest {
    // Whether there is an entry and it has this time.
    #[tactic(auto, unfolding(crate::specs::Turns::is_newest))]
    fn has_time(self, time: u64) -> bool
        ensures { result ≡ is_newest self time }
    {
        self.telegrams != 0 && time == self.time
    }

    // Refuses a time below the newest entry's with 32, and its own after the eighth telegram with 33.
    #[tactic(auto, unfolding(crate::specs::Import::time_refusal))]
    fn check_time(self, time: u64) -> Result<(), Refusal>
        ensures { number_in result ≡ time_refusal self.time self.telegrams time }
    {
        if time < self.time {
            return Err(Refusal::TimeGoesBack);
        }
        if self.telegrams >= 8 && time == self.time {
            return Err(Refusal::LinesOfOneTime);
        }
        Ok(())
    }
}

// A telegram of this time: into the newest entry, or into a new one.
#[tactic(auto, unfolding(crate::specs::Turns::hear_taken, crate::specs::Turns::hear_left))]
fn hear(
    entries: &mut [u8],
    newest: Newest,
    time: u64,
    heard: Telegram,
    used: usize,
) -> Result<Taken, Refusal>
    requires { Fits newest (length entries.old) }
    ensures value { numbered result ≡ hear_taken newest time used (length entries.old) }
    ensures entries_after { entries.new ≡ hear_left newest time heard entries.old }
{
    if newest.has_time(time) {
        extend_newest(entries, newest, heard, used)
    } else {
        add_entry(entries, newest, time, heard, used)
    }
}

// The line at the start of a text: what it says is written, or it is refused.
#[tactic(auto, using(refusals::proofs::Numbers::refused), unfolding(crate::specs::Turns::line_taken, crate::specs::Turns::line_left))]
fn take_line(text: &[u8], entries: &mut [u8], newest: Newest) -> Result<Taken, Refusal>
    requires { Fits newest (length entries.old) }
    ensures value { numbered result ≡ line_taken (line_at text.now) newest (length entries.old) }
    ensures entries_after { entries.new ≡ line_left (line_at text.now) newest entries.old }
{
    match read_line(text) {
        Ok(line) => {
            newest.check_time(line.time)?;
            hear(entries, newest, line.time, line.telegram, line.used)
        }
        Err(LineError::Frame { time, refusal }) => {
            newest.check_time(time)?;
            Err(refusal)
        }
        Err(LineError::NotBuilt) => Err(Refusal::CaptureLine),
    }
}

/// Imports a capture: the entries stand at the start of `entries`, and the bytes past them stay. The answer is how many bytes they
/// have. The first bad line decides; nothing of it or after it is written. Refused with 31 for a line that is not built as lines are or
/// has bytes after its frame, 32 for a time below the one before, 33 for a ninth line of one time, 18 without room, or the number of
/// the line's frame.
#[tactic(auto, using(refusals::proofs::Numbers::refused, crate::proofs::Laws::goes_first, crate::proofs::Laws::goes_fit, crate::proofs::Laws::goes_length, crate::proofs::Laws::goes_done, crate::proofs::Laws::goes_kept, crate::proofs::Laws::goes_refused, crate::proofs::Laws::goes_next))]
pub fn import_capture(text: &[u8], entries: &mut [u8]) -> Result<u64, RefusedLine>
    ensures value { import_told result ≡ imported_of (import_of text.now (length entries.old)) }
    ensures entries_after { entries.new ≡ buffer_of (import_of text.now (length entries.old)) entries.old }
{
    let mut at = 0;
    let mut line = 0;
    let mut newest = Newest {
        place: 0,
        end: 0,
        time: 0,
        telegrams: 0,
    };
    // A line's length is known once it is read, so the loop goes by the bytes that each line took.
    while at < text.len() {
        line += 1;
        let taken = match take_line(&text[at..], entries, newest) {
            Ok(taken) => taken,
            Err(refusal) => {
                return Err(RefusedLine {
                    line,
                    refusal,
                    written: newest.end as u64,
                });
            }
        };
        at += taken.used;
        newest = taken.newest;
    }
    Ok(newest.end as u64)
}
