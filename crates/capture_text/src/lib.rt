// A line of a capture, written (document 02, P13): the time in decimal digits, one space, the frame in hex digits of lower case, a
// line feed. It leans on refusals.
#![tactic(auto)]

ghost use Rattle.std.specs.Prelude.{◌≡◌, ◌*◌, ◌<◌, ◌≤◌, length};
ghost use Rattle.std.proofs.lemmas.List.Edits.{sets};
ghost use Rattle.codec_frames.specs.Frames.{numbered, fitted, written_count, written_over};
ghost use Rattle.capture_text.specs.Text.{most_digits, digit_count, last_digits, hex_digit, hex_text, line_text};

use refusals::Refusal;

// The byte between time and frame, and the byte that ends a line.
const SPACE: u8 = b' ';

const LINE_FEED: u8 = b'\n';

// The most digits that a time of the clock has.
const MOST_DIGITS: usize = 15;

// How many decimal digits a number has, up to 15.
#[tactic(auto, using(crate::specs::Text::most_digits, crate::specs::Laws::counted_none, crate::specs::Laws::counted_last, crate::specs::Laws::counted_more, crate::specs::Laws::counted_all))]
fn digit_count(number: u64) -> usize
    ensures { (result ≡ digit_count most_digits number) × (result ≤ most_digits) }
{
    let mut left = number;
    for count in 0..MOST_DIGITS {
        if left < 10 {
            return count + 1;
        }
        left /= 10;
    }
    MOST_DIGITS
}

// Fills a slice with the last decimal digits of a number.
#[tactic(auto, using(crate::specs::Laws::filled_none, crate::specs::Laws::filled_more, crate::specs::Laws::filled_all))]
fn write_digits(text: &mut [u8], number: u64)
    ensures { text.new ≡ last_digits (length text.old) number }
{
    let mut left = number;
    // By place, which is as plain as lent bytes in reverse: of those the proof would know what each becomes only at the loop's end.
    for place in (0..text.len()).rev() {
        text[place] = b'0' + (left % 10) as u8;
        left /= 10;
    }
}

// The hex digit of a number below 16.
#[tactic(auto, unfolding(crate::specs::Text::hex_digit))]
fn hex_digit(number: u8) -> u8
    requires { number < 16 }
    ensures { result ≡ hex_digit number }
{
    match number {
        0..=9 => b'0' + number,
        _ => b'a' + (number - 10),
    }
}

// Writes bytes as hex digits at the start of a slice.
#[tactic(auto, using(crate::specs::Laws::hexed_none, crate::specs::Laws::hexed_more, crate::specs::Laws::hexed_all))]
fn write_hex(text: &mut [u8], bytes: &[u8])
    requires { 2 * length bytes.now ≤ length text.old }
    ensures { text.new ≡ sets text.old 0 (hex_text bytes.now) }
{
    for (i, &byte) in bytes.iter().enumerate() {
        text[2 * i] = hex_digit(byte / 16);
        text[2 * i + 1] = hex_digit(byte % 16);
    }
}

/// Writes the line of a time and a frame at the start of a slice, and says how many bytes it has; the bytes past it stay. Where there
/// is no room it is refused with 18, and nothing is written.
// A call of its own: built into a loop over telegrams, its time is worked out for those too that have no line.
#[inline(never)]
#[tactic(auto, using(crate::specs::Laws::line_full, crate::specs::Laws::time_length, crate::specs::Laws::space_length, crate::specs::Laws::hex_room, crate::specs::Laws::hex_whole, crate::specs::Laws::line_whole, crate::specs::Laws::line_fits))]
pub fn write_line(text: &mut [u8], time: u64, frame: &[u8]) -> Result<usize, Refusal>
    ensures value { numbered result ≡ written_count (fitted (line_text time frame.now) (length text.old)) }
    ensures text_after { text.new ≡ written_over (fitted (line_text time frame.now) (length text.old)) text.old }
{
    let digits = digit_count(time);
    let begin = digits + 1;
    if text.len() <= begin || (text.len() - begin - 1) / 2 < frame.len() {
        return Err(Refusal::NoRoom);
    }
    let end = begin + 2 * frame.len();
    write_digits(&mut text[..digits], time);
    text[digits] = SPACE;
    write_hex(&mut text[begin..end], frame);
    text[end] = LINE_FEED;
    Ok(end + 1)
}
