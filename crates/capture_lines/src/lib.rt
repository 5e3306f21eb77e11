// A line of a bus monitor's capture (document 02, P13): a decimal time, one space, a frame in hex digits, a line feed. It is read
// in one pass over its bytes, and its frame by codec_frames.
#![tactic(auto)]

ghost use Rattle.std.specs.Prelude.{◌≡◌, ◌+◌, ◌^◌, ◌<◌, ◌≤◌, length, set};
ghost use Rattle.std.proofs.lemmas.List.Edits.{sets};
ghost use Rattle.codec_frames.specs.Frames.{numbered};
ghost use Rattle.capture_lines.specs.Lines.{line_read, pairs_at, said_of, line_at};
ghost use Rattle.capture_lines.specs.Ways.{digit_in, byte_in, capped_more, digits_from, rest_way};

use codec_frames::{Frame, read_frame};
use codec_telegrams::Telegram;
use refusals::Refusal;

// The byte between time and frame, and the byte that ends a line.
const SPACE: u8 = b' ';

const LINE_FEED: u8 = b'\n';

// The times that fit the clock lie below.
const CLOCK_LIMIT: u64 = 1 << 48;

/// A line of a capture: its time in microseconds, its telegram, and how many bytes it has, the line feed among them.
#[derive(Clone, Copy, Debug, PartialEq, Eq)]
pub struct Line {
    pub time: u64,
    pub telegram: Telegram,
    pub used: usize,
}

/// Why a line says no telegram: it is not built as lines are; or it is, and its frame is refused, or bytes follow the frame
/// (`CaptureLine`).
#[derive(Clone, Copy, Debug, PartialEq, Eq)]
pub enum LineError {
    NotBuilt,
    Frame { time: u64, refusal: Refusal },
}

// Decimal digits at the start of a slice: how many, and the number that they are, up to the clock's limit.
#[derive(Clone, Copy, Debug, PartialEq, Eq)]
struct Digits {
    value: u64,
    count: usize,
}

// The value of a digit below the radix, lower or upper case.
#[tactic(auto, unfolding(crate::specs::Lines::digit_of))]
fn digit_of(byte: u8, radix: u8) -> Option<u8>
    requires { radix ≤ 16 }
    ensures { result ≡ digit_in radix byte }
{
    let digit = match byte {
        b'0'..=b'9' => byte - b'0',
        b'A'..=b'F' => byte - b'A' + 10,
        b'a'..=b'f' => byte - b'a' + 10,
        _ => return None,
    };
    if digit < radix { Some(digit) } else { None }
}

// A number with one decimal digit more, up to the clock's limit.
#[tactic(auto, using(crate::specs::Lines::clock_limit), unfolding(crate::specs::Ways::capped_more))]
fn with_digit(value: u64, digit: u8) -> u64
    ensures { result ≡ capped_more value digit }
{
    value
        .saturating_mul(10)
        .saturating_add(u64::from(digit))
        .min(CLOCK_LIMIT)
}

// The decimal digits at the start of a slice.
#[tactic(auto, using(crate::specs::Ways::digits_from, crate::proofs::Laws::digits_end, crate::proofs::Laws::digits_stop, crate::proofs::Laws::digits_go))]
fn read_digits(text: &[u8]) -> Digits
    ensures { result ≡ digits_from 0 0 text.now }
{
    let mut digits = Digits { value: 0, count: 0 };
    for &byte in text {
        let Some(digit) = digit_of(byte, 10) else {
            return digits;
        };
        digits = Digits {
            value: with_digit(digits.value, digit),
            count: digits.count + 1,
        };
    }
    digits
}

// The byte that two hex digits are.
#[tactic(auto, using(crate::proofs::Laws::digit_most))]
fn byte_of(high: u8, low: u8) -> Option<u8>
    ensures { result ≡ byte_in high low }
{
    Some(16 * digit_of(high, 16)? + digit_of(low, 16)?)
}

// Writes a byte at a place; past the end nothing.
fn put_at(bytes: &mut [u8], at: usize, byte: u8)
    ensures { bytes.new ≡ set bytes.old at byte }
{
    // Not by `get_mut`, whose contract does not say that the bytes stay where it gives none.
    if at < bytes.len() {
        bytes[at] = byte;
    }
}

// The pairs of hex digits at the start of a slice: how many there are, and their bytes into `frame`, as far as it goes.
#[tactic(auto, using(crate::proofs::Laws::paired_none, crate::proofs::Laws::paired_end, crate::proofs::Laws::paired_stop, crate::proofs::Laws::paired_more))]
fn read_pairs(text: &[u8], frame: &mut [u8]) -> usize
    ensures value { result ≡ length (pairs_at text.now) }
    ensures frame_after { frame.new ≡ sets frame.old 0 (pairs_at text.now) }
{
    let mut count = 0;
    for pair in text.chunks_exact(2) {
        let Some(byte) = byte_of(pair[0], pair[1]) else {
            return count;
        };
        put_at(frame, count, byte);
        count += 1;
    }
    count
}

// What a line of `used` bytes says by what was read of its frame, which has `count` bytes.
#[tactic(auto, unfolding(crate::specs::Lines::said_of))]
fn line_said(
    time: u64,
    read: Result<Frame, Refusal>,
    count: usize,
    used: usize,
) -> Result<Line, LineError>
    ensures { line_read result ≡ said_of time (numbered read) count used }
{
    match read {
        Ok(frame) if usize::from(frame.used) == count => Ok(Line {
            time,
            telegram: frame.telegram,
            used,
        }),
        Ok(_) => Err(LineError::Frame {
            time,
            refusal: Refusal::CaptureLine,
        }),
        Err(refusal) => Err(LineError::Frame { time, refusal }),
    }
}

// The rest of a line, after the `begun` bytes of its time and the space.
#[tactic(auto, using(crate::proofs::Laws::pairs_within, crate::proofs::Laws::rest_none, crate::proofs::Laws::rest_cut, crate::proofs::Laws::rest_other, crate::proofs::Laws::rest_ended))]
fn read_rest(text: &[u8], time: u64, begun: usize) -> Result<Line, LineError>
    requires { begun + length text.now < 2 ^ 64 }
    ensures { line_read result ≡ rest_way text.now time begun }
{
    let mut frame = [0u8; 255];
    let count = read_pairs(text, &mut frame);
    let end = 2 * count;
    if count == 0 || text.len() <= end || text[end] != LINE_FEED {
        return Err(LineError::NotBuilt);
    }
    let read = read_frame(&frame[..count.min(255)]);
    line_said(time, read, count, begun + end + 1)
}

/// The line at the start of a slice. Bytes behind it are not looked at.
#[tactic(auto, using(crate::proofs::Laws::digits_within, crate::proofs::Laws::line_none, crate::proofs::Laws::line_late, crate::proofs::Laws::line_led, crate::proofs::Laws::line_cut, crate::proofs::Laws::line_other, crate::proofs::Laws::line_rest))]
pub fn read_line(text: &[u8]) -> Result<Line, LineError>
    ensures { line_read result ≡ line_at text.now }
{
    let digits = read_digits(text);
    let count = digits.count;
    let time = digits.value;
    if count == 0 || time >= CLOCK_LIMIT || (text[0] == b'0' && count != 1) {
        return Err(LineError::NotBuilt);
    }
    if text.len() <= count || text[count] != SPACE {
        return Err(LineError::NotBuilt);
    }
    let begun = count + 1;
    read_rest(&text[begun..], time, begun)
}
