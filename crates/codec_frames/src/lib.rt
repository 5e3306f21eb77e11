// The frames of PROFIBUS that carry telegrams (document 02, P1): one is read from the bytes at the start of a slice, and a telegram
// word is written as one. It leans on codec_telegrams for the word, on codec_fields for bits and on refusals.
#![tactic(auto)]

ghost use Rattle.std.specs.Prelude.{◌≡◌, length, ◌==◌};
ghost use Rattle.codec_frames.specs.Frames.{numbered, check_of, extended, coded_telegram, sd1_frame, start_of, frame_of, read_number, fitted, write_of, written_count, write_number, written_over};
ghost use Rattle.codec_frames.specs.Ways.{told, coded_of, checked_of, sd2_of, token_of};

use codec_fields::field;
use codec_telegrams::{ResponseState, Telegram, check_word};
use refusals::Refusal;

// The bytes that begin a frame, the byte that ends one, and the function code of a status request.
const SD1: u8 = 0x10;

const SD2: u8 = 0x68;

const SD3: u8 = 0xA2;

const SD4: u8 = 0xDC;

const SC: u8 = 0xE5;

const END_BYTE: u8 = 0x16;

const STATUS_CODE: u8 = 0x49;

/// How a frame begins: by one of the five start bytes, or by a byte that begins no frame.
#[derive(Clone, Copy, Debug, PartialEq, Eq)]
pub enum Start {
    Sd1,
    Sd2,
    Sd3,
    Sd4,
    Sc,
    Unknown,
}

impl From<u8> for Start {
    ghost from_gives = { λ byte start. start ≡ start_of byte };

    /// How a first byte begins a frame.
    #[tactic(auto, unfolding(crate::specs::Frames::start_of))]
    fn from(byte: u8) -> Start {
        match byte {
            SD1 => Start::Sd1,
            SD2 => Start::Sd2,
            SD3 => Start::Sd3,
            SD4 => Start::Sd4,
            SC => Start::Sc,
            _ => Start::Unknown,
        }
    }
}

/// What a reader makes of bytes that begin with a frame: its telegram, and how many bytes the frame has.
#[derive(Clone, Copy, Debug, PartialEq, Eq)]
pub struct Frame {
    pub telegram: Telegram,
    pub used: u16,
}

// What the reader makes of bytes. It gives telegram and bytes apart: a `Frame` moved whole on each way costs up to half as much again.
#[derive(Clone, Copy)]
enum Read {
    Accepted { telegram: Telegram, used: u16 },
    Refused(Refusal),
}

/// The check byte of bytes: their sum modulo 256.
#[tactic(auto, using(crate::specs::Laws::check_more), unfolding(crate::specs::Frames::check_of))]
pub fn check_byte(bytes: &[u8]) -> u8
    ensures { result ≡ check_of bytes.now }
{
    let mut sum: u8 = 0;
    for &byte in bytes {
        sum = sum.wrapping_add(byte);
    }
    sum
}

// Whether an address has the extension bit.
fn is_extended(destination: u8, source: u8) -> bool
    ensures { result ≡ extended destination source }
{
    field(u64::from(destination), 7, 1) || field(u64::from(source), 7, 1)
}

// What a function code says of a telegram with so many bytes of data: bit 6 marks a request, and 49h without data is the status request.
#[tactic(auto, using(crate::specs::Laws::request_read, crate::specs::Laws::response_read))]
fn coded_telegram(destination: u8, source: u8, code: u8, count: u8) -> Telegram
    ensures { result ≡ coded_telegram destination source code (count == 0) }
{
    let bits = u64::from(code);
    if field(bits, 6, 1) {
        Telegram::Request {
            destination,
            source,
            status_request: code == STATUS_CODE && count == 0,
        }
    } else {
        Telegram::Response {
            destination,
            source,
            state: ResponseState::from_number(field(bits, 4, 2)),
            status: field(bits, 0, 4),
        }
    }
}

// Addresses and function code of a frame of `used` bytes whose check byte and end byte are right.
#[tactic(auto, unfolding(crate::specs::Ways::coded_of))]
fn read_coded(destination: u8, source: u8, code: u8, count: u8, used: u16) -> Read
    ensures { told result ≡ coded_of destination source code count used }
{
    if is_extended(destination, source) {
        return Read::Refused(Refusal::AddressExtension);
    }
    if field(u64::from(code), 7, 1) {
        return Read::Refused(Refusal::FunctionCode);
    }
    Read::Accepted {
        telegram: coded_telegram(destination, source, code, count),
        used,
    }
}

// A frame with a check byte: `head` bytes, destination, source, function code, `count` bytes of data, check byte, end byte.
#[tactic(auto, using(crate::specs::Laws::part_check), unfolding(crate::specs::Ways::checked_of))]
fn read_checked(frame: &[u8], head: u8, count: u8) -> Read
    ensures { told result ≡ checked_of frame.now head count }
{
    let from = usize::from(head);
    let place = from + 3 + usize::from(count);
    if frame.len() < place + 2 {
        return Read::Refused(Refusal::FrameCut);
    }
    if frame[place] != check_byte(&frame[from..place]) {
        return Read::Refused(Refusal::CheckByte);
    }
    if frame[place + 1] != END_BYTE {
        return Read::Refused(Refusal::EndByte);
    }
    read_coded(
        frame[from],
        frame[from + 1],
        frame[from + 2],
        count,
        (place + 2) as u16,
    )
}

// SD2: a header of four bytes, with the length twice in it, and then what a frame with a check byte has.
#[tactic(auto, unfolding(crate::specs::Ways::sd2_of))]
fn read_sd2(frame: &[u8]) -> Read
    ensures { told result ≡ sd2_of frame.now }
{
    if frame.len() < 4 {
        return Read::Refused(Refusal::FrameCut);
    }
    let length = frame[1];
    if frame[2] != length || frame[3] != SD2 || length < 4 || length > 249 {
        return Read::Refused(Refusal::FrameHeader);
    }
    read_checked(frame, 4, length - 3)
}

// SD4: start byte, destination, source.
#[tactic(auto, unfolding(crate::specs::Ways::token_of))]
fn read_token(frame: &[u8]) -> Read
    ensures { told result ≡ token_of frame.now }
{
    if frame.len() < 3 {
        return Read::Refused(Refusal::FrameCut);
    }
    let (destination, source) = (frame[1], frame[2]);
    if is_extended(destination, source) {
        return Read::Refused(Refusal::AddressExtension);
    }
    Read::Accepted {
        telegram: Telegram::Token {
            destination,
            source,
        },
        used: 3,
    }
}

// The frame at the start of a slice, by its first byte.
#[tactic(auto, using(crate::specs::Laws::empty_way, crate::specs::Laws::sd1_way, crate::specs::Laws::sd2_way, crate::specs::Laws::sd3_way, crate::specs::Laws::sd4_way, crate::specs::Laws::sc_way, crate::specs::Laws::unknown_way), unfolding(crate::specs::Frames::frame_of))]
fn read_start(frame: &[u8]) -> Read
    ensures { told result ≡ frame_of frame.now }
{
    if frame.is_empty() {
        return Read::Refused(Refusal::FrameCut);
    }
    match Start::from(frame[0]) {
        Start::Sd1 => read_checked(frame, 1, 0),
        Start::Sd2 => read_sd2(frame),
        Start::Sd3 => read_checked(frame, 1, 8),
        Start::Sd4 => read_token(frame),
        Start::Sc => Read::Accepted {
            telegram: Telegram::ShortConfirmation,
            used: 1,
        },
        Start::Unknown => Read::Refused(Refusal::StartByte),
    }
}

/// The frame at the start of a slice. Bytes behind it are not looked at. Refused with 19 to 24, or 34 for the top bit of the
/// function code, the first that applies in this order: 19 no bytes, 20 start byte, 19 and 21 an SD2 header cut or wrong, 19 cut
/// short, 22 check byte, 23 end byte, 24 extension bit, 34.
pub fn read_frame(frame: &[u8]) -> Result<Frame, Refusal>
    ensures { numbered result ≡ frame_of frame.now }
{
    match read_start(frame) {
        Read::Accepted { telegram, used } => Ok(Frame { telegram, used }),
        Read::Refused(refusal) => Err(refusal),
    }
}

/// What refuses in an answer on a frame: a refusal, or any byte that stands for one.
pub trait FrameRefusal: Copy {
    ghost use Rattle.std.specs.Prelude.{ℕ, Result, Ok, Err};
    ghost use Rattle.codec_frames.specs.declared.Frame.{Frame};

    // What definitions say of an answer, where a refusal is its number.
    ghost numbered: { Result Frame Self → Result Frame ℕ };

    /// The refusal's number.
    fn number(self) -> u8
        ensures { numbered (Err self) ≡ Err result };

    // What each `impl` must prove.
    ghost frame_stays: { (frame : Frame) → numbered (Ok frame) ≡ Ok frame };
}

impl FrameRefusal for Refusal {
    ghost use Rattle.std.specs.Prelude.{refl};

    ghost numbered = { numbered };

    ghost frame_stays = { λ frame. refl };

    fn number(self) -> u8 {
        Refusal::number(self)
    }
}

impl FrameRefusal for u8 {
    ghost use Rattle.std.specs.Prelude.{refl};

    ghost numbered = { λ read. read };

    ghost frame_stays = { λ frame. refl };

    fn number(self) -> u8 {
        self
    }
}

/// What was read as one number, as C hosts get it: word × 65536 + bytes used × 256; refused: the number alone.
#[tactic(auto, using(crate::specs::Laws::word_is_below), unfolding(crate::specs::Frames::read_number))]
pub fn read_number<N: FrameRefusal>(read: Result<Frame, N>) -> u64
    ensures { result ≡ read_number (N.numbered read) }
{
    match read {
        Ok(Frame { telegram, used }) => u64::from(telegram) * 65536 + u64::from(used) * 256,
        Err(refusal) => u64::from(refusal.number()),
    }
}

// A frame without data: SD1, destination, source, function code, the check byte of these three, end byte.
fn sd1_frame(destination: u8, source: u8, code: u8) -> [u8; 6]
    ensures { result ≡ sd1_frame destination source code }
{
    let check = check_byte(&[destination, source, code]);
    [SD1, destination, source, code, check, END_BYTE]
}

// Writes bytes at the start of a slice, where there is room, and says how many they are. Built into its callers: as a call it costs a
// frame up to half as much again.
#[inline(always)]
#[tactic(auto, unfolding(crate::specs::Frames::fitted))]
fn store(frame: &mut [u8], bytes: &[u8]) -> Result<usize, Refusal>
    ensures value { numbered result ≡ written_count (fitted bytes.now (length frame.old)) }
    ensures frame_after { frame.new ≡ written_over (fitted bytes.now (length frame.old)) frame.old }
{
    if frame.len() < bytes.len() {
        return Err(Refusal::NoRoom);
    }
    frame[..bytes.len()].copy_from_slice(bytes);
    Ok(bytes.len())
}

/// Writes the frame of a telegram word at the start of a slice and says how many bytes it has. Refused with 14 for a word that no
/// telegram has, 34 for a request that is no status request, 18 without room. A refused call writes nothing, and bytes past the frame
/// stay.
#[inline(always)]
#[tactic(auto, using(refusals::proofs::Numbers::refused, crate::specs::Laws::write_refused, crate::specs::Laws::write_barred, crate::specs::Laws::write_fitted, crate::specs::Laws::write_status, crate::specs::Laws::write_other, crate::specs::Laws::write_response, crate::specs::Laws::status_below, crate::specs::Laws::state_is_below))]
pub fn write_frame(word: u64, frame: &mut [u8]) -> Result<usize, Refusal>
    ensures value { numbered result ≡ written_count (write_of word (length frame.old)) }
    ensures frame_after { frame.new ≡ written_over (write_of word (length frame.old)) frame.old }
{
    check_word(word)?;
    match Telegram::from(word) {
        Telegram::Token {
            destination,
            source,
        } => store(frame, &[SD4, destination, source]),
        Telegram::ShortConfirmation => store(frame, &[SC]),
        Telegram::Request {
            destination,
            source,
            status_request,
        } => {
            if status_request {
                store(frame, &sd1_frame(destination, source, STATUS_CODE))
            } else {
                Err(Refusal::FunctionCode)
            }
        }
        Telegram::Response {
            destination,
            source,
            state,
            status,
        } => {
            let code = 16 * u8::from(state) + status;
            store(frame, &sd1_frame(destination, source, code))
        }
    }
}
