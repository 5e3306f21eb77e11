// What a simulated bus keeps (document 02, P12): until when it is busy, the one telegram that may still arrive, and for a station the
// telegrams that wait for it. It leans on codec_answers and codec_telegrams for what is sent and on bit_times for how long it takes.
#![tactic(auto)]

ghost use Rattle.std.specs.Prelude.{◌≡◌, ◌-◌};
ghost use Rattle.bus_wire.specs.Wire.{sent_telegram, bytes_time};
ghost use Rattle.bus_wire.specs.Kept.{later_of, sent_on, arrives_at, dropped_of, appended_of, joined_of, left_of};

use bit_times::{Baud, Bits};
use codec_answers::Sent;
use codec_telegrams::Telegram;

// The bus: when all that was sent has ended; the word and the sender of the telegram that was sent last; whether it may still arrive.
#[derive(Clone, Copy)]
pub struct Wire {
    pub until: u64,
    pub word: u64,
    pub sender: u8,
    pub live: bool,
}

// The telegrams that wait for a station: their words, the oldest first, and how many they are.
#[derive(Clone, Copy)]
pub struct Waiting {
    pub words: [u64; 8],
    pub count: u8,
}

// What an answer's "sent" is on the bus, from the station of this address.
#[tactic(auto, unfolding(crate::specs::Wire::sent_telegram))]
pub fn sent_telegram(sent: Sent, source: u8) -> Telegram
    ensures { result ≡ sent_telegram sent source }
{
    match sent {
        Sent::Nothing => Telegram::ShortConfirmation,
        Sent::Token { destination } => Telegram::Token {
            destination,
            source,
        },
        Sent::StatusRequest { destination } => Telegram::Request {
            destination,
            source,
            status_request: true,
        },
        Sent::StatusResponse { destination, state } => Telegram::Response {
            destination,
            source,
            state,
            status: 0,
        },
        Sent::Application {
            destination,
            application: _,
            high: _,
            bytes: _,
        } => Telegram::Request {
            destination,
            source,
            status_request: false,
        },
    }
}

// How long bytes take on the bus.
#[tactic(auto, unfolding(crate::specs::Wire::bytes_time))]
pub fn bytes_time(bytes: u8, baud: Baud) -> u64
    ensures { result ≡ bytes_time bytes baud }
{
    baud.bits_to_time(Bits(11 * u32::from(bytes))).0
}

// The later of two times.
#[tactic(auto, unfolding(crate::specs::Kept::later_of))]
pub fn later(a: u64, b: u64) -> u64
    ensures { result ≡ later_of a b }
{
    if a < b {
        return b;
    }
    a
}

// The bus after a telegram starts on it: while it is busy, neither that telegram nor the one before arrives.
#[tactic(auto, unfolding(crate::specs::Kept::sent_on))]
pub fn send(wire: Wire, start: u64, ends: u64, sender: u8, word: u64) -> Wire
    ensures { result ≡ sent_on wire start ends sender word }
{
    if start < wire.until {
        return Wire {
            until: later(wire.until, ends),
            word: wire.word,
            sender: wire.sender,
            live: false,
        };
    }
    Wire {
        until: ends,
        word: word,
        sender: sender,
        live: true,
    }
}

// Whether the telegram on the bus arrives at a place now.
#[tactic(auto, unfolding(crate::specs::Kept::arrives_at))]
pub fn arrives(wire: Wire, now: u64, place: u8) -> bool
    ensures { result ≡ arrives_at wire now place }
{
    if wire.live {
        if wire.until <= now {
            if wire.sender == place {
                return false;
            }
            return true;
        }
        return false;
    }
    false
}

// One less than a count, at least none.
fn one_less(count: u8) -> u8
    ensures { result ≡ count - 1 }
{
    if count == 0 {
        return 0;
    }
    count - 1
}

// The telegrams without the oldest.
#[tactic(auto, unfolding(crate::specs::Kept::dropped_of))]
fn dropped(waiting: Waiting) -> Waiting
    ensures { result ≡ dropped_of waiting }
{
    let w = waiting.words;
    let words = [w[1], w[2], w[3], w[4], w[5], w[6], w[7], 0];
    Waiting {
        words,
        count: one_less(waiting.count),
    }
}

// The telegrams and one more, where there is room.
#[tactic(auto, unfolding(crate::specs::Kept::appended_of))]
fn appended(mut waiting: Waiting, word: u64) -> Waiting
    ensures { result ≡ appended_of waiting word }
{
    let count = waiting.count;
    if count < 8 {
        let at = count as usize;
        waiting.words[at] = word;
        waiting.count = count + 1;
        return waiting;
    }
    waiting
}

// The telegrams and one more; beyond 8 the oldest falls away.
#[tactic(auto, unfolding(crate::specs::Kept::joined_of))]
pub fn joined(waiting: Waiting, word: u64) -> Waiting
    ensures { result ≡ joined_of waiting word }
{
    if waiting.count < 8 {
        return appended(waiting, word);
    }
    appended(dropped(waiting), word)
}

// The telegrams without the k oldest.
#[tactic(auto, using(crate::proofs::Waits::left_none, crate::proofs::Waits::left_more))]
pub fn without(waiting: Waiting, k: u8) -> Waiting
    ensures { result ≡ left_of waiting k }
{
    let mut left = waiting;
    let mut i: u8 = 0;
    while i < k {
        left = dropped(left);
        i += 1;
    }
    left
}
