//! The seats of a simulated bus (document 02, P12): a station with what waits for it, and its turn at a tick. A station is polled through
//! `station_poll::poll` on record bytes that the record writer wrote, so that what it saw is a trace entry. Memory is fixed. It leans on
//! bus_wire for what is on the bus, on the record writer and on `station_poll`.
#![tactic(auto)]

ghost use Rattle.std.specs.Prelude.{◌≡◌, ◌≤◌, ◌<◌, ◌^◌, length, take};
ghost use Rattle.station_answer.specs.Answer.{polled_at};
ghost use Rattle.station_poll.specs.Poll.{poll_of};
ghost use Rattle.bus_seats.specs.Kept.{offered_of, record_length_of, word_of, words_stored, record_stored_of, RecordIs, TurnIs, until_after, wire_after, PlaceIs};

use bus_wire::{Waiting, Wire};
use codec_answers::{Answer, Sent};
use codec_decisions::Decision;
use codec_fields::store;
use codec_records::Head;
use codec_records_written::{store_decision, store_head};
use settings::Parameters;
use station::Station;

/// A station, the telegrams that wait for it, and when the last that it sent has ended.
#[derive(Clone, Copy)]
pub struct Seat {
    pub station: Station,
    pub waiting: Waiting,
    pub until: u64,
}

/// A poll record, and how many bytes of it there are.
#[derive(Clone, Copy)]
pub struct Record {
    pub bytes: [u8; 46],
    pub length: usize,
}

/// What a station's poll came to besides the seat: the answer, and the record that it was given.
#[derive(Clone, Copy)]
pub struct Turn {
    pub answer: Answer,
    pub given: Record,
}

/// What a station's turn came to besides the seat and the bus: the answer's word, and the record that it was given.
#[derive(Clone, Copy)]
pub struct Place {
    pub word: u64,
    pub given: Record,
}

// The telegrams that a record lists: those that wait, and the one that arrives.
#[tactic(auto, unfolding(crate::specs::Kept::offered_of))]
fn offered(waiting: Waiting, heard: Wire, now: u64, place: u8) -> Waiting
    ensures { result ≡ offered_of waiting heard now place }
{
    if bus_wire::arrives(heard, now, place) {
        return bus_wire::joined(waiting, heard.word);
    }
    waiting
}

// The bytes of a record with so many telegrams, 8 at most.
#[tactic(auto, unfolding(crate::specs::Kept::record_length_of))]
fn record_length(count: u8) -> usize
    ensures { (result ≡ record_length_of count) × (result ≤ 46) }
{
    if count > 8 {
        return 46;
    }
    14 + 4 * usize::from(count)
}

// A telegram's word; 0 past the eighth.
#[tactic(auto, unfolding(crate::specs::Kept::word_of))]
fn word(waiting: Waiting, j: u8) -> u64
    ensures { result ≡ word_of waiting j }
{
    if j < 8 {
        return waiting.words[usize::from(j)];
    }
    0
}

// Writes the telegrams into a record.
#[tactic(auto, using(crate::specs::Turns::words_none, crate::specs::Turns::words_more))]
fn write_words(bytes: &mut [u8], waiting: Waiting)
    ensures { bytes.new ≡ words_stored bytes.old waiting waiting.count }
{
    for j in 0..waiting.count {
        store(bytes, 14 + 4 * usize::from(j), 4, word(waiting, j));
    }
}

// Writes a whole record: the head, an application that declines, the telegrams.
#[tactic(auto, unfolding(crate::specs::Kept::record_stored_of))]
fn write_record(bytes: &mut [u8], clock: u64, transmitting: bool, waiting: Waiting)
    ensures { bytes.new ≡ record_stored_of bytes.old clock transmitting waiting }
{
    store_head(
        bytes,
        Head {
            clock,
            pending: 0,
            telegrams: waiting.count,
            transmitting,
        },
    );
    store_decision(bytes, 1, 0, false, Decision::Decline);
    store_decision(bytes, 1, 0, true, Decision::Decline);
    write_words(bytes, waiting);
}

// A whole record.
fn make_record(clock: u64, transmitting: bool, waiting: Waiting) -> Record
    ensures { RecordIs clock transmitting waiting result }
{
    let length = record_length(waiting.count);
    let mut bytes = [0u8; 46];
    write_record(&mut bytes[0..length], clock, transmitting, waiting);
    Record { bytes, length }
}

// Polls a station with a record.
#[tactic(auto, using(crate::specs::Turns::poll_part))]
fn poll_record(station: &mut Station, given: Record) -> Answer
    requires { (given.length ≤ 46) × (length given.bytes ≡ 46) }
    ensures { polled_at station.new result ≡ poll_of station.old (take given.length given.bytes) }
{
    station_poll::poll(station, &given.bytes[0..given.length])
}

// The bus after a station's turn, by what it sent. Returns when the last that the station sent has ended.
#[tactic(auto, using(crate::specs::Turns::bytes_bound), unfolding(crate::specs::Kept::wire_after, crate::specs::Kept::until_after))]
fn after_sending(
    wire: &mut Wire,
    until: u64,
    clock: u64,
    place: u8,
    sent: Sent,
    p: Parameters,
) -> u64
    requires { clock < 2 ^ 48 }
    ensures wire { wire.new ≡ wire_after wire.old clock place sent p }
    ensures until { result ≡ until_after until clock sent p }
{
    let bytes = sent.bytes();
    if bytes == 0 {
        return until;
    }
    let ends = clock + bus_wire::bytes_time(bytes, p.baudrate);
    let word = u64::from(bus_wire::sent_telegram(sent, p.address));
    *wire = bus_wire::send(*wire, clock, ends, place, word);
    bus_wire::later(until, ends)
}

impl Seat {
    // Polls the station with what it is given at this tick.
    #[tactic(auto, using(crate::specs::Turns::turn_taken))]
    fn take_turn(&mut self, heard: Wire, clock: u64, place: u8) -> Turn
        ensures { TurnIs self.old heard clock place self.new result }
    {
        let waiting = offered(self.waiting, heard, clock, place);
        let given = make_record(clock, clock < self.until, waiting);
        let answer = poll_record(&mut self.station, given);
        self.waiting = bus_wire::without(waiting, answer.consumed);
        Turn { answer, given }
    }

    /// The station's turn at a tick, with what it sends.
    pub fn take_place(&mut self, heard: Wire, wire: &mut Wire, clock: u64, place: u8) -> Place
        requires { clock < 2 ^ 48 }
        ensures { PlaceIs self.old heard wire.old clock place self.new wire.new result }
    {
        let p = self.station.p;
        let turn = self.take_turn(heard, clock, place);
        self.until = after_sending(wire, self.until, clock, place, turn.answer.sent, p);
        Place {
            word: turn.answer.pack(),
            given: turn.given,
        }
    }
}
