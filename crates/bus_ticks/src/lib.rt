//! A simulated bus and its ticks (document 02, P12): eight seats at most, and what is on the bus; its start, where each station is fresh
//! and online. It leans on bus_setup for a station's header, on bus_seats for its turn and on bus_wire for what is on the bus.
#![tactic(auto)]

ghost use Rattle.std.specs.Prelude.{◌≡◌, ◌≤◌, ◌<◌, ◌^◌};
ghost use Rattle.bus_run.specs.Run.{settings_in};
ghost use Rattle.bus_wire.specs.Kept.{quiet, cleared_at, nothing_waits};
ghost use Rattle.bus_ticks.specs.Ticks.{picked_of, Ticks};
ghost use Rattle.bus_ticks.specs.Starts.{SeatStarts, BusStarts};

use bit_times::Baud;
use bus_seats::{Record, Seat};
use bus_wire::{Waiting, Wire};
use refusals::Refusal;
use settings::Parameters;
use station::Station;

/// The bus: eight seats, of which the first n are in use, and what is on it.
#[derive(Clone, Copy)]
pub struct Bus {
    pub seats: [Seat; 8],
    pub wire: Wire,
}

/// What a tick came to besides the bus: the words of the answers by place, and the record of the chosen station.
#[derive(Clone, Copy)]
pub struct Ticked {
    pub words: [u64; 8],
    pub given: Record,
}

// The record of the chosen station: the new one where it is its turn, else the one before.
#[tactic(auto, unfolding(crate::specs::Ticks::picked_of))]
fn picked(before: Record, new: Record, place: u8, chosen: u8) -> Record
    ensures { result ≡ picked_of before new place chosen }
{
    if place == chosen { new } else { before }
}

// The bus after the arrivals of now.
#[tactic(auto, unfolding(bus_wire::specs::Kept::cleared_at))]
fn cleared(wire: Wire, now: u64) -> Wire
    ensures { result ≡ cleared_at wire now }
{
    if wire.until > now {
        return wire;
    }
    Wire {
        live: false,
        ..wire
    }
}

impl Bus {
    /// A tick of n stations: each hears what arrives, and is polled, by rising address.
    pub fn tick(&mut self, n: u8, clock: u64, chosen: u8) -> Ticked
        requires { (n ≤ 8) × (clock < 2 ^ 48) }
        ensures { Ticks n clock chosen self.old self.new result }
    {
        let heard = self.wire;
        self.wire = cleared(heard, clock);
        let mut words = [0u64; 8];
        let mut given = Record {
            bytes: [0u8; 46],
            length: 0,
        };
        for i in 0..n {
            let at = i as usize;
            let place = self.seats[at].take_place(heard, &mut self.wire, clock, i);
            words[at] = place.word;
            given = picked(given, place.given, i, chosen);
        }
        Ticked { words, given }
    }
}

// No telegram waits.
#[tactic(auto, unfolding(bus_wire::specs::Kept::nothing_waits))]
fn nothing_waits() -> Waiting
    ensures { result ≡ nothing_waits }
{
    Waiting {
        words: [0, 0, 0, 0, 0, 0, 0, 0],
        count: 0,
    }
}

// A bus on which nothing was sent.
#[tactic(auto, unfolding(bus_wire::specs::Kept::quiet))]
fn quiet_wire() -> Wire
    ensures { result ≡ quiet }
{
    Wire {
        until: 0,
        word: 0,
        sender: 0,
        live: false,
    }
}

// The settings that a station's header gives.
fn settings_in(created: Result<Parameters, Refusal>) -> Parameters
    ensures { result ≡ settings_in created }
{
    match created {
        Ok(p) => p,
        Err(_) => Parameters {
            token_rotation_bits: 32436,
            slot_bits: 100,
            address: 0,
            baudrate: Baud::B9600,
            gap_wait_rotations: 10,
            highest_station_address: 126,
            max_retry_limit: 1,
            min_tsdr_bits: 11,
            watchdog_factors: None,
        },
    }
}

// The station at a place, fresh and online.
#[tactic(auto, using(bus_setup::specs::Laws::header_length_lem))]
fn open_seat(setup: &[u8], n: u8, place: u8) -> Seat
    ensures { SeatStarts setup.now n place result }
{
    let mut header = [0u8; 16];
    bus_setup::write_header(setup, bus_setup::placed(setup, n, place), &mut header);
    let settings = settings_in(trace::trace_settings(&header));
    // one application is not refused
    let Ok(mut station) = Station::new(settings, 1) else {
        unreachable!();
    };
    station_command::set_online(&mut station);
    Seat {
        station,
        waiting: nothing_waits(),
        until: 0,
    }
}

/// The bus at the start: a fresh station at each place, online, and nothing was sent.
pub fn open_bus(setup: &[u8], n: u8) -> Bus
    requires { n ≤ 8 }
    ensures { BusStarts setup.now n result }
{
    Bus {
        seats: [
            open_seat(setup, n, 0),
            open_seat(setup, n, 1),
            open_seat(setup, n, 2),
            open_seat(setup, n, 3),
            open_seat(setup, n, 4),
            open_seat(setup, n, 5),
            open_seat(setup, n, 6),
            open_seat(setup, n, 7),
        ],
        wire: quiet_wire(),
    }
}
