//! A station's trace of a simulated bus (document 02, P12): its header of edition 1, online, and the record of each tick, as the station
//! was given it. The ticks are run twice: first nothing is kept of the trace but its length, so that a trace without room writes nothing.
//! It leans on bus_setup for the setup and on bus_ticks for the run.
#![tactic(auto)]

ghost use Rattle.std.specs.Prelude.{◌≡◌, ◌+◌, ◌*◌, ◌≤◌, ◌<◌, ◌^◌, ◌∷◌, length, take};
ghost use Rattle.bus_setup.specs.Setup.{stations_of, setup_refusal};
ghost use Rattle.bus_run.specs.Run.{trace_of, trace_number, trace_into};
ghost use Rattle.bus_trace.specs.Traces.{byte_in, bytes_in, Traced};

use bus_seats::Record;
use bus_ticks::{Bus, open_bus};

// Writes a byte; where there is no room for it, it is left out.
#[tactic(auto, using(crate::specs::Traces::byte_written, crate::specs::Traces::byte_left_out))]
fn put_byte(trace: &mut [u8], at: usize, byte: u8)
    ensures { trace.new ≡ byte_in trace.old at byte }
{
    if at < trace.len() {
        trace[at] = byte;
    }
}

// Writes bytes from a place on; those that there is no room for are left out.
#[tactic(auto, using(crate::specs::Traces::copying_none, crate::specs::Traces::copying_more, crate::specs::Traces::copying_all))]
fn put_bytes(trace: &mut [u8], at: usize, bytes: &[u8])
    requires { at + length bytes.now < 2 ^ 64 }
    ensures { trace.new ≡ bytes_in trace.old at bytes.now }
{
    for (j, byte) in bytes.iter().enumerate() {
        put_byte(trace, at + j, *byte);
    }
}

// Writes the entry of a record: its length, and its bytes.
#[tactic(auto, using(crate::specs::Traces::entry_put, crate::specs::Traces::part_short))]
fn put_entry(trace: &mut [u8], at: usize, given: Record)
    requires { (given.length ≤ 46) × (length given.bytes ≡ 46) × (at ≤ 2 ^ 32) }
    ensures { trace.new ≡ bytes_in trace.old at (given.length ∷ take given.length given.bytes) }
{
    put_byte(trace, at, given.length as u8);
    put_bytes(trace, at + 1, &given.bytes[0..given.length]);
}

// Runs the ticks and writes the chosen station's entries from a place on; gives the place behind them.
#[tactic(auto, using(crate::specs::Traces::tracing_first, crate::specs::Traces::tracing_next))]
fn put_entries(
    mut bus: Bus,
    n: u8,
    step: u64,
    ticks: u64,
    chosen: u8,
    trace: &mut [u8],
    from: usize,
) -> usize
    requires { (n ≤ 8) × (step ≤ 1000000) × (ticks ≤ 1000000) × (from ≤ 17) }
    ensures { (result ≤ 17 + 47 * ticks) × Traced bus n step ticks chosen from trace.old result trace.new }
{
    let mut clock: u64 = 0;
    let mut at: usize = from;
    for _tick in 0..ticks {
        let given = bus.tick(n, clock, chosen).given;
        put_entry(trace, at, given);
        at += 1 + given.length;
        clock += step;
    }
    at
}

// Writes the trace of the station at a place of an accepted setup, as far as there is room; gives its length.
#[tactic(auto, using(bus_setup::specs::Laws::header_length_lem, bus_run::specs::Sized::sized, crate::specs::Traces::header_short, crate::specs::Traces::trace_put))]
fn put_trace(setup: &[u8], station: u8, trace: &mut [u8]) -> usize
    requires { (setup_refusal setup.now ≡ 0) × (station < stations_of setup.now) }
    ensures value { (result ≡ length (trace_of setup.now station)) × (result ≤ 2 ^ 32) }
    ensures trace_after { trace.new ≡ bytes_in trace.old 0 (trace_of setup.now station) }
{
    let n = bus_setup::stations(setup) as u8;
    let mut header = [0u8; 16];
    bus_setup::write_header(setup, bus_setup::placed(setup, n, station), &mut header);
    put_bytes(trace, 0, &header);
    put_byte(trace, 16, 0);
    put_entries(
        open_bus(setup, n),
        n,
        bus_setup::tick(setup),
        bus_setup::ticks(setup),
        station,
        trace,
        17,
    )
}

/// Writes the trace of the station with that place by rising address, from 0, of a run of a setup. Returns bytes × 256, or the number that
// refuses it; then nothing is written.
#[tactic(auto, using(crate::specs::Traces::trace_refused, crate::specs::Traces::trace_nobody, crate::specs::Traces::trace_no_room, crate::specs::Traces::trace_done))]
pub fn simulated_trace(setup: &[u8], station: u8, trace: &mut [u8]) -> u64
    ensures value { result ≡ trace_number setup.now station (length trace.old) }
    ensures trace_after { trace.new ≡ trace_into setup.now station trace.old }
{
    let refusal = bus_setup::setup_refusal(setup);
    if refusal != 0 {
        return refusal as u64;
    }
    if bus_setup::stations(setup) <= station as u64 {
        return 29;
    }
    let mut none = [0u8; 1];
    if trace.len() < put_trace(setup, station, &mut none) {
        return 18;
    }
    put_trace(setup, station, trace) as u64 * 256
}
