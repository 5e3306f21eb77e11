//! The report of a simulated bus (document 02, P12): the answers of each tick, written one behind the other. It leans on bus_setup for the
//! setup and on bus_ticks for the run.
#![tactic(auto)]

ghost use Rattle.std.specs.Prelude.{◌≡◌, ◌*◌, ◌≤◌, ◌^◌, length};
ghost use Rattle.bus_run.specs.Run.{simulate_number, simulate_into};
ghost use Rattle.bus.specs.Reports.{answers_stored, Reported};

use bus_ticks::{Bus, open_bus};
use codec_fields::store;

// Writes the answers of a tick, 8 bytes each, from a place on; where there is no room for one it is left out.
#[tactic(auto, using(crate::specs::Reports::answers_none, crate::specs::Reports::answers_more))]
fn write_answers(report: &mut [u8], at: usize, words: [u64; 8], n: u8)
    requires { (n ≤ 8) × (at ≤ 2 ^ 32) }
    ensures { report.new ≡ answers_stored report.old at words n }
{
    for i in 0..n {
        let k = usize::from(i);
        store(report, at + 8 * k, 8, words[k]);
    }
}

// Runs the ticks and writes the report.
fn run_report(mut bus: Bus, n: u8, step: u64, ticks: u64, report: &mut [u8])
    requires { (n ≤ 8) × (step ≤ 1000000) × (ticks ≤ 1000000) }
    ensures { Reported bus n step ticks report.old report.new }
{
    let mut clock: u64 = 0;
    let mut at: usize = 0;
    for _tick in 0..ticks {
        let ticked = bus.tick(n, clock, 0);
        write_answers(report, at, ticked.words, n);
        at += 8 * (n as usize);
        clock += step;
    }
}

/// Runs a setup and writes the report, 8 bytes an answer, tick by tick, within a tick by rising address. Returns ticks × 256, or the
/// number that refuses it; then nothing is written.
#[tactic(auto, using(bus_run::specs::Sized::sized, crate::specs::Reports::product_small, crate::specs::Reports::room_short, crate::specs::Reports::simulate_refused, crate::specs::Reports::simulate_no_room, crate::specs::Reports::simulate_ran))]
pub fn simulate(setup: &[u8], report: &mut [u8]) -> u64
    ensures value { result ≡ simulate_number setup.now (length report.old) }
    ensures report_after { report.new ≡ simulate_into setup.now report.old }
{
    let refusal = bus_setup::setup_refusal(setup);
    if refusal != 0 {
        return refusal as u64;
    }
    let stations = bus_setup::stations(setup);
    let ticks = bus_setup::ticks(setup);
    if (report.len() as u64) < 8 * (stations * ticks) {
        return 18;
    }
    let n = stations as u8;
    run_report(open_bus(setup, n), n, bus_setup::tick(setup), ticks, report);
    ticks * 256
}
