//! Watchdog: the two factors of a watchdog time, and the time that two factors make. Part of layer 2 of document 01
//! ("Settings", refusal 9), from profirust's parameters.rs: watchdog_factors, and the product that
//! Parameters::watchdog_timeout gives. The factors are worked out by the rule of document 02, P2, in place of the Rust's
//! trial. It leans on bit_times and refusals.
#![tactic(auto)]

ghost use Rattle.std.specs.Prelude.{◌≡◌, ◌≤◌};
ghost use Rattle.settings_watchdog.specs.Watchdog.{ceil_of, units_of, most_units, first_factor, factors_of, watchdog_time_of};

use bit_times::Micros;
use refusals::Refusal;

/// The most units of 10 ms that two factors make, 255 × 255.
pub const MOST_UNITS: u64 = 65025;

/// The units of 10 ms in a time in milliseconds, rounded down.
pub fn units_of(ms: u64) -> u64
    ensures { result ≡ units_of ms }
{
    ms / 10
}

// `units / f1` rounded up.
fn ceil(units: u64, f1: u64) -> u64
    requires { 1 ≤ f1 }
    ensures { result ≡ ceil_of units f1 }
{
    units.div_ceil(f1)
}

// The first factor: the units divided by 255, rounded up, and at least 1.
fn first_factor(units: u64) -> u64
    requires { units ≤ most_units }
    ensures { result ≡ first_factor units }
{
    ceil(units, 255).max(1)
}

/// watchdog_factors: the two factors of a time in milliseconds, by the rule of document 02, P2; none of no time. Each answer is
/// that of document 01's trial, refusals included: refusal 9 where no two factors make the time.
#[tactic(auto, using(crate::specs::Watchdog::ceil_of, crate::proofs::Laws::ceil_low, crate::proofs::Laws::factors_refused, crate::proofs::Laws::factors_ruled), unfolding(crate::specs::Watchdog::factors_of))]
pub fn watchdog_factors(ms: u64) -> Result<Option<(u8, u8)>, Refusal>
    ensures { result ≡ factors_of ms }
{
    if ms == 0 {
        return Ok(None);
    }
    let units = units_of(ms);
    if units > MOST_UNITS {
        return Err(Refusal::WatchdogFactors);
    }
    let f1 = first_factor(units);
    let f2 = ceil(units, f1);
    Ok(Some((f1 as u8, f2 as u8)))
}

/// The time that the factors make, f1 × f2 × 10 ms; none where there are no factors.
#[tactic(auto, unfolding(crate::specs::Watchdog::watchdog_time_of))]
pub fn watchdog_time(factors: Option<(u8, u8)>) -> Option<Micros>
    ensures { result ≡ watchdog_time_of factors }
{
    let (f1, f2) = factors?;
    Some(Micros(u64::from(f1) * u64::from(f2) * 10_000))
}
