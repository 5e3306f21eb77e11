//! Shows how the two watchdog factors of a time come about, for each time in milliseconds that its arguments name: the units,
//! the two divisions, the factors and the time that they make; for a refused time the number and the limit. The numbers are
//! what the proved calls give. It leans on settings_watchdog for the factors and on settings for what a setting takes.
#![tactic(auto)]

use settings::Parameters;
use settings_watchdog::{MOST_UNITS, units_of, watchdog_factors, watchdog_time};
use std::env::{Env, FillError};
use std::io;

// The first division: units / 255 rounded up is f1, or f1 is 1 where there are no units.
fn first_division(rt: &impl Print, units: u64, f1: u8) -> io::Result<()> {
    if units == 0 {
        println!(rt; "{units} / 255 is 0, and the first factor is at least 1: {f1}")
    } else {
        println!(rt; "{units} / 255 rounded up is {f1}: the first factor")
    }
}

// How the factors of a time come about, or why it has none.
fn factors(rt: &impl Print, ms: u64) -> io::Result<()> {
    let units = units_of(ms);
    match watchdog_factors(ms) {
        Ok(None) => println!(rt; "{ms} ms: no watchdog, so no factors"),
        Ok(Some((f1, f2))) => {
            println!(rt; "{ms} ms / 10 ms rounded down is {units}: the units")?;
            first_division(rt, units, f1)?;
            println!(rt; "{units} / {f1} rounded up is {f2}: the second factor")?;
            match watchdog_time(Some((f1, f2))) {
                None => println!(rt; "no time"),
                Some(time) => {
                    let made = time.0 / 1000;
                    println!(rt; "{f1} x {f2} x 10 ms is {made} ms: the time that they make")
                }
            }
        }
        Err(refusal) => {
            let number = refusal.number();
            println!(rt;
                "{ms} ms: refused with {number}: {units} units of 10 ms are more than 255 x 255 = {MOST_UNITS}"
            )
        }
    }
}

// What the settings say to the time, if they refuse it.
fn setting(rt: &impl Print, p: Parameters, ms: u64) -> io::Result<()> {
    match p.watchdog_timeout(ms) {
        Ok(_) => Ok(()),
        Err(not_set) => {
            let number = not_set.refusal.number();
            println!(rt; "the settings refuse {ms} ms with {number}: they take 10 to 650000 ms")
        }
    }
}

// The number that decimal digits make; nothing if there are none or other bytes, or if there are more than 19.
fn number_of(digits: &[u8]) -> Option<u64> {
    if digits.is_empty() {
        return None;
    }
    let mut n: u64 = 0;
    for &digit in digits {
        if !digit.is_ascii_digit() || n >= 1_000_000_000_000_000_000 {
            return None;
        }
        n = n * 10 + u64::from(digit - b'0');
    }
    Some(n)
}

// Shows the time that an argument names.
fn show(rt: &impl Print, p: Parameters, word: &[u8]) -> io::Result<()> {
    match number_of(word) {
        None => println!(rt; "a time is 1 to 19 decimal digits, in ms"),
        Some(ms) => {
            factors(rt, ms)?;
            setting(rt, p, ms)
        }
    }
}

// The settings asked are those of address 0 and baud code 0: what they say to a watchdog time is the same for all. An argument
// of more than 32 bytes names no time.
fn main(rt: HostRuntime) -> io::Result<()> {
    let Ok(p) = Parameters::new(0, 0) else {
        return println!(&rt; "there are no settings of address 0 and baud code 0");
    };
    for i in 1..usize::MAX {
        let mut word = [0u8; 32];
        match rt.arg(i, &mut word) {
            Ok(n) => show(&rt, p, &word[..n])?,
            Err(FillError::TooLong) => show(&rt, p, b"")?,
            Err(FillError::NotPresent) => break,
        }
    }
    Ok(())
}
