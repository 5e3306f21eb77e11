//! Prints, from the proved calls of bit_times, settings_watchdog, settings, settings_in_place and settings_build: document 01's
//! watchdog lines, 33 bits at each baud code, and each boundary of new and of each setter, the last value accepted and the
//! first refused, with the settings after it; then the setters on the caller's record at the same boundaries, and some of
//! them one after another on one record; last, settings finished. A line ends with the ten numbers of the settings: address,
//! baud code, slot bits, rotation bits, gap wait, highest station address, retry limit, min Tsdr and the two watchdog factors.
//! It leans on these five.
#![tactic(auto)]

mod answer;

use answer::{Answer, Row};
use bit_times::{Baud, Bits};
use settings::{NotSet, Parameters};
use settings_build::{PlainSettings, finish};
use settings_watchdog::watchdog_factors;
use std::io;

// The slot bits at each baud code: one below the least, then the least; last, both ends of what the type holds.
const SLOTS: [(u8, u16, u16); 12] = [
    (0, 99, 100),
    (1, 99, 100),
    (2, 99, 100),
    (3, 99, 100),
    (4, 99, 100),
    (5, 99, 100),
    (6, 199, 200),
    (7, 299, 300),
    (8, 399, 400),
    (9, 599, 600),
    (10, 999, 1000),
    (10, 0, 65535),
];

// Addresses, and highest station addresses at the limits of each.
const HIGHEST: [(u8, u8); 9] = [
    (5, 5),
    (5, 6),
    (5, 126),
    (5, 127),
    (0, 0),
    (0, 1),
    (125, 125),
    (125, 126),
    (125, 255),
];

// Rotations at both ends of their range.
const ROTATIONS: [u32; 4] = [255, 256, 16_777_960, 16_777_961];

// A row: the call, its value, and what it came to.
fn row(
    rt: &impl Print,
    call: &str,
    value: impl Into<u64>,
    answer: impl Into<Answer>,
) -> io::Result<()> {
    let value: u64 = value.into();
    let answer: Answer = answer.into();
    println!(rt; "{call} {value}: {answer}")
}

// The watchdog factors of times: document 01's, and what lies beside them.
fn factors(rt: &impl Print) -> io::Result<()> {
    for ms in [
        0,
        9,
        10,
        2550,
        2560,
        10_000,
        650_000,
        650_250,
        650_260,
        42_949_670_420,
        18_446_744_073_709_551_615,
    ] {
        match watchdog_factors(ms) {
            Ok(None) => println!(rt; "watchdog_factors {ms} ms: none")?,
            Ok(Some((f1, f2))) => println!(rt; "watchdog_factors {ms} ms: {f1} {f2}")?,
            Err(refusal) => println!(rt; "watchdog_factors {ms} ms: refused {}", refusal.number())?,
        }
    }
    Ok(())
}

// The time of 33 bits at each baud code.
fn pauses(rt: &impl Print) -> io::Result<()> {
    for code in 0..12u8 {
        match Baud::try_from(code) {
            Ok(baud) => println!(rt;
                "33 bits at code {code}: {} us",
                baud.bits_to_time(Bits(33)).0
            )?,
            Err(_) => println!(rt; "33 bits at code {code}: no rate")?,
        }
    }
    Ok(())
}

fn new_rows(rt: &impl Print) -> io::Result<()> {
    for (address, code) in [(0, 0), (125, 10), (126, 0), (0, 11), (126, 11), (255, 255)] {
        let answer = Answer::from(Parameters::new(address, code));
        println!(rt; "new {address} {code}: {answer}")?;
    }
    Ok(())
}

// The setters by value: first refused, last accepted, at each end of what they take.
fn setter_rows(rt: &impl Print, p: Parameters) -> io::Result<()> {
    for (code, refused, accepted) in SLOTS {
        let Ok(p) = Parameters::new(5, code) else {
            continue;
        };
        row(rt, "slot_bits", refused, p.slot_bits(refused))?;
        row(rt, "slot_bits", accepted, p.slot_bits(accepted))?;
    }
    for (address, hsa) in HIGHEST {
        let Ok(p) = Parameters::new(address, 6) else {
            continue;
        };
        row(
            rt,
            "highest_station_address",
            hsa,
            p.highest_station_address(hsa),
        )?;
    }
    for bits in ROTATIONS {
        row(rt, "token_rotation_bits", bits, p.token_rotation_bits(bits))?;
    }
    for rotations in [0u8, 1, 100, 101] {
        row(
            rt,
            "gap_wait_rotations",
            rotations,
            p.gap_wait_rotations(rotations),
        )?;
    }
    for limit in [0u8, 1, 15, 16] {
        row(rt, "max_retry_limit", limit, p.max_retry_limit(limit))?;
    }
    for bits in [10u8, 11, 255] {
        row(rt, "min_tsdr", bits, p.min_tsdr(bits))?;
    }
    for ms in [0u64, 9, 10, 650_000, 650_001] {
        row(rt, "watchdog_timeout", ms, p.watchdog_timeout(ms))?;
    }
    Ok(())
}

fn slot_checks(rt: &impl Print, p: Parameters) -> io::Result<()> {
    for max_tsdr in [185, 186, 65520, 65521, 65535] {
        let fits = if p.slot_check(max_tsdr) { "yes" } else { "no" };
        println!(rt; "slot_check {max_tsdr}: {fits}; {}", Row(p))?;
    }
    Ok(())
}

// The times that follow from the settings.
fn times(rt: &impl Print, p: Parameters) -> io::Result<()> {
    print!(rt;
        "slot_time {} min_tsdr_time {} token_lost_timeout {} token_rotation_time {} watchdog_time ",
        p.slot_time().0,
        p.min_tsdr_time().0,
        p.token_lost_timeout().0,
        p.token_rotation_time().0
    )?;
    match p.watchdog_time() {
        None => println!(rt; "none; {}", Row(p)),
        Some(time) => println!(rt; "{}; {}", time.0, Row(p)),
    }
}

// A whole record: the first refusal in document 01's order, with a fault in every field that is faulty before.
fn whole_rows(rt: &impl Print, mut plain: PlainSettings) -> io::Result<()> {
    built(rt, plain)?;
    plain.factor_2 = 0;
    built(rt, plain)?;
    plain.min_tsdr_bits = 10;
    built(rt, plain)?;
    plain.max_retry_limit = 16;
    built(rt, plain)?;
    plain.gap_wait_rotations = 101;
    built(rt, plain)?;
    plain.token_rotation_bits = 299;
    built(rt, plain)?;
    plain.token_rotation_bits = 255;
    built(rt, plain)?;
    plain.highest_station_address = 5;
    built(rt, plain)?;
    plain.slot_bits = 199;
    built(rt, plain)?;
    plain.baud_code = 11;
    built(rt, plain)?;
    plain.address = 126;
    built(rt, plain)
}

fn built(rt: &impl Print, plain: PlainSettings) -> io::Result<()> {
    let answer = Answer::from(Parameters::try_from(plain));
    println!(rt; "build: {answer}")
}

// A setter on the caller's record, with its value.
#[derive(Clone, Copy)]
enum Setter {
    SlotBits(u16),
    HighestStationAddress(u8),
    TokenRotationBits(u32),
}

// The setter on a record that is lent to it, and the settings that it left.
fn set(rt: &impl Print, p: &mut Parameters, setter: Setter) -> io::Result<()> {
    match setter {
        Setter::SlotBits(bits) => {
            let refusal = settings_in_place::set_slot_bits(p, bits).err();
            row(rt, "set_slot_bits", bits, Answer::left(refusal, *p))
        }
        Setter::HighestStationAddress(hsa) => {
            let refusal = settings_in_place::set_highest_station_address(p, hsa).err();
            row(
                rt,
                "set_highest_station_address",
                hsa,
                Answer::left(refusal, *p),
            )
        }
        Setter::TokenRotationBits(bits) => {
            let refusal = settings_in_place::set_token_rotation_bits(p, bits).err();
            row(
                rt,
                "set_token_rotation_bits",
                bits,
                Answer::left(refusal, *p),
            )
        }
    }
}

// The setters on the caller's record, at the boundaries of the setters by value.
fn in_place_rows(rt: &impl Print, p: Parameters) -> io::Result<()> {
    for (code, refused, accepted) in SLOTS {
        let Ok(p) = Parameters::new(5, code) else {
            continue;
        };
        set(rt, &mut { p }, Setter::SlotBits(refused))?;
        set(rt, &mut { p }, Setter::SlotBits(accepted))?;
    }
    for (address, hsa) in HIGHEST {
        let Ok(p) = Parameters::new(address, 6) else {
            continue;
        };
        set(rt, &mut { p }, Setter::HighestStationAddress(hsa))?;
    }
    for bits in ROTATIONS {
        set(rt, &mut { p }, Setter::TokenRotationBits(bits))?;
    }
    Ok(())
}

// One record that is set in place again and again: a refused call leaves what was set before.
fn one_record_rows(rt: &impl Print, mut p: Parameters) -> io::Result<()> {
    for setter in [
        Setter::SlotBits(300),
        Setter::HighestStationAddress(20),
        Setter::TokenRotationBits(255),
        Setter::TokenRotationBits(50_000),
        Setter::SlotBits(199),
        Setter::HighestStationAddress(5),
        Setter::HighestStationAddress(126),
        Setter::SlotBits(65535),
    ] {
        set(rt, &mut p, setter)?;
    }
    Ok(())
}

// The settings that a setter's answer has, set or as they were.
fn settings_in(answer: Result<Parameters, NotSet>) -> Parameters {
    answer.unwrap_or_else(|not_set| not_set.settings)
}

// Settings finished: new ones at each baud code; then slot bits and rotation, and slot bits and HSA, which sets the rotation too, set in
// either order: rotation one below slot bits + 100 and at it, the site's, and at the end of the slot bits' 16 bits.
fn finish_rows(rt: &impl Print) -> io::Result<()> {
    for code in 0..11u8 {
        let Ok(p) = Parameters::new(5, code) else {
            continue;
        };
        println!(rt; "finish new 5 {code}: {}", Answer::from(finish(p)))?;
    }
    for (code, slot, rotation) in [
        (6u8, 200u16, 299u32),
        (6, 200, 300),
        (6, 200, 256),
        (0, 156, 256),
        (0, 157, 256),
        (0, 157, 257),
        (6, 65535, 65634),
        (6, 65535, 65635),
    ] {
        let Ok(p) = Parameters::new(5, code) else {
            continue;
        };
        let slot_first = finish(settings_in(settings_in(p.slot_bits(slot)).token_rotation_bits(
            rotation,
        )));
        println!(rt;
            "finish slot_bits {slot} token_rotation_bits {rotation}: {}",
            Answer::from(slot_first)
        )?;
        let slot_last = finish(settings_in(settings_in(p.token_rotation_bits(rotation)).slot_bits(
            slot,
        )));
        println!(rt;
            "finish token_rotation_bits {rotation} slot_bits {slot}: {}",
            Answer::from(slot_last)
        )?;
    }
    for (slot, hsa) in [(65535u16, 13u8), (65535, 14)] {
        let Ok(p) = Parameters::new(5, 6) else {
            continue;
        };
        let slot_first = finish(settings_in(settings_in(p.slot_bits(slot)).highest_station_address(
            hsa,
        )));
        println!(rt;
            "finish slot_bits {slot} highest_station_address {hsa}: {}",
            Answer::from(slot_first)
        )?;
        let slot_last = finish(settings_in(settings_in(p.highest_station_address(hsa)).slot_bits(
            slot,
        )));
        println!(rt;
            "finish highest_station_address {hsa} slot_bits {slot}: {}",
            Answer::from(slot_last)
        )?;
    }
    Ok(())
}

// The settings of document 01's example: address 5, code 6; then the same with a watchdog of ten seconds.
fn main(rt: HostRuntime) -> io::Result<()> {
    factors(&rt)?;
    pauses(&rt)?;
    new_rows(&rt)?;
    let Ok(p) = Parameters::new(5, 6) else {
        return Ok(());
    };
    setter_rows(&rt, p)?;
    slot_checks(&rt, p)?;
    times(&rt, p)?;
    let Ok(watched) = p.watchdog_timeout(10_000) else {
        return Ok(());
    };
    times(&rt, watched)?;
    whole_rows(&rt, PlainSettings::from(watched))?;
    in_place_rows(&rt, p)?;
    one_record_rows(&rt, watched)?;
    finish_rows(&rt)
}
