//! Counts at their largest (request P6): a station whose three counts start at 2 to the 32 less 2 claims the token, goes offline, meets its
//! own address twice in one poll, which leads offline too, and claims again. After each of the three its counts are printed, each as 8
//! hexadecimal digits: they stop at ffffffff, and offline keeps them. It leans on station_poll and what lies below it.
#![tactic(auto)]

use settings::Parameters;
use station::{Counts, Station};
use std::io;

// Prints claims, removals and meetings.
fn print_counts(rt: &impl Print, counts: Counts) -> io::Result<()> {
    let Counts {
        claims,
        removals,
        meetings,
    } = counts;
    println!(rt; "{claims:08x} {removals:08x} {meetings:08x}")
}

// Online, and a poll at time 0: the station listens.
fn listen(station: &mut Station) {
    station_command::set_online(station);
    station_poll::poll(station, &[0; 14]);
}

// Nothing is heard until 7,000 µs: the token is lost and claimed. Then offline, by command.
fn claim(rt: &impl Print, station: &mut Station) -> io::Result<()> {
    listen(station);
    let mut record = [0u8; 14];
    record[4] = 27;
    record[5] = 88;
    station_poll::poll(station, &record);
    print_counts(rt, station.counts)?;
    station_command::set_offline(station);
    Ok(())
}

// At 100 µs two tokens from 5 to 3 are heard, and 5 is our own address: offline, by collision.
fn meet(rt: &impl Print, station: &mut Station) -> io::Result<()> {
    listen(station);
    let mut record = [0u8; 22];
    record[5] = 100;
    record[6] = 16;
    record[14] = 1;
    record[15] = 133;
    record[18] = 1;
    record[19] = 133;
    station_poll::poll(station, &record);
    print_counts(rt, station.counts)
}

// A station of address 5 at 500 kbit/s, which is code 6, with one application.
fn main(rt: HostRuntime) -> io::Result<()> {
    let Ok(p) = Parameters::new(5, 6) else {
        return println!(rt; "run_counts: no settings");
    };
    let Ok(mut station) = Station::new(p, 1) else {
        return println!(rt; "run_counts: no station");
    };
    station.counts = Counts {
        claims: 4294967294,
        removals: 4294967294,
        meetings: 4294967294,
    };
    claim(&rt, &mut station)?;
    meet(&rt, &mut station)?;
    claim(&rt, &mut station)
}
