//! Polls a station with the records of standard input, one after the other, and prints the last answer as 16 hexadecimal
//! digits: what a poll costs is measured on it. The input has the station's address and its number of applications in a
//! byte each, and then for each poll a byte with the record's length and the record. It leans on station_poll and
//! what lies below it.
#![tactic(auto)]

use codec_answers::Answer;
use settings::Parameters;
use station::Station;
use std::io;
use std::io::{Cursor, Read};

// Puts the station online and polls it with each record. The last answer. A record is cut where the input ends.
fn poll_all(station: &mut Station, records: &[u8]) -> Answer {
    let mut answer = station_command::set_online(station);
    let mut rest = records;
    while let [length, more @ ..] = rest {
        let (record, after) = more.split_at(usize::from(*length).min(more.len()));
        answer = station_poll::poll(station, record);
        rest = after;
    }
    answer
}

// A station at 500 kbit/s, which is code 6, with the settings that belong to it.
fn main(rt: HostRuntime) -> io::Result<()> {
    let mut space = [0u8; 65536];
    let n = io::copy(
        &mut rt.reader().take(65536),
        &mut Cursor::new(&mut space[..]),
    )?;
    let Ok(p) = Parameters::new(space[0], 6) else {
        return println!(rt; "run_polls: the first byte is no address");
    };
    let Ok(mut station) = Station::new(p, space[1]) else {
        return println!(rt; "run_polls: the second byte is no number of applications");
    };
    let answer = poll_all(&mut station, &space[2..(n as usize).clamp(2, 65536)]);
    let last = answer.pack();
    println!(rt; "{last:016x}")
}
