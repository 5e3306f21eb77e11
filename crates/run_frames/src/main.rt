// Reads the frames of standard input, one after the other, and prints the last result as 16 hexadecimal digits: what reading a
// frame costs is counted on it. The input has for each frame a byte with its length and its bytes. It leans on codec_frames.
#![tactic(auto)]

use std::io;
use std::io::{Cursor, Read};

// The result of the last frame, 0 without one. A frame is cut where the input ends.
fn read_all(mut input: &[u8]) -> u64 {
    let mut last = 0;
    while let Some((&length, rest)) = input.split_first() {
        let (frame, rest) = rest.split_at(usize::from(length).min(rest.len()));
        last = codec_frames::read_number(codec_frames::read_frame(frame));
        input = rest;
    }
    last
}

fn main(rt: HostRuntime) -> io::Result<()> {
    let mut space = [0u8; 65536];
    let n = io::copy(
        &mut rt.reader().take(65536),
        &mut Cursor::new(&mut space[..]),
    )?;
    let last = read_all(&space[..(n as usize).min(65536)]);
    println!(rt; "{last:016x}")
}
