// The replay program of document 01: reads at most 4,096 bytes of standard input as a trace, replays it, and prints each answer
// as 16 hexadecimal digits, then the entries answered and the ending number. It leans on run_replay_print.
#![tactic(auto)]

use std::io;
use std::io::{Cursor, Read};

fn main(rt: HostRuntime) -> io::Result<()> {
    let mut bytes = [0u8; 4096];
    let n = io::copy(
        &mut rt.reader().take(4096),
        &mut Cursor::new(&mut bytes[..]),
    )?;
    if run_replay_print::replay(&rt, &bytes[..(n as usize).min(4096)]).is_err() {
        return eprintln!(rt; "replay: the answers could not all be written");
    }
    Ok(())
}
