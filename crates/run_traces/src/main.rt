// Replays the trace files that its arguments name, one after the other: a line with the name, then what the replay program
// prints of the file's first 4,096 bytes. Its stored output holds what the traces of the folder traces/ must give. It leans on
// run_replay_print.
#![tactic(auto)]

use std::env::{Env, FillError};
use std::fs::File;
use std::io;
use std::io::{Cursor, Read, Write};

// Says on standard error what failed, as the caller names it, and the system's words for it.
fn fail(rt: &HostRuntime, what: &str, error: io::Error) -> io::Result<()> {
    let text = format!(in rt.alloc(); "{error}")?;
    match text.as_str().split_once(" (os error ") {
        Some((words, _)) => eprintln!(rt; "{what}: {words}"),
        None => eprintln!(rt; "{what}: {text}"),
    }
}

// Prints a file's name, and what the replay gives.
fn show(rt: &HostRuntime, name: &str, bytes: &[u8]) -> io::Result<()> {
    println!(rt; "{name}")?;
    run_replay_print::replay(rt, bytes)
}

// Replays one file. One that cannot be opened is named on standard error.
fn replay_file(rt: &HostRuntime, name: &str) -> io::Result<()> {
    let file = match File::open(rt, name) {
        Ok(file) => file,
        Err(e) => return fail(rt, name, e),
    };
    let mut bytes = [0u8; 4096];
    let n = io::copy(&mut file.take(4096), &mut Cursor::new(&mut bytes[..]))?;
    match show(rt, name, &bytes[..(n as usize).min(4096)]) {
        Ok(()) => Ok(()),
        Err(e) => fail(rt, "the answers could not all be written", e),
    }
}

// Replays the file that an argument names. The names of files are text: one that is not UTF-8 is only named on standard error.
fn replay_arg(rt: &HostRuntime, name: &[u8]) -> io::Result<()> {
    match str::from_utf8(name) {
        Ok(text) => replay_file(rt, text),
        Err(_) => {
            rt.stderr().write_all(name)?;
            eprintln!(rt; ": not UTF-8")
        }
    }
}

fn main(rt: HostRuntime) -> io::Result<()> {
    for i in 1..usize::MAX {
        let mut name = [0u8; 256];
        match rt.arg(i, &mut name) {
            Ok(n) => replay_arg(&rt, &name[..n])?,
            Err(FillError::TooLong) => eprintln!(rt; "a trace's name: File name too long")?,
            Err(FillError::NotPresent) => break,
        }
    }
    Ok(())
}
