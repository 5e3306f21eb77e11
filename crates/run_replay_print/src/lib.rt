// What the replay programs print of a trace: each answer as 16 hexadecimal digits, then how many entries were answered and the
// number that the replay ended with. It leans on trace and codec_fields.
#![tactic(auto)]

use std::io;

// Prints a line with an answer.
fn show_answer(rt: &impl Print, word: u64) -> io::Result<()> {
    println!(rt; "{word:016x}")
}

// Prints the first `entries` answers, as far as they lie in `answers`.
fn show(rt: &impl Print, answers: &[u8], entries: u64) -> io::Result<()> {
    let mut at: usize = 0;
    for _ in 0..entries {
        if answers.len() - at < 8 {
            return Ok(());
        }
        show_answer(rt, codec_fields::load(answers, at, 8))?;
        at += 8;
    }
    Ok(())
}

// Prints the last line.
fn show_number(rt: &impl Print, number: u64) -> io::Result<()> {
    let entries = number / 256;
    let ending = number % 256;
    println!(rt; "{entries} {ending}")
}

// Replays a trace and prints what it gives. The buffer has room for the answers of any trace of 4,096 bytes.
pub fn replay(rt: &impl Print, trace: &[u8]) -> io::Result<()> {
    let mut answers = [0u8; 32768];
    let number = trace::replay_trace(trace, &mut answers);
    show(rt, &answers, number / 256)?;
    show_number(rt, number)
}
