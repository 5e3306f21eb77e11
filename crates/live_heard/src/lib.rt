//! The step of a station in bytes with a table of who was heard lent beside it (request P7): the table is fed with the telegrams that the
//! entry consumed. It leans on live for the step, on heard_telegrams for the table.
#![tactic(auto)]

ghost use Rattle.std.specs.Prelude.{◌≡◌, length};
ghost use Rattle.live.specs.Live.{step_number, step_into, step_answer};
ghost use Rattle.live_heard.specs.LiveHeard.{step_beside, step_table};

use heard::TABLE_LENGTH;
use heard_telegrams::hear_record;

/// Steps a station by an entry as `step_station` does, and feeds the table with the telegrams that the entry's record consumed. A table
/// that is too short is refused as an answer without room is, with 18, after 36 and 17; then nothing is written.
#[tactic(auto, using(crate::proofs::Laws::ends_short, crate::proofs::Laws::ends_within, crate::proofs::Laws::ends_refused, crate::proofs::Laws::ends_heard))]
pub fn step_heard(station: &mut [u8], entry: &[u8], answer: &mut [u8], table: &mut [u8]) -> u64
    ensures value { result ≡ step_number (step_beside station.old entry.now (length answer.old) (length table.old)) }
    ensures station_after { station.new ≡ step_into (step_beside station.old entry.now (length answer.old) (length table.old)) station.old }
    ensures answer_after { answer.new ≡ step_answer (step_beside station.old entry.now (length answer.old) (length table.old)) answer.old }
    ensures table_after { table.new ≡ step_table (step_beside station.old entry.now (length answer.old) (length table.old)) entry.now table.old }
{
    if table.len() < TABLE_LENGTH {
        let mut none = [0u8; 0];
        return live::step_station(station, entry, &mut none);
    }
    let done = live::step(station, entry, answer);
    let number = live::done_number(done);
    let consumed = match done {
        Ok(consumed) => consumed,
        Err(_) => return number,
    };
    hear_record(
        table,
        &entry[1..usize::from(consumed.size)],
        consumed.applications,
        consumed.telegrams,
    );
    number
}
