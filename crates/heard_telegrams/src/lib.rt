//! Telegrams heard (request P7): a table of heard is fed with those that a poll consumed. Every call is total on a table of any length:
//! of an address whose entry has no room nothing is kept. It leans on heard for the entries, on codec_records for the telegrams.
#![tactic(auto)]

ghost use Rattle.std.specs.Prelude.{◌≡◌};
ghost use Rattle.heard.specs.Heard.{entry_after, heard_from, hear_of, consumed_in, hear_all};

use codec_records::Record;
use codec_telegrams::{ResponseState, Telegram};
use heard::{AddressEntry, ENTRY_LENGTH, LAST_ADDRESS};

// An entry after a telegram of its address: the first clock stays once there is one, the count stops at its largest value, and a
// response has the station type, any other telegram leaves it.
#[tactic(auto, unfolding(heard::specs::Heard::entry_after, heard::specs::Heard::one_more, heard::specs::Heard::first_clock, heard::specs::Heard::newer_type))]
fn entry_after(entry: AddressEntry, clock: u64, seen: Option<ResponseState>) -> AddressEntry
    ensures { result ≡ entry_after entry clock seen }
{
    AddressEntry {
        first: if entry.times == 0 { clock } else { entry.first },
        last: clock,
        times: entry.times.saturating_add(1),
        last_type: seen.or(entry.last_type),
    }
}

// A telegram of a source, with the station type that it says. Sources 126 and 127 are skipped.
#[tactic(auto, using(heard::specs::Steps::heard_past, heard::specs::Steps::heard_there), unfolding(heard::specs::Heard::heard_from))]
fn hear_from(table: &mut [u8], clock: u64, source: u8, seen: Option<ResponseState>)
    ensures { table.new ≡ heard_from table.old clock source seen }
{
    if source > LAST_ADDRESS {
        return;
    }
    let at = ENTRY_LENGTH * usize::from(source);
    if table.len() < at {
        return;
    }
    let entry = entry_after(AddressEntry::read(&table[at..]), clock, seen);
    entry.write(&mut table[at..]);
}

/// One telegram that was consumed at a clock. A short confirmation has no source and is skipped.
#[tactic(auto, unfolding(heard::specs::Heard::hear_of))]
pub fn hear(table: &mut [u8], clock: u64, telegram: Telegram)
    ensures { table.new ≡ hear_of table.old clock telegram }
{
    match telegram {
        Telegram::Token { source, .. } | Telegram::Request { source, .. } => {
            hear_from(table, clock, source, None)
        }
        Telegram::ShortConfirmation => {}
        Telegram::Response { source, state, .. } => hear_from(table, clock, source, Some(state)),
    }
}

/// The telegrams of a poll record that its answer says are consumed, in their order.
#[tactic(auto, using(crate::proofs::Listed::listed_all))]
pub fn hear_record(table: &mut [u8], bytes: &[u8], applications: u8, consumed: u8)
    ensures { table.new ≡ hear_all table.old (consumed_in bytes.now applications consumed) }
{
    let record = Record {
        bytes,
        applications,
        telegrams: consumed,
    };
    let clock = record.head().clock;
    for (telegram, _) in record.telegrams() {
        hear(table, clock, telegram);
    }
}
