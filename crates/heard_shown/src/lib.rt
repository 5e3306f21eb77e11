//! What a table of heard says of an address (request P7), and the summary that a display shows. Every call is total on a table of any
//! length: an address whose entry has no room was never heard. It leans on heard for the entries.
#![tactic(auto)]

ghost use Rattle.std.specs.Prelude.{◌≡◌, length};
ghost use Rattle.refusals.specs.Refusals.{number_in};
ghost use Rattle.heard.specs.Heard.{no_entry, lookup_of, summary_number, summary_into};

use heard::{AddressEntry, ENTRY_LENGTH, check_address};
use refusals::Refusal;

// The entry of an address that was never heard.
#[tactic(auto, unfolding(heard::specs::Heard::no_entry))]
fn no_entry() -> AddressEntry
    ensures { result ≡ no_entry }
{
    AddressEntry {
        first: 0,
        last: 0,
        times: 0,
        last_type: None,
    }
}

/// What the table says of an address: its entry, or none where it was never heard. Refused with 26.
#[tactic(auto, using(refusals::proofs::Numbers::named_back), unfolding(heard::specs::Heard::lookup_of, heard::specs::Heard::lookup_on, refusals::specs::Refusals::answered))]
pub fn lookup(table: &[u8], address: u8) -> Result<Option<AddressEntry>, Refusal>
    ensures { result ≡ lookup_of table.now address }
{
    check_address(address)?;
    let at = ENTRY_LENGTH * usize::from(address);
    if table.len() < at + ENTRY_LENGTH {
        return Ok(None);
    }
    let entry = AddressEntry::read(&table[at..]);
    if entry.times == 0 {
        return Ok(None);
    }
    Ok(Some(entry))
}

/// The display's summary: writes the entry of an address into the first 17 bytes of `shown`, 17 zero bytes for one that was never
/// heard. Refused with 26, or 18 where `shown` is too short: then nothing is written.
#[inline(always)]
#[tactic(auto, unfolding(heard::specs::Heard::summary_number, heard::specs::Heard::summary_into, heard::specs::Heard::lookup_number, heard::specs::Heard::shown_of))]
pub fn summary(table: &[u8], address: u8, shown: &mut [u8]) -> Result<(), Refusal>
    ensures value { number_in result ≡ summary_number (lookup_of table.now address) (length shown.old) }
    ensures shown_after { shown.new ≡ summary_into (lookup_of table.now address) shown.old }
{
    let found = lookup(table, address)?;
    if shown.len() < ENTRY_LENGTH {
        return Err(Refusal::NoRoom);
    }
    let Some(entry) = found else {
        no_entry().write(shown);
        return Ok(());
    };
    entry.write(shown);
    Ok(())
}
