//! Who was heard, and when (request P7): a summary for the 126 addresses beside the station, in a table of bytes that the host lends.
//! The station knows nothing of it. Here is what an address's entry is, read from the bytes that it begins with and written into
//! them; heard_telegrams feeds the table, heard_shown asks it. Every call is total on a slice of any length. It leans on
//! codec_telegrams for the station types, on codec_fields for the bytes.
#![tactic(auto)]

ghost use Rattle.std.specs.Prelude.{◌≡◌};
ghost use Rattle.refusals.specs.Refusals.{number_in};
ghost use Rattle.codec_fields.specs.Fields.{load_of};
ghost use Rattle.heard.specs.Heard.{heard_refusal, type_byte, type_of, entry_of, entry_into};

use codec_fields::{load, store};
use codec_telegrams::ResponseState;
use refusals::Refusal;

/// The last address that is kept.
pub const LAST_ADDRESS: u8 = 125;

/// The bytes of an entry.
pub const ENTRY_LENGTH: usize = 17;

/// The bytes of a table: an entry for each of the 126 addresses.
pub const TABLE_LENGTH: usize = 2142;

/// What is kept of an address: the clock when it was first and when it was last heard, in microseconds, how often, and the station
/// type that it gave in its last response; none where no response was heard.
#[derive(Clone, Copy, Debug, PartialEq, Eq)]
pub struct AddressEntry {
    pub first: u64,
    pub last: u64,
    pub times: u32,
    pub last_type: Option<ResponseState>,
}

/// Refused with 26: an address above 125.
#[tactic(auto, unfolding(crate::specs::Heard::heard_refusal))]
pub fn check_address(address: u8) -> Result<(), Refusal>
    ensures { number_in result ≡ heard_refusal address }
{
    if address > LAST_ADDRESS {
        return Err(Refusal::AddressAskedFor);
    }
    Ok(())
}

// The byte of a station type: 0 where none was seen, else 1 + its number.
#[tactic(auto, using(crate::specs::Steps::type_small), unfolding(crate::specs::Heard::type_byte))]
fn type_byte(last_type: Option<ResponseState>) -> u8
    ensures { result ≡ type_byte last_type }
{
    match last_type {
        None => 0,
        Some(state) => 1 + u8::from(state),
    }
}

// The station type that a byte says.
#[tactic(auto, unfolding(crate::specs::Heard::type_of))]
fn type_of(byte: u8) -> Option<ResponseState>
    ensures { result ≡ type_of byte }
{
    if byte == 0 {
        return None;
    }
    Some(ResponseState::from_number(byte - 1))
}

impl AddressEntry {
    /// The entry that bytes begin with.
    #[tactic(auto, using(codec_slices::proofs::Parts::bytes_known, crate::specs::Steps::load_small), unfolding(crate::specs::Heard::entry_of))]
    pub fn read(bytes: &[u8]) -> AddressEntry
        ensures { result ≡ entry_of bytes.now }
    {
        AddressEntry {
            first: load(bytes, 4, 6),
            last: load(bytes, 10, 6),
            times: load(bytes, 0, 4) as u32,
            last_type: type_of(load(bytes, 16, 1) as u8),
        }
    }

    /// Writes the entry into the first 17 bytes; every other byte stays. A shorter slice stays as it is.
    #[tactic(auto, using(crate::specs::Steps::entry_stored), unfolding(crate::specs::Heard::entry_into))]
    pub fn write(self, bytes: &mut [u8])
        ensures { bytes.new ≡ entry_into bytes.old self }
    {
        if bytes.len() < ENTRY_LENGTH {
            return;
        }
        store(bytes, 0, 4, u64::from(self.times));
        store(bytes, 4, 6, self.first);
        store(bytes, 10, 6, self.last);
        store(bytes, 16, 1, u64::from(type_byte(self.last_type)));
    }
}
