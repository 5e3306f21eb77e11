//! A poll record of document 01 written in place: its first 64 bits, the decision of an application or a telegram at a time. Every
//! call is total on every slice and none writes past its end. It leans on codec_records for the places, on codec_fields for the
//! bits and on codec_telegrams and codec_decisions for the words.
#![tactic(auto)]

ghost use Rattle.std.specs.Prelude.{◌≡◌};
ghost use Rattle.codec_records_written.specs.Stored.{head_word, head_stored, decision_stored, telegram_stored};

use codec_decisions::Decision;
use codec_fields::{put, store};
use codec_records::{Head, decision_place, telegram_place};
use codec_telegrams::Telegram;

// The word that says a head. Of a number that does not fit its field the lowest bits are taken.
#[tactic(auto, unfolding(crate::specs::Stored::head_word))]
fn head_word(head: Head) -> u64
    ensures { result ≡ head_word head }
{
    let word = put(0, 48, head.clock);
    let word = put(word, 1, head.transmitting);
    put(put(word, 4, head.telegrams), 11, head.pending)
}

/// Writes a head into a record's first 8 bytes; every other byte stays. A shorter slice stays as it is. Of a number that does not
/// fit its field the lowest bits are taken.
#[tactic(auto, unfolding(crate::specs::Stored::head_stored))]
pub fn store_head(bytes: &mut [u8], head: Head)
    ensures { bytes.new ≡ head_stored bytes.old head }
{
    store(bytes, 0, 8, head_word(head));
}

/// Writes the decision of an application, normal or high priority, into its 3 bytes; every other byte stays. For an application past
/// the last, and where the slice ends before, all of it stays. Of an address that does not fit its field the lowest bits are taken.
#[tactic(auto, unfolding(crate::specs::Stored::decision_stored))]
pub fn store_decision(
    bytes: &mut [u8],
    applications: u8,
    application: u8,
    high: bool,
    decided: Decision,
)
    ensures { bytes.new ≡ decision_stored bytes.old applications application high decided }
{
    if application >= applications {
        return;
    }
    let at = decision_place(application, high);
    store(bytes, at, 3, decided.into());
}

/// Writes a telegram into its 4 bytes; every other byte stays. Where the slice ends before, all of it stays. Of a number that does not
/// fit its field the lowest bits are taken.
#[tactic(auto, unfolding(crate::specs::Stored::telegram_stored))]
pub fn store_telegram(bytes: &mut [u8], applications: u8, index: u8, heard: Telegram)
    ensures { bytes.new ≡ telegram_stored bytes.old applications index heard }
{
    let at = telegram_place(applications, index);
    store(bytes, at, 4, heard.into());
}
