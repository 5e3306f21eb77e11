//! A poll record of document 01, checked once and then read in place: the refusal of a record for a number of applications, what
//! its first 64 bits say, the decision of an application and a telegram, and where these stand. Every call is total on every
//! slice and none reads past its end. It leans on codec_fields for the bits and on codec_telegrams and codec_decisions for the
//! words.
#![tactic(auto)]

ghost use Rattle.std.specs.Prelude.{◌≡◌, ◌+◌, ◌*◌};
ghost use Rattle.std.specs.Prelude.{IfOk};
ghost use Rattle.codec_fields.specs.Fields.{bit_number};
ghost use Rattle.codec_records.specs.Records.{head_of, record_refusal, decision_at, telegram_at};
ghost use Rattle.codec_records.specs.Shortcut.{decisions_refusal, entries_refusal};
ghost use Rattle.codec_records.specs.Telegrams.{telegrams_of};
ghost use Rattle.refusals.specs.Refusals.{number_in};

// Public, since the claims of theorem_determined name each contract by its module.
pub mod telegrams;

use codec_decisions::Decision;
use codec_fields::{field, load};
use codec_telegrams::Telegram;
use refusals::Refusal;
pub use telegrams::Telegrams;

/// A record's first 64 bits: the clock, below 2 to the 48, the pending bytes, the number of telegrams, and whether a
/// transmission goes on.
#[derive(Clone, Copy, Debug, PartialEq, Eq)]
pub struct Head {
    pub clock: u64,
    pub pending: u16,
    pub telegrams: u8,
    pub transmitting: bool,
}

/// A poll record: its bytes, and how many applications and telegrams it is read for.
#[derive(Clone, Copy, Debug, PartialEq, Eq)]
pub struct Record<'a> {
    pub bytes: &'a [u8],
    pub applications: u8,
    pub telegrams: u8,
}

impl Head {
    /// What a record's first 64 bits say; zeros where there are fewer.
    #[tactic(auto, unfolding(crate::specs::Records::head_of))]
    pub fn read(bytes: &[u8]) -> Head
        ensures { result ≡ head_of bytes.now }
    {
        let word = load(bytes, 0, 8);
        Head {
            clock: field(word, 16, 48),
            pending: field(word, 0, 11),
            telegrams: field(word, 11, 4),
            transmitting: field(word, 15, 1),
        }
    }
}

impl<'a> Record<'a> {
    /// The record of these bytes for a number of applications, with the telegrams that its head counts. Refuses bytes that are
    /// none: of the wrong length (12), with more than 8 telegrams (13), or with an entry that is refused (14, 15).
    #[tactic(auto, using(crate::specs::Shortcut::entries_first), unfolding(crate::specs::Records::record_refusal, crate::specs::Records::head_of))]
    pub fn check(bytes: &'a [u8], applications: u8) -> Result<Record<'a>, Refusal>
        ensures refused { number_in result ≡ record_refusal bytes.now applications }
        ensures ok { IfOk result (λ r. r ≡ record { bytes = bytes.entry; applications = applications; telegrams = (head_of bytes.now).telegrams }) }
    {
        if bytes.len() < 8 {
            return Err(Refusal::RecordLength);
        }
        let telegrams = Head::read(bytes).telegrams;
        if telegrams > 8 {
            return Err(Refusal::TelegramCount);
        }
        if bytes.len() != telegram_place(applications, telegrams) {
            return Err(Refusal::RecordLength);
        }
        check_entries(bytes, applications, telegrams)?;
        Ok(Record {
            bytes,
            applications,
            telegrams,
        })
    }

    /// What the record's first 64 bits say.
    pub fn head(self) -> Head
        ensures { result ≡ head_of self.entry.bytes.now }
    {
        Head::read(self.bytes)
    }

    /// The decision of an application, normal or high priority; an application past the last declines.
    #[tactic(auto, unfolding(crate::specs::Records::decision_at))]
    pub fn decision(self, application: u8, high: bool) -> Decision
        ensures { result ≡ decision_at self.entry.bytes.now self.entry.applications application high }
    {
        if application < self.applications {
            load(self.bytes, decision_place(application, high), 3).into()
        } else {
            Decision::Decline
        }
    }

    /// A telegram of the record; past its end a short confirmation.
    #[tactic(auto, unfolding(crate::specs::Records::telegram_at))]
    pub fn telegram(self, index: u8) -> Telegram
        ensures { result ≡ telegram_at self.entry.bytes.now self.entry.applications index }
    {
        let at = telegram_place(self.applications, index);
        if self.bytes.len() < at + 4 {
            return Telegram::ShortConfirmation;
        }
        load(self.bytes, at, 4).into()
    }

    /// The record's telegrams in their order, each with whether it is the last.
    pub fn telegrams(self) -> Telegrams<'a>
        ensures { result ≡ telegrams_of self.entry.bytes.now self.entry.applications self.entry.telegrams }
    {
        Telegrams::new(self)
    }
}

/// Where a decision stands.
pub fn decision_place(application: u8, high: bool) -> usize
    ensures { result ≡ 8 + 3 * (2 * application + bit_number high) }
{
    8 + 3 * (2 * (application as usize) + usize::from(high))
}

/// Where a telegram stands.
pub fn telegram_place(applications: u8, telegram: u8) -> usize
    ensures { result ≡ 8 + 6 * applications + 4 * telegram }
{
    8 + 6 * (applications as usize) + 4 * (telegram as usize)
}

// Refuses an application's two decisions, the first of them first. Most decline, and six zero bytes are not read bit by bit. Bytes
// that are not there count as zero: `Record::check` tests the length before.
#[tactic(auto, unfolding(crate::specs::Shortcut::decisions_refusal))]
fn check_decisions(bytes: &[u8], application: u8) -> Result<(), Refusal>
    ensures { number_in result ≡ decisions_refusal bytes.now application }
{
    let at = decision_place(application, false);
    if load(bytes, at, 6) == 0 {
        return Ok(());
    }
    codec_decisions::check_word(load(bytes, at, 3))?;
    codec_decisions::check_word(load(bytes, decision_place(application, true), 3))
}

// Refuses a record's entries from the left: the decisions, then the telegrams.
#[tactic(auto, using(refusals::proofs::Numbers::refused, crate::specs::Laws::none_more, crate::specs::Laws::first_is, crate::specs::Shortcut::decisions_refusal, crate::specs::Shortcut::refused_decisions, crate::specs::Shortcut::refused_telegrams), unfolding(crate::specs::Records::words_refusal, crate::specs::Shortcut::telegram_refusal_at))]
fn check_entries(bytes: &[u8], applications: u8, telegrams: u8) -> Result<(), Refusal>
    ensures { number_in result ≡ entries_refusal bytes.now applications telegrams }
{
    for application in 0..applications {
        check_decisions(bytes, application)?;
    }
    for index in 0..telegrams {
        codec_telegrams::check_word(load(bytes, telegram_place(applications, index), 4))?;
    }
    Ok(())
}

// The same by bytes and numbers, until each caller has moved to `Record`.

/// What a record's first 64 bits say.
pub fn read_head(bytes: &[u8]) -> Head
    ensures { result ≡ head_of bytes.now }
{
    Head::read(bytes)
}

/// The decision of an application, normal or high priority; an application past the last declines.
pub fn decision(bytes: &[u8], applications: u8, application: u8, high: bool) -> Decision
    ensures { result ≡ decision_at bytes.now applications application high }
{
    let all = Record {
        bytes,
        applications,
        telegrams: 0,
    };
    all.decision(application, high)
}

/// A telegram of a record; past its end a short confirmation.
pub fn telegram(bytes: &[u8], applications: u8, index: u8) -> Telegram
    ensures { result ≡ telegram_at bytes.now applications index }
{
    let all = Record {
        bytes,
        applications,
        telegrams: 0,
    };
    all.telegram(index)
}

/// The refusal of a record for a number of applications, 0 for a good one.
pub fn record_refusal(bytes: &[u8], applications: u8) -> u8
    ensures { result ≡ record_refusal bytes.now applications }
{
    match Record::check(bytes, applications) {
        Ok(_) => 0,
        Err(refusal) => refusal.number(),
    }
}
