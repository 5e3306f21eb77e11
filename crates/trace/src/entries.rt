ghost use Rattle.std.specs.Prelude.{◌≡◌, ◌≤◌};
ghost use Rattle.std.specs.Iterator.{item_count};
ghost use Rattle.trace.specs.Entries.{record_length};
ghost use Rattle.trace.specs.Taken.{TakesEntry, record_of};

use crate::record_length;
use refusals::Refusal;
use std::marker::Model;

/// What an entry of a trace tells a station.
#[derive(Clone, Copy, Debug, PartialEq, Eq)]
pub enum Entry<'a> {
    Online,
    Offline,
    Passive,
    /// A poll, with its record.
    Poll(&'a [u8]),
}

impl<'a> Entry<'a> {
    /// The record's bytes; a command has none.
    pub fn record(self) -> &'a [u8]
        ensures { result.now ≡ record_of self.entry }
    {
        match self {
            Entry::Poll(record) => record,
            _ => &[],
        }
    }
}

/// The entries that are left of a trace, one after the other. One that the trace cuts short is refused with 17, and none follows it.
#[derive(Drop)]
pub struct Entries<'a> {
    rest: &'a [u8],
}

// Clauses see the bytes that are left.
impl<'a> Model for Entries<'a> {
    ghost use Rattle.std.specs.Prelude.{List, ℕ};

    ghost Value = { List ℕ };

    ghost view = { λ e. e.rest.now };
}

impl<'a> Entries<'a> {
    /// The entries that these bytes are.
    pub fn new(bytes: &'a [u8]) -> Self
        ensures { result ≡ bytes.now }
    {
        Entries { rest: bytes }
    }
}

impl<'a> Iterator for Entries<'a> {
    type Item = Result<Entry<'a>, Refusal>;

    ghost next_gives = { TakesEntry };

    ghost remaining = { item_count (λ rest. rest) };

    #[tactic(auto, unfolding(crate::specs::Entries::record_length))]
    fn next(&mut self) -> Option<Result<Entry<'a>, Refusal>> {
        let (kind, rest) = self.rest.split_first()?;
        let entry = match *kind {
            0 => Entry::Online,
            1 => Entry::Offline,
            2 => Entry::Passive,
            kind => {
                let length = record_length(kind);
                if rest.len() < length {
                    self.rest = &rest[rest.len()..];
                    return Some(Err(Refusal::TraceLength));
                }
                self.rest = &rest[length..];
                return Some(Ok(Entry::Poll(&rest[..length])));
            }
        };
        self.rest = rest;
        Some(Ok(entry))
    }
}
