ghost use Rattle.std.specs.Prelude.{◌≡◌};
ghost use Rattle.std.specs.Iterator.{YieldsFirst, item_count};
ghost use Rattle.codec_records.specs.Telegrams.{telegrams_of};

use crate::Record;
use codec_telegrams::Telegram;
use std::marker::Model;

/// The telegrams of a record that are left, each with whether it is the record's last.
#[derive(Drop)]
pub struct Telegrams<'a> {
    left_of: Record<'a>,
    next: u8,
}

impl<'a> Model for Telegrams<'a> {
    ghost use Rattle.std.specs.Prelude.{List, Bool, ◌-◌};
    ghost use Rattle.codec_telegrams.specs.declared.Telegram.{Telegram};
    ghost use Rattle.codec_records.specs.Telegrams.{telegrams_from};

    ghost Value = { List (Telegram × Bool) };

    ghost view = { λ t. telegrams_from t.left_of.bytes.now t.left_of.applications t.left_of.telegrams t.next (t.left_of.telegrams - t.next) };
}

impl<'a> Telegrams<'a> {
    /// All telegrams of a record.
    pub fn new(all: Record<'a>) -> Self
        ensures { result ≡ telegrams_of all.entry.bytes.now all.entry.applications all.entry.telegrams }
    {
        Telegrams {
            left_of: all,
            next: 0,
        }
    }
}

impl<'a> Iterator for Telegrams<'a> {
    type Item = (Telegram, bool);

    ghost next_gives = { YieldsFirst (λ left. left) };

    ghost remaining = { item_count (λ left. left) };

    #[tactic(auto, using(crate::proofs::Listed::telegrams_next, crate::proofs::Listed::telegrams_none))]
    fn next(&mut self) -> Option<(Telegram, bool)> {
        let index = self.next;
        if index >= self.left_of.telegrams {
            return None;
        }
        self.next = index + 1;
        let is_last = self.next == self.left_of.telegrams;
        Some((self.left_of.telegram(index), is_last))
    }
}
