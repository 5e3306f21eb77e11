ghost use Rattle.std.specs.Prelude.{◌≡◌, ◌+◌, ◌≤◌, length};
ghost use Rattle.codec_fields.specs.Fields.{has_room, load_of, stored_of};

use crate::words::{field, put};

// Whether `length` bytes have `count` from `at`, at most 8.
fn has_room(length: usize, at: usize, count: usize) -> bool
    ensures { result ≡ has_room length at count }
{
    count <= 8 && at <= length && count <= length - at
}

/// The number that `count` bytes of `s` from `at` are, the first the highest; 0 where `s` ends before, and for more than 8 bytes.
#[tactic(auto, using(crate::proofs::Stores::room_of_lem, crate::proofs::Widths::be_more), unfolding(crate::specs::Fields::load_of, crate::specs::Fields::be_from))]
pub fn load(s: &[u8], at: usize, count: usize) -> u64
    ensures { result ≡ load_of s.now at count }
{
    if !has_room(s.len(), at, count) {
        return 0;
    }
    let mut word = 0;
    for byte in &s[at..at + count] {
        word = put(word, 8, *byte);
    }
    word
}

/// Writes the lowest `count` bytes of `word` into `s` from `at`, the highest first; every other byte stays. Where `s` ends before,
/// and for more than 8 bytes, all of `s` stays.
#[tactic(auto, using(crate::proofs::Stores::room_of_lem, crate::specs::Fields::over_of, crate::proofs::Stores::over_none, crate::proofs::Stores::over_all), unfolding(crate::specs::Fields::stored_of))]
pub fn store(s: &mut [u8], at: usize, count: usize, word: u64)
    ensures { s.new ≡ stored_of s.old at count word }
{
    if !has_room(s.len(), at, count) {
        return;
    }
    for i in 0..count {
        s[at + i] = field(word, 8 * ((count - 1 - i) as u64), 8);
    }
}
