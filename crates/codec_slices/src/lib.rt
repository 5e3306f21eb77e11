//! Fields of lent bytes, most significant bit first: a field of any width at any bit, wherever it crosses the ends of bytes, read
//! and written in place. A field that touches more than 8 bytes is none: each of up to 57 bits has room in them. Every call is
//! total. It leans on codec_fields for the words.
#![tactic(auto)]

ghost use Rattle.std.specs.Prelude.{◌≡◌, ◌+◌, ◌≤◌};
ghost use Rattle.codec_slices.specs.Slices.{touched, behind, field_at, field_up_to, put_at, over_word};

use codec_fields::{FieldValue, bits_at, load, put, store};

// How many bytes a field of `width` bits from bit `at` touches.
fn bytes_touched(at: usize, width: usize) -> usize
    requires { width ≤ 64 }
    ensures { (result ≡ touched at width) × (result ≤ 9) }
{
    (at % 8 + width + 7) / 8
}

// How many bits of the bytes that it touches stand behind it.
fn bits_behind(at: usize, width: usize) -> u64
    requires { width ≤ 64 }
    ensures { (result ≡ behind at width) × (result ≤ 7) }
{
    (8 * bytes_touched(at, width) - (at % 8 + width)) as u64
}

/// The `width` bits of `s` from bit `at` on, bit 0 the highest of the first byte; 0 where `s` ends before, and for a field that
/// touches more than 8 bytes.
#[tactic(auto, using(crate::proofs::Parts::bytes_known, crate::proofs::Parts::field_by_word, crate::proofs::Parts::field_too_wide))]
pub fn number_at(s: &[u8], at: usize, width: usize) -> u64
    ensures { result ≡ field_at s.now at width }
{
    if width > 64 {
        return 0;
    }
    let word = load(s, at / 8, bytes_touched(at, width));
    bits_at(word, bits_behind(at, width), width as u64)
}

/// That field as a value; the value of 0 for a field that is wider than the type holds, too.
#[tactic(auto, using(crate::proofs::Parts::field_smaller))]
pub fn field_at<T: FieldValue>(s: &[u8], at: usize, width: usize) -> T
    ensures { result ≡ T.value_of (field_up_to T.BITS s.now at width) }
{
    if (width as u64) > T::BITS {
        return T::from_number(0);
    }
    T::from_number(number_at(s, at, width))
}

// `word` with `value` in the `width` bits above its lowest `after`.
#[tactic(auto, unfolding(crate::specs::Slices::over_word))]
fn over_word(word: u64, after: u64, width: u64, value: u64) -> u64
    requires { (after ≤ 7) × (width ≤ 64) }
    ensures { result ≡ over_word word after width value }
{
    put(
        put(bits_at(word, after + width, 64), width, value),
        after,
        word,
    )
}

/// Writes the lowest `width` bits of `value` into `s` from bit `at` on; every other bit stays. Where `s` ends before, and for a
/// field that touches more than 8 bytes, all of `s` stays.
#[tactic(auto, using(crate::proofs::Parts::bytes_known, crate::proofs::Parts::put_by_word, crate::proofs::Parts::put_too_wide))]
pub fn put_at<T: FieldValue>(s: &mut [u8], at: usize, width: usize, value: T)
    ensures { s.new ≡ put_at s.old at width (T.number_of value) }
{
    if width > 64 {
        return;
    }
    let count = bytes_touched(at, width);
    let word = load(s, at / 8, count);
    store(
        s,
        at / 8,
        count,
        over_word(word, bits_behind(at, width), width as u64, value.number()),
    );
}
