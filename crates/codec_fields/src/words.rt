ghost use Rattle.std.specs.Prelude.{◌≡◌};
ghost use Rattle.codec_fields.specs.Fields.{field_of, up_to, put_of, zero_or14};
ghost use Rattle.refusals.specs.Refusals.{number_in};

use crate::value::FieldValue;
use refusals::Refusal;

/// The `width` bits of `word` that stand above its lowest `at`.
#[tactic(auto, using(crate::proofs::Widths::field_past, crate::proofs::Widths::field_whole, crate::proofs::Widths::mask_some, crate::proofs::Widths::masked))]
pub fn bits_at(word: u64, at: u64, width: u64) -> u64
    ensures { result ≡ field_of word at width }
{
    if at >= 64 {
        return 0;
    }
    if width >= 64 {
        return word >> at;
    }
    (word >> at) & ((1u64 << width) - 1)
}

/// That field as a value: of a field wider than the type holds, the lowest bits.
#[tactic(auto, using(crate::proofs::Widths::field_within))]
pub fn field<T: FieldValue>(word: u64, at: u64, width: u64) -> T
    ensures { result ≡ T.value_of (field_of word at (up_to T.BITS width)) }
{
    T::from_number(bits_at(word, at, width.min(T::BITS)))
}

/// `word` with the lowest `width` bits of a value put below it; what stands above 64 bits falls away.
#[tactic(auto, using(crate::proofs::Widths::put_whole, crate::proofs::Widths::placed))]
pub fn put<T: FieldValue>(word: u64, width: u64, value: T) -> u64
    ensures { result ≡ put_of word width (T.number_of value) }
{
    let number = value.number();
    if width >= 64 {
        return number;
    }
    (word << width) | bits_at(number, 0, width)
}

/// Refuses bits that should be zero and are not (14).
#[tactic(auto, unfolding(crate::specs::Fields::zeros_or14))]
pub fn check_zero(bits: u64) -> Result<(), Refusal>
    ensures { number_in result ≡ zero_or14 bits }
{
    if bits == 0 {
        Ok(())
    } else {
        Err(Refusal::ReservedBit)
    }
}
