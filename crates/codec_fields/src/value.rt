ghost use Rattle.std.specs.Prelude.{◌≡◌, ℕ, ◌^◌, ◌<◌, ◌≤◌};
ghost use Rattle.std.proofs.Common.{rules};
ghost use Rattle.codec_fields.specs.Fields.{is_one, bit_number};

/// A type whose values a field of at most `BITS` bits holds: each value has a number, and each number of so many bits a value.
pub trait FieldValue: Copy {
    ghost BITS: { ℕ };

    ghost value_of: { ℕ → Self };

    ghost number_of: { Self → ℕ };

    /// How many bits the widest field has.
    const BITS: u64;

    /// The value with this number.
    fn from_number(number: u64) -> Self
        requires { number < 2 ^ BITS }
        ensures { result ≡ value_of number };

    /// The number of a value.
    fn number(self) -> u64
        ensures { result ≡ number_of self };

    // What each `impl` must prove.
    ghost bits_fit: { BITS ≤ 64 };
}

impl FieldValue for u8 {
    ghost BITS = { 8 };

    ghost value_of = { λ n. n };

    ghost number_of = { λ n. n };

    ghost bits_fit = { Prim.search rules };

    const BITS: u64 = 8;

    fn from_number(number: u64) -> u8 {
        number as u8
    }

    fn number(self) -> u64 {
        u64::from(self)
    }
}

impl FieldValue for u16 {
    ghost BITS = { 16 };

    ghost value_of = { λ n. n };

    ghost number_of = { λ n. n };

    ghost bits_fit = { Prim.search rules };

    const BITS: u64 = 16;

    fn from_number(number: u64) -> u16 {
        number as u16
    }

    fn number(self) -> u64 {
        u64::from(self)
    }
}

impl FieldValue for u32 {
    ghost BITS = { 32 };

    ghost value_of = { λ n. n };

    ghost number_of = { λ n. n };

    ghost bits_fit = { Prim.search rules };

    const BITS: u64 = 32;

    fn from_number(number: u64) -> u32 {
        number as u32
    }

    fn number(self) -> u64 {
        u64::from(self)
    }
}

impl FieldValue for u64 {
    ghost BITS = { 64 };

    ghost value_of = { λ n. n };

    ghost number_of = { λ n. n };

    ghost bits_fit = { Prim.search rules };

    const BITS: u64 = 64;

    fn from_number(number: u64) -> u64 {
        number
    }

    fn number(self) -> u64 {
        self
    }
}

impl FieldValue for bool {
    ghost BITS = { 1 };

    ghost value_of = { is_one };

    ghost number_of = { bit_number };

    ghost bits_fit = { Prim.search rules };

    const BITS: u64 = 1;

    fn from_number(number: u64) -> bool {
        number == 1
    }

    fn number(self) -> u64 {
        u64::from(self)
    }
}
