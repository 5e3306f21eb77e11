ghost use Rattle.std.specs.Prelude.{◌≡◌, ◌^◌, ◌<◌};

use crate::micros::Micros;
use std::marker::Model;

/// A time that the clock shows, in microseconds from 0 to 2^48 − 1.
#[derive(Clone, Copy, Debug, PartialEq, Eq, PartialOrd, Ord)]
pub struct Instant {
    micros: u64,
}

// Clauses see the microseconds.
impl Model for Instant {
    ghost use Rattle.std.specs.Prelude.{◌^◌, ◌<◌};
    ghost use Rattle.bit_times.specs.declared.micros.Micros.{Micros};

    ghost Value = { Micros };

    ghost view = { λ i. record { 0 = i.micros } };

    ghost invariant = { λ i. i.micros < 2 ^ 48 };

    ghost inverse = { λ m. record { micros = m.0 } };
}

impl Instant {
    /// The clock's value of microseconds that a caller knows to be below 2^48.
    pub fn at(micros: u64) -> Self
        requires { micros < 2 ^ 48 }
        ensures { result.0 ≡ micros }
    {
        Instant { micros }
    }

    /// The microseconds that the clock shows.
    pub fn micros(self) -> Micros
        ensures value { result ≡ self }
        ensures clock { result.0 < 2 ^ 48 }
    {
        Micros(self.micros)
    }
}
