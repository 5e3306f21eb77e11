ghost use Rattle.std.specs.Prelude.{◌≡◌};
ghost use Rattle.bit_times.specs.Times.{baud_of, code_of, rate_of, least_slot_bits, time_of};

use crate::bits::Bits;
use crate::micros::Micros;
use refusals::Refusal;

/// profirust's Baudrate: how fast the bus is, in bits a second. The numbers are the baud codes.
#[derive(Clone, Copy, Debug, PartialEq, Eq)]
pub enum Baud {
    B9600 = 0,
    B19200 = 1,
    B31250 = 2,
    B45450 = 3,
    B93750 = 4,
    B187500 = 5,
    B500000 = 6,
    B1500000 = 7,
    B3000000 = 8,
    B6000000 = 9,
    B12000000 = 10,
}

// The rate of a baud code. A code above 10 has none: refusal 10.
impl TryFrom<u8> for Baud {
    type Error = Refusal;

    ghost try_from_gives = { λ code result. result ≡ baud_of code };

    #[tactic(auto, using(crate::proofs::Laws::baud_unknown), unfolding(crate::specs::Times::baud_of))]
    fn try_from(code: u8) -> Result<Self, Refusal> {
        match code {
            0 => Ok(Baud::B9600),
            1 => Ok(Baud::B19200),
            2 => Ok(Baud::B31250),
            3 => Ok(Baud::B45450),
            4 => Ok(Baud::B93750),
            5 => Ok(Baud::B187500),
            6 => Ok(Baud::B500000),
            7 => Ok(Baud::B1500000),
            8 => Ok(Baud::B3000000),
            9 => Ok(Baud::B6000000),
            10 => Ok(Baud::B12000000),
            _ => Err(Refusal::BaudCode),
        }
    }
}

// The baud code of a rate, 0 to 10.
impl From<Baud> for u8 {
    ghost from_gives = { λ baud code. code ≡ code_of baud };

    fn from(baud: Baud) -> u8 {
        baud as u8
    }
}

impl Baud {
    /// Baudrate::to_rate: bits in a second.
    pub fn to_rate(self) -> u64
        ensures { result ≡ rate_of self }
    {
        match self {
            Baud::B9600 => 9600,
            Baud::B19200 => 19200,
            Baud::B31250 => 31250,
            Baud::B45450 => 45450,
            Baud::B93750 => 93750,
            Baud::B187500 => 187500,
            Baud::B500000 => 500000,
            Baud::B1500000 => 1500000,
            Baud::B3000000 => 3000000,
            Baud::B6000000 => 6000000,
            Baud::B12000000 => 12000000,
        }
    }

    /// min_slot_bits: the least slot bits that the rate allows.
    pub fn min_slot_bits(self) -> u16
        ensures { result ≡ least_slot_bits self }
    {
        match self {
            Baud::B9600
            | Baud::B19200
            | Baud::B31250
            | Baud::B45450
            | Baud::B93750
            | Baud::B187500 => 100,
            Baud::B500000 => 200,
            Baud::B1500000 => 300,
            Baud::B3000000 => 400,
            Baud::B6000000 => 600,
            Baud::B12000000 => 1000,
        }
    }

    /// Baudrate::bits_to_time: how long the bits take at this rate, rounded up to whole microseconds (document 02, P3). Nothing
    /// else goes between Bits and Micros.
    #[tactic(auto, using(crate::proofs::Laws::listed), unfolding(crate::specs::Times::rounded, crate::specs::Times::time_of))]
    pub fn bits_to_time(self, bits: Bits) -> Micros
        ensures { result ≡ time_of bits self }
    {
        let rate = self.to_rate();
        Micros((u64::from(bits.0) * 1_000_000).div_ceil(rate))
    }
}
