ghost use Rattle.std.specs.Prelude.{◌≡◌};
ghost use Rattle.refusals.specs.Refusals.{number_in};
ghost use Rattle.settings_build.specs.Build.{early_refusal, first_refusal, pair_of, build_of, factors_pair, plain_of};

use bit_times::Baud;
use refusals::Refusal;
use settings::Parameters;
use settings_rules::{
    check_address, check_factors, check_gap_wait, check_hsa, check_min_tsdr, check_retry,
    check_room, check_rotation, check_slot_bits,
};

/// The nine settings as ten plain numbers, unchecked: what a trace header carries. Both factors zero says that there
/// are none.
#[derive(Clone, Copy, Debug, PartialEq, Eq)]
pub struct PlainSettings {
    pub token_rotation_bits: u32,
    pub slot_bits: u16,
    pub address: u8,
    pub baud_code: u8,
    pub gap_wait_rotations: u8,
    pub highest_station_address: u8,
    pub max_retry_limit: u8,
    pub min_tsdr_bits: u8,
    pub factor_1: u8,
    pub factor_2: u8,
}

// Two factors as a record keeps them.
#[tactic(auto, unfolding(crate::specs::Build::pair_of))]
fn pair(factor_1: u8, factor_2: u8) -> Option<(u8, u8)>
    ensures { result ≡ pair_of factor_1 factor_2 }
{
    if factor_1 == 0 {
        None
    } else {
        Some((factor_1, factor_2))
    }
}

// The settings as plain numbers.
impl From<Parameters> for PlainSettings {
    ghost from_gives = { λ p plain. plain ≡ plain_of p };

    #[tactic(auto, unfolding(crate::specs::Build::plain_of))]
    fn from(p: Parameters) -> PlainSettings {
        let (factor_1, factor_2) = p.watchdog_factors.unwrap_or((0, 0));
        PlainSettings {
            token_rotation_bits: p.token_rotation_bits,
            slot_bits: p.slot_bits,
            address: p.address,
            baud_code: u8::from(p.baudrate),
            gap_wait_rotations: p.gap_wait_rotations,
            highest_station_address: p.highest_station_address,
            max_retry_limit: p.max_retry_limit,
            min_tsdr_bits: p.min_tsdr_bits,
            factor_1,
            factor_2,
        }
    }
}

// ParametersBuilder::build: the settings, each field as given, or the record's first refusal.
impl TryFrom<PlainSettings> for Parameters {
    type Error = Refusal;

    ghost try_from_gives = { λ plain result. result ≡ build_of plain };

    #[tactic(auto, using(refusals::proofs::Numbers::refused, refusals::proofs::Numbers::named_back), unfolding(crate::specs::Build::build_of, crate::specs::Build::built_at))]
    fn try_from(plain: PlainSettings) -> Result<Parameters, Refusal> {
        plain.check()?;
        Ok(Parameters {
            token_rotation_bits: plain.token_rotation_bits,
            slot_bits: plain.slot_bits,
            address: plain.address,
            baudrate: Baud::try_from(plain.baud_code)?,
            gap_wait_rotations: plain.gap_wait_rotations,
            highest_station_address: plain.highest_station_address,
            max_retry_limit: plain.max_retry_limit,
            min_tsdr_bits: plain.min_tsdr_bits,
            watchdog_factors: pair(plain.factor_1, plain.factor_2),
        })
    }
}

impl PlainSettings {
    /// The first refusal up to min Tsdr, in document 01's header order with 25 directly after 4: 1, 10, 2, 3, 4, 25, 5, 6, 7.
    #[tactic(auto, using(refusals::proofs::Numbers::refused), unfolding(crate::specs::Build::early_refusal, settings_rules::specs::Rules::baud_refusal))]
    pub fn check_early(self) -> Result<(), Refusal>
        ensures { number_in result ≡ early_refusal self }
    {
        check_address(self.address)?;
        let baudrate = Baud::try_from(self.baud_code)?;
        check_slot_bits(baudrate.min_slot_bits(), self.slot_bits)?;
        check_hsa(self.address, self.highest_station_address)?;
        check_rotation(self.token_rotation_bits)?;
        check_room(self.slot_bits, self.token_rotation_bits)?;
        check_gap_wait(self.gap_wait_rotations)?;
        check_retry(self.max_retry_limit)?;
        check_min_tsdr(self.min_tsdr_bits)
    }

    /// The one check of a whole record: its first refusal in this order, then 8.
    #[tactic(auto, using(refusals::proofs::Numbers::refused), unfolding(crate::specs::Build::first_refusal))]
    pub fn check(self) -> Result<(), Refusal>
        ensures { number_in result ≡ first_refusal self }
    {
        self.check_early()?;
        check_factors(self.factor_1, self.factor_2)
    }
}
