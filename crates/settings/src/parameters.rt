ghost use Rattle.std.specs.Prelude.{◌≡◌};
ghost use Rattle.settings_watchdog.specs.Watchdog.{watchdog_time_of};
ghost use Rattle.settings.specs.Settings.{new_of, slot_bits_of, hsa_of, rotation_of, gap_wait_of, retry_of, min_tsdr_of, watchdog_of, slot_check_of, slot_time_of, min_tsdr_time_of, token_lost_of, rotation_time_of};

use crate::not_set::NotSet;
use bit_times::{Baud, Bits, Micros};
use refusals::Refusal;
use settings_rules::{
    check_address, check_gap_wait, check_hsa, check_min_tsdr, check_retry, check_rotation,
    check_slot_bits, check_watchdog,
};
use settings_watchdog::{watchdog_factors, watchdog_time};

/// Parameters: the settings of a station, with the Rust's field names.
#[derive(Clone, Copy, Debug, PartialEq, Eq)]
pub struct Parameters {
    pub token_rotation_bits: u32,
    pub slot_bits: u16,
    pub address: u8,
    pub baudrate: Baud,
    pub gap_wait_rotations: u8,
    pub highest_station_address: u8,
    pub max_retry_limit: u8,
    pub min_tsdr_bits: u8,
    pub watchdog_factors: Option<(u8, u8)>,
}

// The settings before any setter is called, and the setters: names, order and rules of ParametersBuilder.
impl Parameters {
    /// ParametersBuilder::new, of an address and a baud code. Refusals 1 and 10.
    #[tactic(auto, using(refusals::proofs::Numbers::refused, refusals::proofs::Numbers::named_back), unfolding(crate::specs::Settings::new_of, crate::specs::Settings::new_at))]
    pub fn new(address: u8, baud_code: u8) -> Result<Self, Refusal>
        ensures { result ≡ new_of address baud_code }
    {
        check_address(address)?;
        let baudrate = Baud::try_from(baud_code)?;
        Ok(Parameters {
            token_rotation_bits: 32436,
            slot_bits: baudrate.min_slot_bits(),
            address,
            baudrate,
            gap_wait_rotations: 10,
            highest_station_address: 126,
            max_retry_limit: 1,
            min_tsdr_bits: 11,
            watchdog_factors: None,
        })
    }

    /// The slot time in bits. Refusal 2.
    #[tactic(auto, using(refusals::proofs::Numbers::refused, refusals::proofs::Numbers::named_back), unfolding(crate::specs::Settings::slot_bits_of, crate::specs::Settings::unless))]
    pub fn slot_bits(mut self, slot_bits: u16) -> Result<Self, NotSet>
        ensures { result ≡ slot_bits_of self slot_bits }
    {
        check_slot_bits(self.baudrate.min_slot_bits(), slot_bits).map_err(|refusal| NotSet {
            refusal,
            settings: self,
        })?;
        self.slot_bits = slot_bits;
        Ok(self)
    }

    /// The highest station address; it also sets the rotation to HSA × 5000. Refusal 3.
    #[tactic(auto, using(refusals::proofs::Numbers::refused, refusals::proofs::Numbers::named_back), unfolding(crate::specs::Settings::hsa_of, crate::specs::Settings::unless))]
    pub fn highest_station_address(mut self, hsa: u8) -> Result<Self, NotSet>
        ensures { result ≡ hsa_of self hsa }
    {
        check_hsa(self.address, hsa).map_err(|refusal| NotSet {
            refusal,
            settings: self,
        })?;
        self.highest_station_address = hsa;
        self.token_rotation_bits = u32::from(hsa) * 5000;
        Ok(self)
    }

    /// The target token rotation time in bits. Refusal 4.
    #[tactic(auto, using(refusals::proofs::Numbers::refused, refusals::proofs::Numbers::named_back), unfolding(crate::specs::Settings::rotation_of, crate::specs::Settings::unless))]
    pub fn token_rotation_bits(mut self, ttr: u32) -> Result<Self, NotSet>
        ensures { result ≡ rotation_of self ttr }
    {
        check_rotation(ttr).map_err(|refusal| NotSet {
            refusal,
            settings: self,
        })?;
        self.token_rotation_bits = ttr;
        Ok(self)
    }

    /// How many token rotations to wait before the gap is polled again. Refusal 5.
    #[tactic(auto, using(refusals::proofs::Numbers::refused, refusals::proofs::Numbers::named_back), unfolding(crate::specs::Settings::gap_wait_of, crate::specs::Settings::unless))]
    pub fn gap_wait_rotations(mut self, gap_wait: u8) -> Result<Self, NotSet>
        ensures { result ≡ gap_wait_of self gap_wait }
    {
        check_gap_wait(gap_wait).map_err(|refusal| NotSet {
            refusal,
            settings: self,
        })?;
        self.gap_wait_rotations = gap_wait;
        Ok(self)
    }

    /// How often a telegram is retried. Refusal 6.
    #[tactic(auto, using(refusals::proofs::Numbers::refused, refusals::proofs::Numbers::named_back), unfolding(crate::specs::Settings::retry_of, crate::specs::Settings::unless))]
    pub fn max_retry_limit(mut self, max_retry_limit: u8) -> Result<Self, NotSet>
        ensures { result ≡ retry_of self max_retry_limit }
    {
        check_retry(max_retry_limit).map_err(|refusal| NotSet {
            refusal,
            settings: self,
        })?;
        self.max_retry_limit = max_retry_limit;
        Ok(self)
    }

    /// The least time in bits before anyone responds. Refusal 7.
    #[tactic(auto, using(refusals::proofs::Numbers::refused, refusals::proofs::Numbers::named_back), unfolding(crate::specs::Settings::min_tsdr_of, crate::specs::Settings::unless))]
    pub fn min_tsdr(mut self, min_tsdr_bits: u8) -> Result<Self, NotSet>
        ensures { result ≡ min_tsdr_of self min_tsdr_bits }
    {
        check_min_tsdr(min_tsdr_bits).map_err(|refusal| NotSet {
            refusal,
            settings: self,
        })?;
        self.min_tsdr_bits = min_tsdr_bits;
        Ok(self)
    }

    /// The watchdog timeout in milliseconds. Refusal 8.
    #[tactic(auto, using(refusals::proofs::Numbers::refused, refusals::proofs::Numbers::named_back), unfolding(crate::specs::Settings::watchdog_of, crate::specs::Settings::unless, crate::specs::Settings::watchdog_at, crate::specs::Settings::with_watchdog))]
    pub fn watchdog_timeout(mut self, ms: u64) -> Result<Self, NotSet>
        ensures { result ≡ watchdog_of self ms }
    {
        check_watchdog(ms).map_err(|refusal| NotSet {
            refusal,
            settings: self,
        })?;
        self.watchdog_factors = watchdog_factors(ms).map_err(|refusal| NotSet {
            refusal,
            settings: self,
        })?;
        Ok(self)
    }

    /// The slot check of ParametersBuilder::build_verified, for a peripheral's max Tsdr: yes or no, and no wrap.
    #[tactic(auto, unfolding(crate::specs::Settings::slot_check_of))]
    pub fn slot_check(self, max_tsdr: u16) -> bool
        ensures { result ≡ slot_check_of self max_tsdr }
    {
        u32::from(max_tsdr) + 15 <= u32::from(self.slot_bits)
    }
}

// The times that follow from the settings.
impl Parameters {
    /// Parameters::slot_time.
    #[tactic(auto, unfolding(crate::specs::Settings::slot_time_of))]
    pub fn slot_time(self) -> Micros
        ensures { result ≡ slot_time_of self }
    {
        self.baudrate.bits_to_time(Bits(u32::from(self.slot_bits)))
    }

    /// Parameters::min_tsdr_time.
    #[tactic(auto, unfolding(crate::specs::Settings::min_tsdr_time_of))]
    pub fn min_tsdr_time(self) -> Micros
        ensures { result ≡ min_tsdr_time_of self }
    {
        self.baudrate
            .bits_to_time(Bits(u32::from(self.min_tsdr_bits)))
    }

    /// Parameters::token_lost_timeout: the time after which the token counts as lost.
    #[tactic(auto, unfolding(crate::specs::Settings::token_lost_of))]
    pub fn token_lost_timeout(self) -> Micros
        ensures { result ≡ token_lost_of self }
    {
        let slots = 6 + 2 * u32::from(self.address);
        self.baudrate
            .bits_to_time(Bits(u32::from(self.slot_bits) * slots))
    }

    /// Parameters::token_rotation_time.
    #[tactic(auto, unfolding(crate::specs::Settings::rotation_time_of))]
    pub fn token_rotation_time(self) -> Micros
        ensures { result ≡ rotation_time_of self }
    {
        self.baudrate.bits_to_time(Bits(self.token_rotation_bits))
    }

    /// Parameters::watchdog_timeout; the setter has that name here.
    pub fn watchdog_time(self) -> Option<Micros>
        ensures { result ≡ watchdog_time_of self.watchdog_factors }
    {
        watchdog_time(self.watchdog_factors)
    }
}
