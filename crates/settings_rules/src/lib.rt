//! The rules of settings: for each limit a check, which refuses a value that lies outside. Part of layer 2 of document 01
//! ("Settings", refusals 1 to 8 and 11) with document 02's 25, from the asserts of profirust's ParametersBuilder; refusal 10,
//! a baud code that has no rate, is `Baud::try_from`. It leans on refusals and bit_times.
#![tactic(auto)]

ghost use Rattle.std.specs.Prelude.{◌≡◌};
ghost use Rattle.refusals.specs.Refusals.{number_in, number_of};
ghost use Rattle.settings_rules.specs.Rules.{refuse_below, refuse_outside, address_refusal, slot_bits_refusal, hsa_refusal, rotation_refusal, room_refusal, gap_wait_refusal, retry_refusal, min_tsdr_refusal, watchdog_refusal, factors_refusal, applications_refusal};

use refusals::Refusal;

/// What a gap poll may take besides its slot, in bits.
pub const GAP_ALLOWANCE: u32 = 100;

// Refused where a value lies below low.
#[tactic(auto, unfolding(crate::specs::Rules::refuse_below))]
fn refuse_below(low: u64, value: u64, refusal: Refusal) -> Result<(), Refusal>
    ensures { number_in result ≡ refuse_below low value (number_of refusal) }
{
    if value >= low { Ok(()) } else { Err(refusal) }
}

// Refused where a value lies outside low..high.
#[tactic(auto, unfolding(crate::specs::Rules::refuse_outside))]
fn refuse_outside(low: u64, value: u64, high: u64, refusal: Refusal) -> Result<(), Refusal>
    ensures { number_in result ≡ refuse_outside low value high (number_of refusal) }
{
    if value >= low && value <= high {
        Ok(())
    } else {
        Err(refusal)
    }
}

/// Refusal 1: an address above 125.
#[tactic(auto, unfolding(crate::specs::Rules::address_refusal))]
pub fn check_address(address: u8) -> Result<(), Refusal>
    ensures { number_in result ≡ address_refusal address }
{
    refuse_outside(0, u64::from(address), 125, Refusal::Address)
}

/// Refusal 2: slot bits below the least.
#[tactic(auto, unfolding(crate::specs::Rules::slot_bits_refusal))]
pub fn check_slot_bits(least: u16, slot_bits: u16) -> Result<(), Refusal>
    ensures { number_in result ≡ slot_bits_refusal least slot_bits }
{
    refuse_below(u64::from(least), u64::from(slot_bits), Refusal::SlotBits)
}

/// Refusal 3: a highest station address that is not above the address, or above 126.
#[tactic(auto, unfolding(crate::specs::Rules::hsa_refusal))]
pub fn check_hsa(address: u8, hsa: u8) -> Result<(), Refusal>
    ensures { number_in result ≡ hsa_refusal address hsa }
{
    refuse_outside(
        u64::from(address) + 1,
        u64::from(hsa),
        126,
        Refusal::HighestStationAddress,
    )
}

/// Refusal 4: a rotation outside 256..16,777,960 bits.
#[tactic(auto, unfolding(crate::specs::Rules::rotation_refusal))]
pub fn check_rotation(ttr: u32) -> Result<(), Refusal>
    ensures { number_in result ≡ rotation_refusal ttr }
{
    refuse_outside(256, u64::from(ttr), 16_777_960, Refusal::TokenRotation)
}

/// Refusal 25, in a whole record: a rotation below the slot bits + 100, which has no room for a gap poll.
#[tactic(auto, unfolding(crate::specs::Rules::room_refusal))]
pub fn check_room(slot_bits: u16, ttr: u32) -> Result<(), Refusal>
    ensures { number_in result ≡ room_refusal slot_bits ttr }
{
    refuse_below(
        u64::from(slot_bits) + u64::from(GAP_ALLOWANCE),
        u64::from(ttr),
        Refusal::NoRoomForGapPoll,
    )
}

/// Refusal 5: a gap wait outside 1..100 token rotations.
#[tactic(auto, unfolding(crate::specs::Rules::gap_wait_refusal))]
pub fn check_gap_wait(gap_wait: u8) -> Result<(), Refusal>
    ensures { number_in result ≡ gap_wait_refusal gap_wait }
{
    refuse_outside(1, u64::from(gap_wait), 100, Refusal::GapWait)
}

/// Refusal 6: a retry limit outside 1..15.
#[tactic(auto, unfolding(crate::specs::Rules::retry_refusal))]
pub fn check_retry(max_retry_limit: u8) -> Result<(), Refusal>
    ensures { number_in result ≡ retry_refusal max_retry_limit }
{
    refuse_outside(1, u64::from(max_retry_limit), 15, Refusal::RetryLimit)
}

/// Refusal 7: a min Tsdr below 11 bits.
#[tactic(auto, unfolding(crate::specs::Rules::min_tsdr_refusal))]
pub fn check_min_tsdr(min_tsdr_bits: u8) -> Result<(), Refusal>
    ensures { number_in result ≡ min_tsdr_refusal min_tsdr_bits }
{
    refuse_below(11, u64::from(min_tsdr_bits), Refusal::MinTsdr)
}

/// Refusal 8: a watchdog time outside 10..650,000 ms.
#[tactic(auto, unfolding(crate::specs::Rules::watchdog_refusal))]
pub fn check_watchdog(ms: u64) -> Result<(), Refusal>
    ensures { number_in result ≡ watchdog_refusal ms }
{
    refuse_outside(10, ms, 650_000, Refusal::Watchdog)
}

/// Refusal 8, in a whole record: one factor is zero and the other is not.
#[tactic(auto, unfolding(crate::specs::Rules::factors_refusal))]
pub fn check_factors(factor_1: u8, factor_2: u8) -> Result<(), Refusal>
    ensures { number_in result ≡ factors_refusal factor_1 factor_2 }
{
    if (factor_1 == 0) == (factor_2 == 0) {
        Ok(())
    } else {
        Err(Refusal::Watchdog)
    }
}

/// Refusal 11: applications outside 1..8.
#[tactic(auto, unfolding(crate::specs::Rules::applications_refusal))]
pub fn check_applications(applications: u8) -> Result<(), Refusal>
    ensures { number_in result ≡ applications_refusal applications }
{
    refuse_outside(1, u64::from(applications), 8, Refusal::Applications)
}
