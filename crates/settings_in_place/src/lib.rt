//! The slot, HSA and rotation setters on the caller's own settings record. Request P14 of document 02. Each is thin over the
//! setter of `settings` that takes and gives the record by value: what is refused, with which number, and what an accepted
//! call sets, is said there and not again here.
#![tactic(auto)]

ghost use Rattle.settings.specs.Settings.{slot_bits_of, hsa_of, rotation_of};
ghost use Rattle.settings_in_place.specs.InPlace.{InPlace};

use refusals::Refusal;
use settings::Parameters;

/// The slot time in bits, on the caller's record. Refusal 2, which leaves the record untouched.
pub fn set_slot_bits(p: &mut Parameters, slot_bits: u16) -> Result<(), Refusal>
    ensures { InPlace p.old (slot_bits_of p.old slot_bits) result p.new }
{
    *p = p.slot_bits(slot_bits)?;
    Ok(())
}

/// The highest station address, which also sets the rotation, on the caller's record. Refusal 3, which leaves the record
/// untouched.
pub fn set_highest_station_address(p: &mut Parameters, hsa: u8) -> Result<(), Refusal>
    ensures { InPlace p.old (hsa_of p.old hsa) result p.new }
{
    *p = p.highest_station_address(hsa)?;
    Ok(())
}

/// The target token rotation time in bits, on the caller's record. Refusal 4, which leaves the record untouched.
pub fn set_token_rotation_bits(p: &mut Parameters, ttr: u32) -> Result<(), Refusal>
    ensures { InPlace p.old (rotation_of p.old ttr) result p.new }
{
    *p = p.token_rotation_bits(ttr)?;
    Ok(())
}
