ghost use Rattle.std.specs.Prelude.{◌≡◌};
ghost use Rattle.settings_build.specs.Build.{finish_of};

use crate::plain::PlainSettings;
use settings::{NotSet, Parameters};

/// Settings are finished by the check of a whole record: the settings, or its refusal and the settings as they were. Settings
/// that `new` and accepted setters made are refused with 25 alone, where the rotation has no room for a gap poll.
#[tactic(auto, using(refusals::proofs::Numbers::refused, refusals::proofs::Numbers::named_back), unfolding(settings::specs::Settings::unless, crate::specs::Build::finish_of))]
pub fn finish(p: Parameters) -> Result<Parameters, NotSet>
    ensures { result ≡ finish_of p }
{
    PlainSettings::from(p).check().map_err(|refusal| NotSet {
        refusal,
        settings: p,
    })?;
    Ok(p)
}
