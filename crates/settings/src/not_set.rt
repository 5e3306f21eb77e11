ghost use Rattle.std.specs.Prelude.{◌≡◌};

use crate::parameters::Parameters;
use refusals::Refusal;

/// A value that a setter refused, and the settings as they were.
#[derive(Clone, Copy, Debug, PartialEq, Eq)]
pub struct NotSet {
    pub refusal: Refusal,
    pub settings: Parameters,
}

impl From<NotSet> for Refusal {
    ghost from_gives = { λ not_set refusal. refusal ≡ not_set.refusal };

    fn from(not_set: NotSet) -> Refusal {
        not_set.refusal
    }
}
