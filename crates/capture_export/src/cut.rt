ghost use Rattle.std.specs.Prelude.{◌≡◌};

use refusals::Refusal;

// What ended the lines of an entry, and how many bytes of them are written.
#[derive(Clone, Copy, Debug, PartialEq, Eq)]
pub struct Cut {
    pub written: usize,
    pub refusal: Refusal,
}

impl From<Refusal> for Cut {
    ghost from_gives = { λ e cut. cut ≡ record { written = 0; refusal = e } };

    // Refused before anything is written.
    fn from(refusal: Refusal) -> Cut {
        Cut {
            written: 0,
            refusal,
        }
    }
}
