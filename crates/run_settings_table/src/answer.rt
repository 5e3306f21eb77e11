use refusals::Refusal;
use settings::{NotSet, Parameters};
use settings_build::PlainSettings;
use std::fmt;

/// What a call on settings came to, as a row shows it: accepted or refused, and the settings after it, where it gives some.
#[derive(Clone, Copy)]
pub struct Answer {
    pub refusal: Option<Refusal>,
    pub settings: Option<Parameters>,
}

impl Answer {
    /// A setter on the caller's record: its refusal, and the settings that it left.
    pub fn left(refusal: Option<Refusal>, settings: Parameters) -> Answer {
        Answer {
            refusal,
            settings: Some(settings),
        }
    }
}

// New settings, or a whole record: a refusal gives none.
impl From<Result<Parameters, Refusal>> for Answer {
    fn from(created: Result<Parameters, Refusal>) -> Answer {
        Answer {
            refusal: created.err(),
            settings: created.ok(),
        }
    }
}

// A setter, or finishing: a refusal gives the settings back.
impl From<Result<Parameters, NotSet>> for Answer {
    fn from(changed: Result<Parameters, NotSet>) -> Answer {
        match changed {
            Ok(settings) => Answer {
                refusal: None,
                settings: Some(settings),
            },
            Err(not_set) => Answer {
                refusal: Some(not_set.refusal),
                settings: Some(not_set.settings),
            },
        }
    }
}

impl fmt::Display for Answer {
    fn fmt<W: fmt::Write>(&self, f: &mut fmt::Formatter<W>) -> fmt::Result {
        match self.refusal {
            None => f.write_str("accepted")?,
            Some(refusal) => write!(f, "refused {}", refusal.number())?,
        }
        match self.settings {
            None => Ok(()),
            Some(settings) => write!(f, "; {}", Row(settings)),
        }
    }
}

/// The ten numbers of settings.
#[derive(Clone, Copy)]
pub struct Row(pub Parameters);

impl fmt::Display for Row {
    fn fmt<W: fmt::Write>(&self, f: &mut fmt::Formatter<W>) -> fmt::Result {
        let plain = PlainSettings::from(self.0);
        write!(
            f,
            "{} {} {} {} {} {} {} {} {} {}",
            plain.address,
            plain.baud_code,
            plain.slot_bits,
            plain.token_rotation_bits,
            plain.gap_wait_rotations,
            plain.highest_station_address,
            plain.max_retry_limit,
            plain.min_tsdr_bits,
            plain.factor_1,
            plain.factor_2
        )
    }
}
