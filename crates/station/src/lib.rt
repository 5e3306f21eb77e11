//! The station and what every state leans on: states and their transitions, bus activity, the synchronization pause, the slot,
//! sending. Layer 5 of document 01 ("Station"), from profirust's active.rs, in its order. It leans on bit_times, settings and
//! ring, and on codec_answers and codec_telegrams for what a step reports.
//!
//! A step is made on the station itself (`&mut`): it stores the new state, changes the core and the ring where it needs to, and
//! hands back what the poll came to, `Done`. The definitions speak of the parts: a step of theirs takes the settings, the core, the
//! ring and what its state holds, and gives a `RingStep`. A contract joins the two: the station after a step, and what is handed
//! back, are `after` that `RingStep` (specs/Whole). One telegram that is heard is the same with `Heard` and `after_hearing`.
#![tactic(auto)]

ghost use Rattle.std.specs.Prelude.{◌≡◌};
ghost use Rattle.station.specs.Steps.{last_request_to_us};

// Public, since the claims of theorem_determined name each contract by its module.
pub mod done;
pub mod parts;
pub mod state;
pub mod station;

pub use done::{Done, Event, Hearing};
pub use parts::{Core, Counts};
pub use state::{ConnectivityState, PassTokenAttempt, State, UseTokenData};
pub use station::Station;

/// Is this a status request to us, and the last telegram of its poll?
#[tactic(auto, unfolding(crate::specs::Steps::last_request_to_us))]
pub fn is_last_request_to_us(destination: u8, own: u8, status_request: bool, last: bool) -> bool
    ensures { result ≡ last_request_to_us destination own status_request last }
{
    status_request && destination == own && last
}
