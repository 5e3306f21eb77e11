ghost use Rattle.std.specs.Prelude.{◌≡◌};

use codec_answers::{Notice, Outcome, Sent};

/// What happened in a step that is counted, of which a poll has one kind at most: the entry to ClaimToken, the removal after a
/// third attempt, or so many collisions among the poll's telegrams.
#[derive(Clone, Copy, Debug, PartialEq, Eq)]
pub enum Event {
    Nothing,
    Claim,
    Removal,
    Meetings(u8),
}

/// What a step came to, besides what it made of the station: what it sent and told, how the poll ended (profirust's PollDone), how
/// many telegrams it consumed, and what is counted of it.
#[derive(Clone, Copy, Debug, PartialEq, Eq)]
pub struct Done {
    pub sent: Sent,
    pub notice: Notice,
    pub outcome: Outcome,
    pub consumed: u8,
    pub event: Event,
}

impl Done {
    /// PollDone::waiting_for_transmission, PollDone::waiting_for_bus, PollDone::waiting_for_delay, PollDone::offline, by the
    /// outcome: nothing was sent, told or consumed, and nothing is counted.
    pub fn new(outcome: Outcome) -> Self
        ensures { result ≡ record { sent = Sent.Nothing; notice = Notice.NoNotice; outcome = outcome; consumed = 0; event = Event.Nothing } }
    {
        Done {
            sent: Sent::Nothing,
            notice: Notice::NoNotice,
            outcome,
            consumed: 0,
            event: Event::Nothing,
        }
    }
}

/// What one telegram of a poll has led to, or all of them, besides what they made of the station; `met` counts the collisions: of
/// one telegram there is one or none.
#[derive(Clone, Copy, Debug, PartialEq, Eq)]
pub struct Hearing {
    pub outcome: Outcome,
    pub met: u8,
}

impl Hearing {
    /// What a telegram leads to that is no collision; and what a poll begins with before its telegrams.
    pub fn new(outcome: Outcome) -> Self
        ensures { result ≡ record { outcome = outcome; met = 0 } }
    {
        Hearing { outcome, met: 0 }
    }

    /// What a telegram leads to that is counted as a collision: the poll waits for the bus.
    pub fn collision() -> Self
        ensures { result ≡ record { outcome = Outcome.Bus; met = 1 } }
    {
        Hearing {
            outcome: Outcome::Bus,
            met: 1,
        }
    }
}
