ghost use Rattle.std.specs.Prelude.{◌≡◌};
ghost use Rattle.refusals.specs.Refusals.{answered};
ghost use Rattle.station.specs.Parts.{new_station};
ghost use Rattle.station.specs.Whole.{after, with_core};
ghost use Rattle.station.specs.Steps.{pause_of, slot_expired_of, token_lost_wait_of, transmit_of, ring_step_of};

use crate::done::Done;
use crate::parts::{Core, Counts};
use crate::state::State;
use bit_times::{Bits, Instant, Micros};
use codec_answers::{Outcome, Sent};
use refusals::Refusal;
use ring::TokenRing;
use settings::Parameters;

/// FdlActiveStation, and the number of applications, which is fixed for life.
#[derive(Clone, Copy)]
pub struct Station {
    pub state: State,
    pub core: Core,
    pub token_ring: TokenRing,
    pub p: Parameters,
    pub counts: Counts,
    pub applications: u8,
}

impl Station {
    /// The station that `new` makes, for any number of applications, also one that `new` refuses: offline, alone in its ring, nothing
    /// counted.
    #[tactic(auto, unfolding(crate::specs::Parts::new_station, crate::specs::Parts::fresh_station))]
    pub fn fresh(p: Parameters, applications: u8) -> Self
        ensures { result ≡ (new_station p applications).station }
    {
        Station {
            state: State::Offline,
            core: Core::new(),
            token_ring: TokenRing::new(p.address),
            p,
            counts: Counts {
                claims: 0,
                removals: 0,
                meetings: 0,
            },
            applications,
        }
    }

    /// FdlActiveStation::new, for 1 to 8 applications: offline, alone in its ring, nothing counted. Refusal 11, and then no
    /// station is made.
    #[tactic(auto, using(refusals::proofs::Numbers::named_back, refusals::proofs::Numbers::refused), unfolding(refusals::specs::Refusals::answered, crate::specs::Parts::new_station))]
    pub fn new(p: Parameters, applications: u8) -> Result<Self, Refusal>
        ensures { result ≡ answered (new_station p applications).refusal (new_station p applications).station }
    {
        settings_rules::check_applications(applications)?;
        Ok(Station::fresh(p, applications))
    }

    /// wait_synchronization_pause: 33 bits since the last activity, which is known from now on.
    #[tactic(auto, unfolding(crate::specs::Steps::pause_of))]
    pub fn wait_synchronization_pause(&mut self, now: Micros) -> bool
        ensures over { result ≡ (pause_of self.old.p self.old.core now).over }
        ensures station { self.new ≡ with_core self.old (pause_of self.old.p self.old.core now).core }
    {
        let pause = self.p.baudrate.bits_to_time(Bits(33));
        self.core.wait_for(now, pause)
    }

    /// check_slot_expired: the slot time since the last activity, which is known from now on.
    #[tactic(auto, unfolding(crate::specs::Steps::slot_expired_of))]
    pub fn check_slot_expired(&mut self, now: Micros) -> bool
        ensures over { result ≡ (slot_expired_of self.old.p self.old.core now).over }
        ensures station { self.new ≡ with_core self.old (slot_expired_of self.old.p self.old.core now).core }
    {
        self.core.wait_for(now, self.p.slot_time())
    }

    /// The test of handle_lost_token: the lost-token timeout since the last activity, which is known from now on.
    #[tactic(auto, unfolding(crate::specs::Steps::token_lost_wait_of))]
    pub fn token_lost(&mut self, now: Micros) -> bool
        ensures over { result ≡ (token_lost_wait_of self.old.p self.old.core now).over }
        ensures station { self.new ≡ with_core self.old (token_lost_wait_of self.old.p self.old.core now).core }
    {
        self.core.wait_for(now, self.p.token_lost_timeout())
    }

    /// mark_tx after a send: the bus is busy until its bytes are out.
    #[tactic(auto, using(bit_times::specs::Times::time_of, bit_times::proofs::Laws::time_bound), unfolding(crate::specs::Steps::transmit_of, crate::specs::Steps::sent_at, crate::specs::Parts::with_activity))]
    pub fn transmit(&mut self, now: Instant, sent: Sent) -> Done
        ensures { (self.new, result) ≡ after self.old (ring_step_of (transmit_of self.old.p self.old.state self.old.core now sent) self.old.token_ring) }
    {
        let bytes = sent.bytes();
        let time = self.p.baudrate.bits_to_time(Bits(11 * u32::from(bytes)));
        self.core.last_bus_activity = Some(Micros(now.micros().0 + time.0));
        Done {
            sent,
            ..Done::new(Outcome::Transmission)
        }
    }
}
