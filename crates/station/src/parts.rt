ghost use Rattle.std.specs.Prelude.{◌≡◌};
ghost use Rattle.station.specs.Parts.{with_activity, fresh_core};
ghost use Rattle.station.specs.Steps.{marked_at, ongoing_of, waited_of, bus_activity_of, rx_of};

use crate::state::ConnectivityState;
use bit_times::Micros;
use ring::GapState;

/// What a poll may change besides the state and the ring, with FdlActiveStation's names. The last bus activity is the last time
/// the bus was found active, or until when we know it to be; `None` where none is known.
#[derive(Clone, Copy, Debug, PartialEq, Eq)]
pub struct Core {
    pub last_token_time: Micros,
    pub end_token_hold_time: Micros,
    pub last_bus_activity: Option<Micros>,
    pub gap_state: GapState,
    pub pending_bytes: u16,
    pub next_application: u8,
    pub connectivity_state: ConnectivityState,
}

/// How often, since the station was made, it claimed the token, removed a neighbour after a third attempt, and met its own address
/// on the bus (document 02). Each stops at its largest value. They stand beside the core: no step takes or makes them.
#[derive(Clone, Copy, Debug, PartialEq, Eq)]
pub struct Counts {
    pub claims: u32,
    pub removals: u32,
    pub meetings: u32,
}

impl Core {
    /// FdlActiveStation::new but for the state, the settings and the ring, as document 01 has it: nothing known, the gap waiting.
    #[tactic(auto, unfolding(crate::specs::Parts::fresh_core))]
    pub fn new() -> Self
        ensures { result ≡ fresh_core }
    {
        Core {
            last_token_time: Micros(0),
            end_token_hold_time: Micros(0),
            last_bus_activity: None,
            gap_state: GapState::Waiting { rotation_count: 0 },
            pending_bytes: 0,
            next_application: 0,
            connectivity_state: ConnectivityState::Offline,
        }
    }

    /// mark_bus_activity: the later of the known activity and now.
    #[tactic(auto, unfolding(crate::specs::Parts::with_activity, crate::specs::Steps::marked_at, crate::specs::Steps::known_at))]
    pub fn mark_bus_activity(&mut self, now: Micros)
        ensures { self.new ≡ with_activity self.old (marked_at self.old.last_bus_activity now) }
    {
        let last = self.last_bus_activity.unwrap_or(now);
        self.last_bus_activity = Some(last.max(now));
    }

    /// check_for_ongoing_transmision: is a transmission going on, by the port or by what we know?
    #[tactic(auto, unfolding(crate::specs::Steps::ongoing_of, crate::specs::Steps::busy_of))]
    pub fn check_for_ongoing_transmission(&self, now: Micros, transmitting: bool) -> bool
        ensures { result ≡ ongoing_of self.now.last_bus_activity now transmitting }
    {
        transmitting || matches!(self.last_bus_activity, Some(last) if now.0 <= last.0)
    }

    // The last activity, which is known from now on, and whether this time has passed since: last_bus_activity.get_or_insert(now).
    // The clock may have gone back.
    #[tactic(auto, unfolding(crate::specs::Steps::waited_of, crate::specs::Parts::with_activity, crate::specs::Steps::elapsed_of, crate::specs::Steps::known_at))]
    pub(crate) fn wait_for(&mut self, now: Micros, time: Micros) -> bool
        ensures over { result ≡ (waited_of self.old now time).over }
        ensures core { self.new ≡ (waited_of self.old now time).core }
    {
        let last = *self.last_bus_activity.get_or_insert(now);
        now.0 >= last.0 && now.0 - last.0 >= time.0
    }

    /// check_for_bus_activity: more pending bytes than were known.
    #[tactic(auto, unfolding(crate::specs::Steps::bus_activity_of, crate::specs::Parts::with_pending, crate::specs::Parts::with_activity))]
    pub fn check_for_bus_activity(&mut self, now: Micros, pending: u16)
        ensures { self.new ≡ bus_activity_of self.old now pending }
    {
        if pending > self.pending_bytes {
            self.mark_bus_activity(now);
            self.pending_bytes = pending;
        }
    }

    /// mark_rx: a telegram was received.
    #[tactic(auto, unfolding(crate::specs::Steps::rx_of, crate::specs::Parts::with_pending, crate::specs::Parts::with_activity))]
    pub fn mark_rx(&mut self, now: Micros)
        ensures { self.new ≡ rx_of self.old now }
    {
        self.pending_bytes = 0;
        self.mark_bus_activity(now);
    }
}
