ghost use Rattle.std.specs.Prelude.{◌≡◌, ◌||◌, leb};
ghost use Rattle.ring_addresses.specs.Set.{only};
ghost use Rattle.ring.specs.Ring.{make, has, fresh_of, next_of, prev_of, claim_of, add_of, remove_of, counted, witness_of, gap_of, candidate_of};

use crate::GapState;
use ring_addresses::between;
use ring_links::RingLinks;
use std::marker::Model;

/// The stations that pass the token, our own among them, the laps that it went round with the ring unchanged, at most 2 as it counts
/// them, and whether we may be taken in.
#[derive(Clone, Copy)]
pub struct TokenRing {
    links: RingLinks,
    laps: u16,
    own: u8,
    ready: bool,
}

// Clauses see the links and what stands beside them.
impl Model for TokenRing {
    ghost use Rattle.ring.specs.Ring.{Ring};

    ghost Value = { Ring };

    ghost view = { λ r. record { links = r.links; own = r.own; laps = r.laps; ready = r.ready } };

    ghost inverse = { λ r. record { links = r.links; laps = r.laps; own = r.own; ready = r.ready } };
}

impl TokenRing {
    /// Own only, 0 laps, not ready.
    #[tactic(auto, unfolding(crate::specs::Ring::fresh_of))]
    pub fn new(own: u8) -> Self
        ensures { result ≡ fresh_of own }
    {
        TokenRing::alone(own, 0, false)
    }

    /// Own only (nobody, where own is above 125), with these laps.
    #[tactic(auto, using(ring_links::proofs::Alone::alone_linked, ring_links::proofs::Alone::nobody_linked), unfolding(crate::specs::Ring::make))]
    pub fn alone(own: u8, laps: u16, ready: bool) -> Self
        ensures { result ≡ make own (only own) laps ready }
    {
        let mut links = RingLinks::new();
        if own < 126 {
            links.link(own, own);
        }
        TokenRing::from_links(links, own, laps, ready)
    }

    /// A ring with these links, whatever they say.
    pub fn from_links(links: RingLinks, own: u8, laps: u16, ready: bool) -> Self
        ensures { result ≡ record { links = links; own = own; laps = laps; ready = ready } }
    {
        TokenRing {
            links,
            laps,
            own,
            ready,
        }
    }

    /// The links of the ring.
    pub fn links(&self) -> &RingLinks
        ensures { result.now ≡ self.now.links }
    {
        &self.links
    }

    /// Our own address.
    pub fn own(&self) -> u8
        ensures { result ≡ self.now.own }
    {
        self.own
    }

    /// The laps that the token went round with the ring unchanged.
    pub fn laps(&self) -> u16
        ensures { result ≡ self.now.laps }
    {
        self.laps
    }

    /// The member after own: the first going up, 125 followed by 0; `None` when we are alone.
    #[tactic(auto, unfolding(crate::specs::Ring::next_of))]
    pub fn next_station(&self) -> Option<u8>
        ensures { result ≡ next_of self.now }
    {
        if self.own >= 126 {
            return None;
        }
        let next = self.links.after(self.own);
        if next == self.own { None } else { Some(next) }
    }

    /// The member before own: the first going down, 0 followed by 125; own if alone: nobody else can hand us the token then.
    #[tactic(auto, unfolding(crate::specs::Ring::prev_of))]
    pub fn previous_station(&self) -> u8
        ensures { result ≡ prev_of self.now }
    {
        if self.own < 126 {
            self.links.before(self.own)
        } else {
            self.own
        }
    }

    /// Is `address` in the ring? Nobody above 125 is.
    #[tactic(auto, unfolding(crate::specs::Ring::has))]
    pub fn contains(&self, address: u8) -> bool
        ensures { result ≡ has self.now address }
    {
        self.links.contains(address)
    }

    /// Ready to be taken into the ring: the token came round twice with the set unchanged since, or it was claimed.
    pub fn ready_for_ring(&self) -> bool
        ensures { result ≡ self.now.ready }
    {
        self.ready
    }

    /// The token was claimed: ready is set, all else stays.
    #[tactic(auto, unfolding(crate::specs::Ring::claim_of))]
    pub fn claim_token(&mut self)
        ensures { self.new ≡ claim_of self.old }
    {
        self.ready = true;
    }

    /// Adds an address; nothing above 125.
    #[tactic(auto, unfolding(crate::specs::Ring::add_of))]
    pub fn set_next_station(&mut self, address: u8)
        ensures { self.new ≡ add_of self.old address }
    {
        if address < 126 {
            self.links.insert(address);
        }
    }

    /// Takes out an address, any but own.
    #[tactic(auto, unfolding(crate::specs::Ring::remove_of))]
    pub fn remove_station(&mut self, address: u8)
        ensures { self.new ≡ remove_of self.old address }
    {
        if address != self.own && address < 126 {
            self.links.unlink(address);
        }
    }

    // Counts a lap if the token came round, from 0 if the pass changed the set; at 2 laps ready is set, and it stays.
    #[tactic(auto, unfolding(crate::specs::Ring::counted, crate::specs::Ring::laps_of, crate::specs::Ring::round_of))]
    fn count_lap(&mut self, same: bool, s: u8, d: u8)
        ensures { self.new ≡ counted self.old same self.old.links s d }
    {
        if !same {
            self.laps = 0;
        }
        if d <= s {
            self.laps = self.laps.saturating_add(1).min(2);
        }
        self.ready |= self.laps >= 2;
    }

    /// The token was seen to go from `s` to `d`; nothing if either is above 125.
    #[tactic(auto, unfolding(crate::specs::Ring::witness_of, crate::specs::Ring::counted))]
    pub fn witness_token_pass(&mut self, s: u8, d: u8)
        ensures { self.new ≡ witness_of self.old s d }
    {
        if s >= 126 || d >= 126 {
            return;
        }
        let same = self.links.confirms(self.own, s, d);
        if !same {
            self.links.relink(self.own, s, d);
        }
        self.count_lap(same, s, d);
    }

    /// The gap walk from `a`: the candidate is polled if it lies strictly between own and next going up, if alone any but
    /// own; else waiting, count 0. An address above 125 is never polled.
    #[tactic(auto, unfolding(crate::specs::Ring::gap_of, crate::specs::Ring::polls))]
    pub fn next_gap_poll(&self, a: u8, hsa: u8) -> GapState
        ensures { result ≡ gap_of self.now a hsa }
    {
        let x = candidate(a, hsa);
        let polled = match self.next_station() {
            None => x != self.own,
            Some(next) => between(self.own, x, next),
        };
        if x < 126 && polled {
            GapState::DoPoll { current_address: x }
        } else {
            GapState::Waiting { rotation_count: 0 }
        }
    }
}

// The gap walk's candidate after `a`: the next address, or 0 if that is not below the highest station address.
#[tactic(auto, unfolding(crate::specs::Ring::candidate_of))]
fn candidate(a: u8, hsa: u8) -> u8
    ensures { result ≡ candidate_of a hsa }
{
    match a.checked_add(1) {
        Some(x) if x < hsa => x,
        _ => 0,
    }
}
