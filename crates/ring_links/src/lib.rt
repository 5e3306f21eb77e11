//! The links of the ring (document 02, P8): two tables, the member after each address and the member before it, 127 where an address
//! is no member. `ring` keeps one, and asks for addresses below 126 alone.
#![tactic(auto)]

ghost use Rattle.std.specs.Prelude.{◌≡◌, ◌+◌, ◌<◌, ◌++◌, false, get_or, replicate, take};
ghost use Rattle.ring_addresses.specs.Set.{down, nearest};
ghost use Rattle.ring_links.specs.Links.{listed, link_of, unlink_of, behind_of, insert_of, sweep_of, relink_of, confirms_of};

use std::marker::Model;

/// Who comes after each address, and who comes before it; 127 where an address is no member.
#[derive(Clone, Copy)]
pub struct RingLinks {
    next: [u8; 126],
    previous: [u8; 126],
}

// Clauses see the two tables as one list, the first before the second.
impl Model for RingLinks {
    ghost use Rattle.std.specs.Prelude.{◌≡◌, List, ℕ, ◌++◌, length, take, drop};
    ghost use Rattle.std.proofs.lemmas.List.{take_at, drop_at};

    ghost Value = { List ℕ };

    ghost view = { λ l. l.next ++ l.previous };

    ghost invariant = { λ l. length l.next ≡ 126 };

    ghost inverse = { λ tables. record { next = take 126 tables; previous = drop 126 tables } };

    ghost inverse_ok = { λ l h i. record {
      next = take_at l.next l.previous 126 h i;
      previous = drop_at l.next l.previous 126 h i;
    } };
}

impl RingLinks {
    /// Links in which nobody is.
    #[tactic(auto, using(crate::proofs::Entries::nobody_in))]
    pub fn new() -> Self
        ensures { result ≡ replicate 252 127 }
    {
        RingLinks::from_tables([127; 126], [127; 126])
    }

    /// Links of two tables, whatever they hold.
    pub fn from_tables(next: [u8; 126], previous: [u8; 126]) -> Self
        ensures { result ≡ next ++ previous }
    {
        RingLinks { next, previous }
    }

    /// The member after an address; 127 where that is no member.
    #[tactic(auto, using(crate::proofs::Entries::entry_after))]
    pub fn after(&self, a: u8) -> u8
        requires { a < 126 }
        ensures { result ≡ get_or self.now a 0 }
    {
        self.next[a as usize]
    }

    /// The member after each address, 127 for those that are none.
    #[tactic(auto, using(crate::proofs::Entries::first_table))]
    pub fn members_after(&self) -> &[u8; 126]
        ensures { result.now ≡ take 126 self.now }
    {
        &self.next
    }

    /// The member before an address; 127 where that is no member.
    #[tactic(auto, using(crate::proofs::Entries::entry_before))]
    pub fn before(&self, a: u8) -> u8
        requires { a < 126 }
        ensures { result ≡ get_or self.now (126 + a) 0 }
    {
        self.previous[a as usize]
    }

    /// Is `a` a member? Nobody above 125 is.
    #[tactic(auto, using(crate::proofs::Entries::entry_after), unfolding(crate::specs::Links::listed))]
    pub fn contains(&self, a: u8) -> bool
        ensures { result ≡ listed self.now a }
    {
        a < 126 && self.next[a as usize] != 127
    }

    /// `y` comes after `x`, and `x` before `y`.
    #[tactic(auto, using(crate::proofs::Entries::linked), unfolding(crate::specs::Links::link_of))]
    pub fn link(&mut self, x: u8, y: u8)
        requires x { x < 126 }
        requires y { y < 126 }
        ensures { self.new ≡ link_of self.old x y }
    {
        self.next[x as usize] = y;
        self.previous[y as usize] = x;
    }

    /// Takes `a` out: who was before it and who was after it are linked, and it holds 127 twice. A non-member has no neighbours.
    #[tactic(auto, using(crate::proofs::Entries::linked, crate::proofs::Entries::entry_after, crate::proofs::Entries::entry_before), unfolding(crate::specs::Links::unlink_of, crate::specs::Links::link_of))]
    pub fn unlink(&mut self, a: u8)
        requires { a < 126 }
        ensures { self.new ≡ unlink_of self.old a }
    {
        let after = self.after(a);
        let before = self.before(a);
        if after < 126 && before < 126 {
            self.link(before, after);
            self.next[a as usize] = 127;
            self.previous[a as usize] = 127;
        }
    }

    // The first member going down from `a`; `a` if there is no other.
    #[tactic(auto, using(crate::proofs::Walks::member_met, crate::proofs::Walks::member_passed, crate::proofs::Walks::all_passed))]
    fn member_below(&self, a: u8) -> u8
        requires { a < 126 }
        ensures { result ≡ nearest false (listed self.now) a }
    {
        let mut distance = 1;
        loop {
            if distance >= 126 {
                break a;
            }
            let x = address_below(a, distance);
            if self.contains(x) {
                break x;
            }
            distance += 1;
        }
    }

    // Puts `a` between `p` and the one after `p`.
    #[tactic(auto, unfolding(crate::specs::Links::behind_of))]
    fn insert_behind(&mut self, p: u8, a: u8)
        requires p { p < 126 }
        requires a { a < 126 }
        ensures { self.new ≡ behind_of self.old p a }
    {
        let behind = self.after(p);
        if behind < 126 {
            self.link(p, a);
            self.link(a, behind);
        }
    }

    /// Puts `a` in, where it is no member yet.
    #[tactic(auto, using(crate::specs::Sets::nearest_low), unfolding(crate::specs::Links::insert_of))]
    pub fn insert(&mut self, a: u8)
        requires { a < 126 }
        ensures { self.new ≡ insert_of self.old a }
    {
        if !self.contains(a) {
            let p = self.member_below(a);
            self.insert_behind(p, a);
        }
    }

    // Takes out who stands between `s` and `d`, but for own, from which the way goes on. No way has more than 126 steps.
    #[tactic(auto, using(crate::proofs::Sweeps::sweep_start, crate::proofs::Sweeps::sweep_lost_here, crate::proofs::Sweeps::sweep_met_here, crate::proofs::Sweeps::sweep_ends, crate::proofs::Sweeps::sweep_passes, crate::proofs::Sweeps::sweep_takes))]
    fn sweep(&mut self, own: u8, s: u8, d: u8)
        requires { s < 126 }
        ensures { self.new ≡ sweep_of own d 126 s self.old }
    {
        let mut place = s;
        for _step in 0..126u8 {
            let met = self.after(place);
            if met >= 126 || met == d {
                return;
            }
            if met == own {
                place = met;
            } else {
                self.unlink(met);
            }
        }
    }

    /// The links after a pass from `s` to `d` that they did not say: both are put in, and who stands between them goes, but for own.
    #[tactic(auto, unfolding(crate::specs::Links::relink_of))]
    pub fn relink(&mut self, own: u8, s: u8, d: u8)
        requires s { s < 126 }
        requires d { d < 126 }
        ensures { self.new ≡ relink_of own self.old s d }
    {
        self.insert(s);
        if s != d {
            self.insert(d);
            self.sweep(own, s, d);
        }
    }

    /// Do the links say already that the token goes from `s` to `d`? `d` comes after `s`, or own does, and `d` after own; a member
    /// may keep the token.
    #[tactic(auto, unfolding(crate::specs::Links::confirms_of, crate::specs::Links::follows_of))]
    pub fn confirms(&self, own: u8, s: u8, d: u8) -> bool
        requires { s < 126 }
        ensures { result ≡ confirms_of own self.now s d }
    {
        if s == d {
            return self.contains(s);
        }
        let after = self.after(s);
        after == d || (after == own && own < 126 && self.after(own) == d)
    }
}

// The address at this distance below `a`, 0 followed by 125.
fn address_below(a: u8, distance: u8) -> u8
    requires a { a < 126 }
    requires distance { distance < 126 }
    ensures { result ≡ down a distance }
{
    if distance <= a {
        a - distance
    } else {
        126 - (distance - a)
    }
}
