//! Sets of the 126 bus addresses (specs/Set.antt): who is met first from an address on, going up or down, and what a token
//! pass leaves, with their laws; and what lies between two addresses, the one question of these that code asks. The words of
//! specs/Words.antt are how the ring was kept before its tables. It leans on no other crate.
#![tactic(auto)]

ghost use Rattle.std.specs.Prelude.{◌≡◌};
ghost use Rattle.ring_addresses.specs.Set.{between_of};

/// Does `x` lie strictly between `a` and `b` going up, 125 followed by 0?
#[tactic(auto, unfolding(crate::specs::Set::between_of))]
pub fn between(a: u8, x: u8, b: u8) -> bool
    ensures { result ≡ between_of a x b }
{
    if a < b {
        a < x && x < b
    } else {
        a != b && (a < x || x < b)
    }
}
