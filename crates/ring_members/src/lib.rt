//! The members of a ring as a set of bits: 16 bytes, a bit for each address, address 0 the highest bit of the first byte. Read, the
//! addresses are added to a ring one by one, so that a sound ring stays sound whatever the bytes are; or the links of the set are made
//! in one pass. It leans on ring for adding, on ring_links for the links, and on codec_fields for a bit.
#![tactic(auto)]

ghost use Rattle.std.specs.Prelude.{◌≡◌, ℕ, ◌+◌, ◌-◌, ◌*◌, ◌^◌, ◌<◌, ◌≤◌, ◌++◌, false, cond, get_or, take, replicate, eqb};
ghost use Rattle.ring_links.specs.Links.{listed, links_of, tab};
ghost use Rattle.ring_members.specs.Members.{byte_at, in_set, byte_added, set_added, highest_below, chain_of, byte_linked, bytes_linked, weight_of, weighed, eight_added, set_over};

use codec_fields::field;
use ring::TokenRing;
use ring_links::RingLinks;

// The byte at `i`, 0 where the slice ends before.
#[tactic(auto, unfolding(crate::specs::Members::byte_at))]
fn byte_at(set: &[u8], i: usize) -> u8
    ensures { result ≡ byte_at set.now i }
{
    set.get(i).copied().unwrap_or(0)
}

/// Whether `a` is in the set that these bytes are; bytes that are not there are 0.
#[tactic(auto, unfolding(crate::specs::Members::in_set))]
pub fn in_set(set: &[u8], a: u8) -> bool
    ensures { result ≡ in_set set.now a }
{
    field(byte_at(set, (a / 8) as usize) as u64, (7 - a % 8) as u64, 1)
}

// Adds the addresses from `a` on whose bits in a byte are one, the highest bit the first. Most bytes of a set are 0.
#[tactic(auto, unfolding(crate::specs::Members::bit_added, crate::specs::Members::bits_added, crate::specs::Members::byte_added))]
fn add_byte(ring: &mut TokenRing, byte: u8, a: u8)
    requires { a ≤ 120 }
    ensures { ring.new ≡ byte_added ring.old byte a }
{
    if byte == 0 {
        return;
    }
    for k in 0..8u8 {
        if field(byte as u64, (7 - k) as u64, 1) {
            ring.set_next_station(a + k);
        }
    }
}

/// Adds the addresses whose bits are one in the 16 bytes of a set; bytes that are not there are 0.
#[tactic(auto, using(crate::specs::Members::byte_at, crate::specs::Members::byte_added), unfolding(crate::specs::Members::set_added))]
pub fn add_members(ring: &mut TokenRing, set: &[u8])
    ensures { ring.new ≡ set_added ring.old set.now 16 }
{
    for i in 0..16u8 {
        add_byte(ring, byte_at(set, i as usize), 8 * i);
    }
}

// Where the search for the highest address begins: past the last byte of a set that is not 0, or past the first.
#[tactic(auto, using(crate::specs::Members::in_set, crate::proofs::Linked::nobody_from))]
fn search_end(set: &[u8]) -> u8
    ensures low { result ≤ 126 }
    ensures none { (x : ℕ) → result ≤ x → x < 126 → in_set set.now x ≡ false }
{
    for i in (1..16u8).rev() {
        if byte_at(set, i as usize) != 0 {
            return (8 * i + 8).min(126);
        }
    }
    8
}

// The highest address in a set; 0 where there is none.
#[tactic(auto, using(crate::specs::Members::in_set, crate::specs::Members::highest_below, crate::proofs::Linked::highest_from, crate::proofs::Linked::highest_at, crate::proofs::Linked::highest_less, crate::proofs::Linked::highest_none))]
fn highest(set: &[u8]) -> u8
    ensures is { result ≡ highest_below (in_set set.now) 126 }
    ensures low { result < 126 }
{
    for a in (0..search_end(set)).rev() {
        if in_set(set, a) {
            return a;
        }
    }
    0
}

// Links the addresses from `a` on whose bits are one among the first `count` of a byte, each behind the one before it; who is the last
// then. Most bytes of a set are 0.
#[tactic(auto, using(crate::specs::Members::chain_of), unfolding(ring_links::specs::Links::link_of, crate::specs::Members::bit_linked, crate::specs::Members::bits_linked, crate::specs::Members::byte_linked))]
fn link_byte(links: &mut RingLinks, byte: u8, a: u8, count: u8, before: u8) -> u8
    requires before { before < 126 }
    requires addresses { a + count ≤ 126 }
    requires bits { count ≤ 8 }
    ensures linked { chain_of links.new result ≡ byte_linked (chain_of links.old before) byte a count }
    ensures low { result < 126 }
{
    if byte == 0 {
        return before;
    }
    let mut last = before;
    for k in 0..count {
        if field(byte as u64, (7 - k) as u64, 1) {
            links.link(last, a + k);
            last = a + k;
        }
    }
    last
}

// Links the addresses of the first 15 bytes of a set.
#[tactic(auto, using(crate::specs::Members::byte_at, crate::specs::Members::chain_of, crate::specs::Members::byte_linked), unfolding(crate::specs::Members::bytes_linked))]
fn link_bytes(links: &mut RingLinks, set: &[u8], before: u8) -> u8
    requires { before < 126 }
    ensures linked { chain_of links.new result ≡ bytes_linked (chain_of links.old before) set.now 15 }
    ensures low { result < 126 }
{
    let mut last = before;
    for i in 0..15u8 {
        last = link_byte(links, byte_at(set, i as usize), 8 * i, 8, last);
    }
    last
}

/// The links of the addresses in a set. The first comes behind the highest.
pub fn link_members(set: &[u8]) -> RingLinks
    ensures { result ≡ links_of (in_set set.now) }
{
    let mut links = RingLinks::new();
    let last = link_bytes(&mut links, set, highest(set));
    link_byte(&mut links, byte_at(set, 15), 120, 6, last);
    links
}

// The weight of each address in its byte; the two that are none have 0.
#[tactic(auto, unfolding(ring_links::specs::Links::tab, crate::specs::Members::weight_of))]
fn weights() -> [u8; 128]
    ensures { result ≡ tab weight_of 128 0 }
{
    [
        128, 64, 32, 16, 8, 4, 2, 1, 128, 64, 32, 16, 8, 4, 2, 1, 128, 64, 32, 16, 8, 4, 2, 1, 128,
        64, 32, 16, 8, 4, 2, 1, 128, 64, 32, 16, 8, 4, 2, 1, 128, 64, 32, 16, 8, 4, 2, 1, 128, 64,
        32, 16, 8, 4, 2, 1, 128, 64, 32, 16, 8, 4, 2, 1, 128, 64, 32, 16, 8, 4, 2, 1, 128, 64, 32,
        16, 8, 4, 2, 1, 128, 64, 32, 16, 8, 4, 2, 1, 128, 64, 32, 16, 8, 4, 2, 1, 128, 64, 32, 16,
        8, 4, 2, 1, 128, 64, 32, 16, 8, 4, 2, 1, 128, 64, 32, 16, 8, 4, 2, 1, 128, 64, 32, 16, 8,
        4, 0, 0,
    ]
}

// A weight, where a link is one.
fn weight(link: u8, bit: u8) -> u8
    ensures { result ≡ cond (eqb link 127) 0 bit }
{
    if link == 127 { 0 } else { bit }
}

// The member after each address, filled up to whole sixteens.
fn entries(links: &RingLinks) -> [u8; 128]
    ensures { result ≡ take 126 links.now ++ replicate 2 127 }
{
    let mut entries = [127; 128];
    entries[..126].copy_from_slice(links.members_after());
    entries
}

// The weights of the members, 0 for all others. In a loop by itself: so the compiler weighs sixteen at a time.
#[tactic(auto, using(crate::proofs::WeightLaws::weighed_none, crate::proofs::WeightLaws::weighed_more, crate::proofs::WeightLaws::weighed_all))]
fn weigh(links: &RingLinks) -> [u8; 128]
    ensures { result ≡ tab (weighed links.now) 128 0 }
{
    let entries = entries(links);
    let mut weighed = weights();
    // By index: nothing is known of what a zip over iter_mut writes.
    for (a, entry) in entries.iter().enumerate() {
        weighed[a] = weight(*entry, weighed[a]);
    }
    weighed
}

// Eight weights of a byte added.
#[tactic(auto, using(crate::proofs::WeightLaws::eight_fit), unfolding(crate::specs::Members::eight_added))]
fn add_eight(weighed: &[u8; 128], a: usize) -> u8
    requires { (a ≤ 120) × ((k : ℕ) → k < 8 → get_or weighed.now (a + k) 0 ≤ 2 ^ (7 - k)) }
    ensures { result ≡ eight_added weighed.now a }
{
    weighed[a]
        + weighed[a + 1]
        + weighed[a + 2]
        + weighed[a + 3]
        + weighed[a + 4]
        + weighed[a + 5]
        + weighed[a + 6]
        + weighed[a + 7]
}

/// Writes the set of the members into the first 16 bytes; every other byte stays, and all do where there are fewer.
#[tactic(auto, using(ring_links::specs::Links::listed, crate::proofs::WeightLaws::weight_most, crate::proofs::WeightLaws::byte_added_up), unfolding(crate::specs::Members::set_written, crate::specs::Members::set_over))]
pub fn write_members(links: &RingLinks, out: &mut [u8])
    ensures { out.new ≡ set_over out.old (listed links.now) }
{
    if out.len() < 16 {
        return;
    }
    let weighed = weigh(links);
    for (i, byte) in out[..16].iter_mut().enumerate() {
        *byte = add_eight(&weighed, 8 * i);
    }
}
