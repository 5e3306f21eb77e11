//! A station as 96 bytes in the caller's memory: ten words, and the set of its ring's members. Written, and read again where a station
//! wrote them. It leans on station_words and ring_members for what the bytes hold, on station_lines for what no station has, on trace for
//! the settings.
#![tactic(auto)]

ghost use Rattle.std.specs.Prelude.{◌≡◌, false, cond, [], ◌∷◌, ◌+◌, ◌<◌, ◌≤◌, length, take, drop, ltb};
ghost use Rattle.codec_fields.specs.Fields.{be, load_of};
ghost use Rattle.ring_members.specs.Members.{in_set};
ghost use Rattle.station_bytes.specs.Bytes.{stores_from, five_in, words_in, head_from, words_fit, set_fits, ring_in, found_with, found_in, read_of, unlinked_in, counts_of, words_stored, station_into};

use codec_fields::store;
use ring::TokenRing;
use ring_links::RingLinks;
use ring_members::in_set;
use settings::Parameters;
use station::{Counts, Station};
use station_words::Words;

// The number that four bytes from `at` on are, the first the highest.
#[tactic(auto, using(crate::specs::Laws::four_is))]
fn four(bytes: &[u8], at: usize) -> u64
    requires { at + 4 ≤ length bytes.now }
    ensures { (result ≡ be (take 4 (drop at bytes.now))) × (result < 4294967296) }
{
    u64::from(bytes[at]) * 16777216
        + u64::from(bytes[at + 1]) * 65536
        + u64::from(bytes[at + 2]) * 256
        + u64::from(bytes[at + 3])
}

// The word of the eight bytes from `at` on. In halves, each a sum: so the compiler makes one load of it.
#[tactic(auto, using(crate::specs::Laws::word_is))]
fn word_at(bytes: &[u8], at: usize) -> u64
    requires { at + 8 ≤ length bytes.now }
    ensures { result ≡ load_of bytes.now at 8 }
{
    four(bytes, at) * 4294967296 + four(bytes, at + 4)
}

// Five words one after the other.
#[derive(Clone, Copy)]
struct Five {
    a: u64,
    b: u64,
    c: u64,
    d: u64,
    e: u64,
}

// The five words from `at` on.
#[tactic(auto, unfolding(crate::specs::Bytes::five_in))]
fn read_five(bytes: &[u8], at: usize) -> Five
    requires { at + 40 ≤ length bytes.now }
    ensures { result ≡ five_in bytes.now at }
{
    Five {
        a: word_at(bytes, at),
        b: word_at(bytes, at + 8),
        c: word_at(bytes, at + 16),
        d: word_at(bytes, at + 24),
        e: word_at(bytes, at + 32),
    }
}

// The ten words.
#[tactic(auto, unfolding(crate::specs::Bytes::five_in, crate::specs::Bytes::words_in))]
fn read_words(bytes: &[u8]) -> Words
    requires { 80 ≤ length bytes.now }
    ensures { result ≡ words_in bytes.now }
{
    let one = read_five(bytes, 0);
    let two = read_five(bytes, 40);
    Words {
        first: one.a,
        settings: one.b,
        limits: one.c,
        state: one.d,
        token_time: one.e,
        last_token_time: two.a,
        end_token_hold_time: two.b,
        last_bus_activity: two.c,
        counts: two.d,
        numbers: two.e,
    }
}

/// The ring with these members: own alone, and then the set added. A set that own is in, as it is in what a station writes, is linked
/// in one pass.
#[tactic(auto, using(crate::specs::Laws::ring_linked), unfolding(crate::specs::Bytes::ring_in))]
pub fn make_ring(own: u8, laps: u16, ready: bool, set: &[u8]) -> TokenRing
    ensures { result ≡ ring_in own laps ready set.now }
{
    if own < 126 && in_set(set, own) {
        return TokenRing::from_links(ring_members::link_members(set), own, laps, ready);
    }
    let mut ring = TokenRing::alone(own, laps, ready);
    ring_members::add_members(&mut ring, set);
    ring
}

// The station that words say, with these settings and so many applications, unchecked, and with nobody in its ring.
#[tactic(auto, unfolding(crate::specs::Bytes::head_from))]
fn head_station(p: Parameters, applications: u8, words: Words) -> Station
    ensures { result ≡ head_from p applications words }
{
    Station {
        state: station_words::state_in(words),
        core: station_words::core_in(words),
        token_ring: TokenRing::from_links(
            RingLinks::new(),
            p.address,
            station_words::laps_in(words),
            station_words::ready_in(words),
        ),
        p,
        counts: station_words::counts_in(words),
        applications,
    }
}

// Whether a station can be this one, and writes these words.
#[tactic(auto, unfolding(crate::specs::Bytes::words_fit))]
fn words_fit(station: &Station, words: Words) -> bool
    ensures { result ≡ words_fit station.now words }
{
    station_lines::sound_line(
        station.p,
        station.applications,
        station.state,
        station.core,
        station.token_ring.laps(),
    ) && station_words::same_words(station_words::words_of(station), words)
}

// Whether a station with this address writes this set: its own address is in it, and the two that are none are not.
#[tactic(auto, unfolding(crate::specs::Bytes::set_fits))]
fn set_fits(set: &[u8], own: u8) -> bool
    ensures { result ≡ set_fits set.now own }
{
    in_set(set, own) && !in_set(set, 126) && !in_set(set, 127)
}

// The station that words and a set of members say, where a station writes them, but with nobody in its ring.
#[tactic(auto, using(crate::specs::Laws::found_not, crate::specs::Laws::found_other, crate::specs::Laws::found_head))]
fn found_with(p: Parameters, applications: u8, words: Words, set: &[u8]) -> Option<Station>
    ensures { result ≡ unlinked_in (found_with p applications words set.now) }
{
    if !set_fits(set, p.address) {
        return None;
    }
    let station = head_station(p, applications, words);
    if words_fit(&station, words) {
        Some(station)
    } else {
        None
    }
}

// What words and a set of members are, but with nobody in its ring.
#[tactic(auto, unfolding(crate::specs::Bytes::found_in, crate::specs::Bytes::found_on))]
fn found_in(words: Words, set: &[u8]) -> Option<Station>
    ensures { result ≡ unlinked_in (found_in words set.now) }
{
    let header = station_words::header_in(words);
    let p = trace::header_settings(header).ok()?;
    found_with(p, header.applications, words, set)
}

/// The station that bytes are, or none.
#[tactic(auto, using(crate::specs::Laws::found_whole), unfolding(crate::specs::Bytes::read_of))]
pub fn read_station(bytes: &[u8]) -> Option<Station>
    ensures { result ≡ read_of bytes.now }
{
    if bytes.len() < 96 {
        return None;
    }
    let set = &bytes[80..96];
    let mut station = found_in(read_words(bytes), set)?;
    station.token_ring = make_ring(
        station.token_ring.own(),
        station.token_ring.laps(),
        station.token_ring.ready_for_ring(),
        set,
    );
    Some(station)
}

/// What the station that bytes are has counted, or none where they are no station. Its ring is not made.
#[tactic(auto, unfolding(crate::specs::Bytes::read_of))]
pub fn read_counts(bytes: &[u8]) -> Option<Counts>
    ensures { result ≡ counts_of (read_of bytes.now) }
{
    if bytes.len() < 96 {
        return None;
    }
    let station = found_in(read_words(bytes), &bytes[80..96])?;
    Some(station.counts)
}

// Writes five words one after the other from `at` on.
#[tactic(auto, using(crate::specs::Laws::five_stores))]
fn write_five(out: &mut [u8], at: usize, a: u64, b: u64, c: u64, d: u64, e: u64)
    requires { at ≤ 40 }
    ensures { out.new ≡ stores_from at (a ∷ b ∷ c ∷ d ∷ e ∷ []) out.old }
{
    store(out, at, 8, a);
    store(out, at + 8, 8, b);
    store(out, at + 16, 8, c);
    store(out, at + 24, 8, d);
    store(out, at + 32, 8, e);
}

// Writes the ten words.
#[tactic(auto, unfolding(crate::specs::Bytes::words_stored))]
fn write_words(out: &mut [u8], words: Words)
    ensures { out.new ≡ words_stored out.old words }
{
    write_five(
        out,
        0,
        words.first,
        words.settings,
        words.limits,
        words.state,
        words.token_time,
    );
    write_five(
        out,
        40,
        words.last_token_time,
        words.end_token_hold_time,
        words.last_bus_activity,
        words.counts,
        words.numbers,
    );
}

/// Writes a station into the first 96 bytes; every other byte stays, and all do where there are fewer.
#[tactic(auto, using(crate::specs::Laws::station_stands, crate::specs::Laws::station_too_long))]
pub fn write_station(station: &Station, out: &mut [u8])
    ensures { out.new ≡ station_into out.old station.now }
{
    if out.len() < 96 {
        return;
    }
    write_words(out, station_words::words_of(station));
    ring_members::write_members(station.token_ring.links(), &mut out[80..96]);
}
