//! What a station's bytes hold besides its ring's members, as ten words: written from a station, and its parts read from them. It
//! leans on station_numbers for the state, on settings_build and trace_headers for the settings, on codec_fields for the fields.
#![tactic(auto)]

ghost use Rattle.std.specs.Prelude.{◌≡◌};
ghost use Rattle.station_words.specs.Words.{connectivity_number, connectivity_of, activity_time, activity_of, gap_polls, gap_number, gap_of, first_word, settings_word, limits_word, counts_word, numbers_word, words_of, state_in, core_in, counts_in, laps_in, ready_in, header_in, same_five, same_words};

use bit_times::Micros;
use codec_fields::{field, put};
use ring::{GapState, TokenRing};
use settings_build::PlainSettings;
use station::{ConnectivityState, Core, Counts, State, Station};
use station_numbers::{numbers_in, state_from, state_numbers, state_word};
use trace_headers::Header;

/// The words, in the order of their bytes.
#[derive(Clone, Copy, Debug, PartialEq, Eq)]
pub struct Words {
    pub first: u64,
    pub settings: u64,
    pub limits: u64,
    pub state: u64,
    pub token_time: u64,
    pub last_token_time: u64,
    pub end_token_hold_time: u64,
    pub last_bus_activity: u64,
    pub counts: u64,
    pub numbers: u64,
}

// The parts of a core.

// The number of a connectivity state.
fn connectivity_number(connectivity: ConnectivityState) -> u8
    ensures { result ≡ connectivity_number connectivity }
{
    match connectivity {
        ConnectivityState::Offline => 0,
        ConnectivityState::Passive => 1,
        ConnectivityState::Online => 2,
    }
}

// The connectivity state of a number; offline where there is none.
#[tactic(auto, unfolding(crate::specs::Words::connectivity_of))]
fn connectivity_of(number: u8) -> ConnectivityState
    ensures { result ≡ connectivity_of number }
{
    match number {
        1 => ConnectivityState::Passive,
        2 => ConnectivityState::Online,
        _ => ConnectivityState::Offline,
    }
}

// The time of the last bus activity, 0 where none is known.
fn activity_time(activity: Option<Micros>) -> u64
    ensures { result ≡ activity_time activity }
{
    activity.map_or(0, |last| last.0)
}

// The last bus activity, by whether it is known and its time.
#[tactic(auto, unfolding(crate::specs::Words::activity_of))]
fn activity_of(known: bool, time: u64) -> Option<Micros>
    ensures { result ≡ activity_of known time }
{
    if known { Some(Micros(time)) } else { None }
}

// Whether the gap is polled.
fn gap_polls(gap: GapState) -> bool
    ensures { result ≡ gap_polls gap }
{
    matches!(gap, GapState::DoPoll { .. })
}

// The count or the address of a gap state.
fn gap_number(gap: GapState) -> u16
    ensures { result ≡ gap_number gap }
{
    match gap {
        GapState::Waiting { rotation_count } => rotation_count,
        GapState::DoPoll { current_address } => u16::from(current_address),
    }
}

// The gap state, by whether the gap is polled and its number.
#[tactic(auto, unfolding(crate::specs::Words::gap_of))]
fn gap_of(polls: bool, number: u8) -> GapState
    ensures { result ≡ gap_of polls number }
{
    if polls {
        GapState::DoPoll {
            current_address: number,
        }
    } else {
        GapState::Waiting {
            rotation_count: u16::from(number),
        }
    }
}

// The words of a station.

// The first word: the edition, and the small parts of the core and of the ring.
#[tactic(auto, unfolding(crate::specs::Words::first_word))]
fn first_word(core: Core, ring: &TokenRing) -> u64
    ensures { result ≡ first_word core ring.now.laps ring.now.ready }
{
    let mut word = put(0, 8, 1u8);
    word = put(word, 8, connectivity_number(core.connectivity_state));
    word = put(word, 8, core.next_application);
    word = put(word, 16, ring.laps());
    word = put(word, 21, 0u32);
    word = put(word, 1, ring.ready_for_ring());
    word = put(word, 1, gap_polls(core.gap_state));
    put(word, 1, core.last_bus_activity.is_some())
}

// The first half of the settings, as in a header of edition 1.
#[tactic(auto, unfolding(crate::specs::Words::settings_word))]
fn settings_word(plain: PlainSettings) -> u64
    ensures { result ≡ settings_word plain }
{
    let mut word = put(0, 8, plain.address);
    word = put(word, 8, plain.baud_code);
    word = put(word, 16, plain.slot_bits);
    put(word, 32, plain.token_rotation_bits)
}

// The second half.
#[tactic(auto, unfolding(crate::specs::Words::limits_word))]
fn limits_word(plain: PlainSettings, applications: u8) -> u64
    ensures { result ≡ limits_word plain applications }
{
    let mut word = put(0, 8, plain.gap_wait_rotations);
    word = put(word, 8, plain.highest_station_address);
    word = put(word, 8, plain.max_retry_limit);
    word = put(word, 8, plain.min_tsdr_bits);
    word = put(word, 8, applications);
    word = put(word, 8, plain.factor_1);
    word = put(word, 8, plain.factor_2);
    put(word, 8, 0u8)
}

// Two of the counts.
#[tactic(auto, unfolding(crate::specs::Words::counts_word))]
fn counts_word(counts: Counts) -> u64
    ensures { result ≡ counts_word counts }
{
    put(put(0, 32, counts.claims), 32, counts.removals)
}

// The third count, the pending bytes and the gap state's number.
#[tactic(auto, unfolding(crate::specs::Words::numbers_word))]
fn numbers_word(counts: Counts, core: Core) -> u64
    ensures { result ≡ numbers_word counts core }
{
    let mut word = put(0, 32, counts.meetings);
    word = put(word, 16, core.pending_bytes);
    word = put(word, 8, 0u8);
    put(word, 8, gap_number(core.gap_state))
}

/// The words of a station.
#[tactic(auto, unfolding(crate::specs::Words::words_of))]
pub fn words_of(station: &Station) -> Words
    ensures { result ≡ words_of station.now.state station.now.core station.now.token_ring.laps station.now.token_ring.ready station.now.p station.now.applications station.now.counts }
{
    let core = station.core;
    let numbers = state_numbers(station.state);
    let plain = PlainSettings::from(station.p);
    Words {
        first: first_word(core, &station.token_ring),
        settings: settings_word(plain),
        limits: limits_word(plain, station.applications),
        state: state_word(numbers),
        token_time: numbers.token_time,
        last_token_time: core.last_token_time.0,
        end_token_hold_time: core.end_token_hold_time.0,
        last_bus_activity: activity_time(core.last_bus_activity),
        counts: counts_word(station.counts),
        numbers: numbers_word(station.counts, core),
    }
}

// A station's parts, read from its words.

/// The state.
#[tactic(auto, unfolding(crate::specs::Words::state_in))]
pub fn state_in(words: Words) -> State
    ensures { result ≡ state_in words }
{
    state_from(numbers_in(words.state, words.token_time))
}

/// The core.
#[tactic(auto, unfolding(crate::specs::Words::core_in))]
pub fn core_in(words: Words) -> Core
    ensures { result ≡ core_in words }
{
    let first = words.first;
    let numbers = words.numbers;
    Core {
        last_token_time: Micros(words.last_token_time),
        end_token_hold_time: Micros(words.end_token_hold_time),
        last_bus_activity: activity_of(field(first, 0, 1), words.last_bus_activity),
        gap_state: gap_of(field(first, 1, 1), field(numbers, 0, 8)),
        pending_bytes: field(numbers, 16, 16),
        next_application: field(first, 40, 8),
        connectivity_state: connectivity_of(field(first, 48, 8)),
    }
}

/// The counts.
#[tactic(auto, unfolding(crate::specs::Words::counts_in))]
pub fn counts_in(words: Words) -> Counts
    ensures { result ≡ counts_in words }
{
    Counts {
        claims: field(words.counts, 32, 32),
        removals: field(words.counts, 0, 32),
        meetings: field(words.numbers, 32, 32),
    }
}

/// The laps of the ring.
#[tactic(auto, unfolding(crate::specs::Words::laps_in))]
pub fn laps_in(words: Words) -> u16
    ensures { result ≡ laps_in words }
{
    field(words.first, 24, 16)
}

/// Whether the ring is ready.
#[tactic(auto, unfolding(crate::specs::Words::ready_in))]
pub fn ready_in(words: Words) -> bool
    ensures { result ≡ ready_in words }
{
    field(words.first, 2, 1)
}

/// The header, unchecked.
#[tactic(auto, unfolding(crate::specs::Words::header_in))]
pub fn header_in(words: Words) -> Header
    ensures { result ≡ header_in words }
{
    let settings = words.settings;
    let limits = words.limits;
    Header {
        settings: PlainSettings {
            token_rotation_bits: field(settings, 0, 32),
            slot_bits: field(settings, 32, 16),
            address: field(settings, 56, 8),
            baud_code: field(settings, 48, 8),
            gap_wait_rotations: field(limits, 56, 8),
            highest_station_address: field(limits, 48, 8),
            max_retry_limit: field(limits, 40, 8),
            min_tsdr_bits: field(limits, 32, 8),
            factor_1: field(limits, 16, 8),
            factor_2: field(limits, 8, 8),
        },
        applications: field(limits, 24, 8),
        zero_bits: field(limits, 0, 8),
    }
}

// Whether two times five words are the same.
#[tactic(auto, unfolding(crate::specs::Words::same_five))]
fn same_five(a: u64, b: u64, c: u64, d: u64, e: u64, f: u64, g: u64, h: u64, i: u64, j: u64) -> bool
    ensures { result ≡ same_five a b c d e f g h i j }
{
    a == f && b == g && c == h && d == i && e == j
}

/// Whether two are the same, word by word.
#[tactic(auto, unfolding(crate::specs::Words::same_words))]
pub fn same_words(a: Words, b: Words) -> bool
    ensures { result ≡ same_words a b }
{
    same_five(
        a.first,
        a.settings,
        a.limits,
        a.state,
        a.token_time,
        b.first,
        b.settings,
        b.limits,
        b.state,
        b.token_time,
    ) && same_five(
        a.last_token_time,
        a.end_token_hold_time,
        a.last_bus_activity,
        a.counts,
        a.numbers,
        b.last_token_time,
        b.end_token_hold_time,
        b.last_bus_activity,
        b.counts,
        b.numbers,
    )
}
