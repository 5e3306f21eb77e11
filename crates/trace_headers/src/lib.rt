//! A trace's header in its two editions (document 01, "Trace", and request P9): 16 bytes, and 14 bytes that begin with 82h. Both are
//! read as the same plain numbers and refused by the same rules. It leans on settings_build and settings_rules for what they are
//! refused by, on codec_slices for the fields and on codec_fields for the zero bits.
#![tactic(auto)]

ghost use Rattle.std.specs.Prelude.{◌≡◌, ◌+◌, ◌≤◌, length};
ghost use Rattle.refusals.specs.Refusals.{number_in};
ghost use Rattle.codec_slices.specs.Slices.{field_at};
ghost use Rattle.trace_headers.specs.declared.Edition.TheVariants as edition;
ghost use Rattle.trace_headers.specs.Headers.{edition_of, length_of, header_length, header_in, no_header, header_of, header_refusal};

use codec_fields::check_zero;
use codec_slices::field_at;
use refusals::Refusal;
use settings_build::PlainSettings;
use settings_rules::{check_applications, check_factors};

/// A header as plain numbers, unchecked: the same in both editions.
#[derive(Clone, Copy, Debug, PartialEq, Eq)]
pub struct Header {
    pub settings: PlainSettings,
    pub applications: u8,
    pub zero_bits: u8,
}

/// The two editions of a header.
#[derive(Clone, Copy, Debug, PartialEq, Eq)]
pub enum Edition {
    First,
    Second,
}

impl Edition {
    /// The edition of what begins with these bytes: 82h says edition 2.
    #[tactic(auto, using(crate::specs::Laws::first_of_none), unfolding(crate::specs::Headers::edition_of))]
    pub fn of(trace: &[u8]) -> Edition
        ensures { result ≡ edition_of trace.now }
    {
        match trace {
            [0x82, ..] => Edition::Second,
            _ => Edition::First,
        }
    }

    /// The bytes of a header of this edition.
    #[tactic(auto, unfolding(crate::specs::Headers::length_of))]
    pub fn length(self) -> usize
        ensures { (result ≡ length_of self) × (result ≤ 16) }
    {
        match self {
            Edition::First => 16,
            Edition::Second => 14,
        }
    }
}

/// The bytes of the header that these bytes begin with.
pub fn header_length(trace: &[u8]) -> usize
    ensures { (result ≡ header_length trace.now) × (result ≤ 16) }
{
    Edition::of(trace).length()
}

// What the 16 bytes of an edition 1 header say.
fn read_first(bytes: &[u8]) -> Header
    requires { length bytes.now ≡ 16 }
    ensures { result ≡ header_in edition.First bytes.now }
{
    Header {
        settings: PlainSettings {
            token_rotation_bits: field_at(bytes, 32, 32),
            slot_bits: field_at(bytes, 16, 16),
            address: field_at(bytes, 0, 8),
            baud_code: field_at(bytes, 8, 8),
            gap_wait_rotations: field_at(bytes, 64, 8),
            highest_station_address: field_at(bytes, 72, 8),
            max_retry_limit: field_at(bytes, 80, 8),
            min_tsdr_bits: field_at(bytes, 88, 8),
            factor_1: field_at(bytes, 104, 8),
            factor_2: field_at(bytes, 112, 8),
        },
        applications: field_at(bytes, 96, 8),
        zero_bits: field_at(bytes, 120, 8),
    }
}

// The applications of edition 2, which holds one less in 3 bits.
#[tactic(auto, using(codec_slices::proofs::Parts::field_small))]
fn applications(bytes: &[u8]) -> u8
    ensures { result ≡ field_at bytes.now 86 3 + 1 }
{
    field_at::<u8>(bytes, 86, 3) + 1
}

// What the 14 bytes of an edition 2 header say.
fn read_second(bytes: &[u8]) -> Header
    requires { length bytes.now ≡ 14 }
    ensures { result ≡ header_in edition.Second bytes.now }
{
    Header {
        settings: PlainSettings {
            token_rotation_bits: field_at(bytes, 35, 25),
            slot_bits: field_at(bytes, 19, 16),
            address: field_at(bytes, 8, 7),
            baud_code: field_at(bytes, 15, 4),
            gap_wait_rotations: field_at(bytes, 60, 7),
            highest_station_address: field_at(bytes, 67, 7),
            max_retry_limit: field_at(bytes, 74, 4),
            min_tsdr_bits: field_at(bytes, 78, 8),
            factor_1: field_at(bytes, 89, 8),
            factor_2: field_at(bytes, 97, 8),
        },
        applications: applications(bytes),
        zero_bits: field_at(bytes, 105, 7),
    }
}

// A header all of whose numbers are zero.
#[tactic(auto, unfolding(crate::specs::Headers::no_header))]
fn no_header() -> Header
    ensures { result ≡ no_header }
{
    Header {
        settings: PlainSettings {
            token_rotation_bits: 0,
            slot_bits: 0,
            address: 0,
            baud_code: 0,
            gap_wait_rotations: 0,
            highest_station_address: 0,
            max_retry_limit: 0,
            min_tsdr_bits: 0,
            factor_1: 0,
            factor_2: 0,
        },
        applications: 0,
        zero_bits: 0,
    }
}

impl Header {
    /// The header that these bytes begin with, in either edition; all numbers zero where they end inside it.
    #[tactic(auto, unfolding(crate::specs::Headers::header_of, crate::specs::Headers::length_of))]
    pub fn read(trace: &[u8]) -> Header
        ensures { result ≡ header_of trace.now }
    {
        let edition = Edition::of(trace);
        let length = edition.length();
        if trace.len() < length {
            return no_header();
        }
        match edition {
            Edition::First => read_first(&trace[0..length]),
            Edition::Second => read_second(&trace[0..length]),
        }
    }

    /// Refused with its first refusal, in document 01's order with 25 directly after 4: 1, 10, 2, 3, 4, 25, 5, 6, 7, 11, 8, 14.
    #[tactic(auto, using(refusals::proofs::Numbers::refused), unfolding(crate::specs::Headers::header_refusal))]
    pub fn check(self) -> Result<(), Refusal>
        ensures { number_in result ≡ header_refusal self }
    {
        self.settings.check_early()?;
        check_applications(self.applications)?;
        check_factors(self.settings.factor_1, self.settings.factor_2)?;
        check_zero(u64::from(self.zero_bits))
    }
}
