//! A header of edition 1 as a settings record in the caller's memory: 16 bytes that a host makes with the defaults, changes setting by
//! setting, and has checked as a whole. What is refused and what a setter sets is said by settings, settings_build and trace_headers,
//! and not again here. It leans on trace_headers to read a header and on trace_headers_written to write it.
#![tactic(auto)]

ghost use Rattle.std.specs.Prelude.{◌≡◌, length};
ghost use Rattle.refusals.specs.Refusals.{number_in};
ghost use Rattle.settings.specs.Settings.{slot_bits_of, hsa_of, rotation_of, gap_wait_of, retry_of, min_tsdr_of, watchdog_of};
ghost use Rattle.trace_headers.specs.Finished.{header_with};
ghost use Rattle.settings_header.specs.SettingsHeader.{loosened, settings_in, lent_refusal, settings_at, Changes, set_number, set_into, new_number, new_into, finish_number};

use refusals::Refusal;
use settings::{NotSet, Parameters};
use settings_build::PlainSettings;
use settings_rules::{check_applications, check_rotation};
use trace_headers::{Edition, Header};
use trace_headers_written::write_header;

// The bytes of a settings record: those of a header of edition 1.
const RECORD_LENGTH: usize = 16;

// The header with these settings and so many applications.
fn header_with(p: Parameters, applications: u8) -> Header
    ensures { result ≡ header_with p applications }
{
    Header {
        settings: PlainSettings::from(p),
        applications,
        zero_bits: 0,
    }
}

// A header with room for a gap poll, where its rotation is one that the rotation's own rule takes.
#[tactic(auto, using(refusals::proofs::Numbers::refused), unfolding(crate::specs::SettingsHeader::loosened, crate::specs::SettingsHeader::with_header_rotation))]
fn loosen(mut header: Header) -> Header
    ensures { result ≡ loosened header }
{
    if check_rotation(header.settings.token_rotation_bits).is_ok() {
        header.settings.token_rotation_bits = 16_777_960;
    }
    header
}

// The settings of a header, with or without room for a gap poll, or its first refusal for another reason than 25.
#[tactic(auto, using(refusals::proofs::Numbers::refused, refusals::proofs::Numbers::named_back), unfolding(crate::specs::SettingsHeader::settings_in, crate::specs::SettingsHeader::with_settings_rotation))]
fn settings_in(header: Header) -> Result<Parameters, Refusal>
    ensures { result ≡ settings_in header }
{
    let loose = loosen(header);
    loose.check()?;
    let mut p = Parameters::try_from(loose.settings)?;
    p.token_rotation_bits = header.settings.token_rotation_bits;
    Ok(p)
}

// Refuses bytes that are no settings record: with 17 where they are too few, then with 1 for edition 2, whose first byte is no address.
#[tactic(auto, unfolding(trace_headers::specs::Headers::length_of, crate::specs::SettingsHeader::lent_refusal, crate::specs::SettingsHeader::edition_refusal))]
fn check_lent(header: &[u8]) -> Result<(), Refusal>
    ensures { number_in result ≡ lent_refusal header.now }
{
    if header.len() < RECORD_LENGTH {
        return Err(Refusal::TraceLength);
    }
    match Edition::of(header) {
        Edition::First => Ok(()),
        Edition::Second => Err(Refusal::Address),
    }
}

// The settings that a setter finds in the record, or the refusal of the record.
#[tactic(auto, using(refusals::proofs::Numbers::refused, refusals::proofs::Numbers::named_back), unfolding(crate::specs::SettingsHeader::settings_at))]
fn settings_at(header: &[u8]) -> Result<Parameters, Refusal>
    ensures { result ≡ settings_at header.now }
{
    check_lent(header)?;
    settings_in(Header::read(header))
}

// Changes the settings that the record holds by a setter; its applications stay. A refused call leaves the bytes as they were.
#[tactic(auto, unfolding(crate::specs::SettingsHeader::stored_after))]
fn change<F: FnOnce(Parameters) -> Result<Parameters, NotSet>>(
    header: &mut [u8],
    set: F,
) -> Result<(), Refusal>
    requires { F.IsAlwaysCallable set }
    ensures { Changes (F.post set) header.old result header.new }
{
    let p = set(settings_at(header)?)?;
    let kept = Header::read(header);
    write_header(header, Edition::First, header_with(p, kept.applications));
    Ok(())
}

// The setters: each is the setter of `settings` on the settings that the record holds. A refused call leaves the bytes as they were.

/// The slot time in bits.
#[tactic(auto, unfolding(crate::specs::SettingsHeader::set_number, crate::specs::SettingsHeader::set_into, crate::specs::SettingsHeader::number_on, crate::specs::SettingsHeader::bytes_on))]
pub fn set_slot_bits(header: &mut [u8], slot_bits: u16) -> Result<(), Refusal>
    ensures value { number_in result ≡ set_number (λ p. slot_bits_of p slot_bits) header.old }
    ensures header_after { header.new ≡ set_into (λ p. slot_bits_of p slot_bits) header.old }
{
    change(header, |p| p.slot_bits(slot_bits))
}

/// The highest station address; it also sets the rotation.
#[tactic(auto, unfolding(crate::specs::SettingsHeader::set_number, crate::specs::SettingsHeader::set_into, crate::specs::SettingsHeader::number_on, crate::specs::SettingsHeader::bytes_on))]
pub fn set_highest_station_address(header: &mut [u8], hsa: u8) -> Result<(), Refusal>
    ensures value { number_in result ≡ set_number (λ p. hsa_of p hsa) header.old }
    ensures header_after { header.new ≡ set_into (λ p. hsa_of p hsa) header.old }
{
    change(header, |p| p.highest_station_address(hsa))
}

/// The target token rotation time in bits.
#[tactic(auto, unfolding(crate::specs::SettingsHeader::set_number, crate::specs::SettingsHeader::set_into, crate::specs::SettingsHeader::number_on, crate::specs::SettingsHeader::bytes_on))]
pub fn set_token_rotation_bits(header: &mut [u8], ttr: u32) -> Result<(), Refusal>
    ensures value { number_in result ≡ set_number (λ p. rotation_of p ttr) header.old }
    ensures header_after { header.new ≡ set_into (λ p. rotation_of p ttr) header.old }
{
    change(header, |p| p.token_rotation_bits(ttr))
}

/// How many token rotations to wait before the gap is polled again.
#[tactic(auto, unfolding(crate::specs::SettingsHeader::set_number, crate::specs::SettingsHeader::set_into, crate::specs::SettingsHeader::number_on, crate::specs::SettingsHeader::bytes_on))]
pub fn set_gap_wait_rotations(header: &mut [u8], gap_wait: u8) -> Result<(), Refusal>
    ensures value { number_in result ≡ set_number (λ p. gap_wait_of p gap_wait) header.old }
    ensures header_after { header.new ≡ set_into (λ p. gap_wait_of p gap_wait) header.old }
{
    change(header, |p| p.gap_wait_rotations(gap_wait))
}

/// How often a telegram is retried.
#[tactic(auto, unfolding(crate::specs::SettingsHeader::set_number, crate::specs::SettingsHeader::set_into, crate::specs::SettingsHeader::number_on, crate::specs::SettingsHeader::bytes_on))]
pub fn set_max_retry_limit(header: &mut [u8], max_retry_limit: u8) -> Result<(), Refusal>
    ensures value { number_in result ≡ set_number (λ p. retry_of p max_retry_limit) header.old }
    ensures header_after { header.new ≡ set_into (λ p. retry_of p max_retry_limit) header.old }
{
    change(header, |p| p.max_retry_limit(max_retry_limit))
}

/// The least time in bits before anyone responds.
#[tactic(auto, unfolding(crate::specs::SettingsHeader::set_number, crate::specs::SettingsHeader::set_into, crate::specs::SettingsHeader::number_on, crate::specs::SettingsHeader::bytes_on))]
pub fn set_min_tsdr_bits(header: &mut [u8], min_tsdr_bits: u8) -> Result<(), Refusal>
    ensures value { number_in result ≡ set_number (λ p. min_tsdr_of p min_tsdr_bits) header.old }
    ensures header_after { header.new ≡ set_into (λ p. min_tsdr_of p min_tsdr_bits) header.old }
{
    change(header, |p| p.min_tsdr(min_tsdr_bits))
}

/// The watchdog timeout in milliseconds.
#[tactic(auto, unfolding(crate::specs::SettingsHeader::set_number, crate::specs::SettingsHeader::set_into, crate::specs::SettingsHeader::number_on, crate::specs::SettingsHeader::bytes_on))]
pub fn set_watchdog_timeout(header: &mut [u8], ms: u32) -> Result<(), Refusal>
    ensures value { number_in result ≡ set_number (λ p. watchdog_of p ms) header.old }
    ensures header_after { header.new ≡ set_into (λ p. watchdog_of p ms) header.old }
{
    change(header, |p| p.watchdog_timeout(u64::from(ms)))
}

/// New settings in the first 16 bytes: an address, a baud code, the source's defaults, and so many applications. Refused with 1, 10, 11,
/// or 18 where the bytes are too few: then nothing is written.
#[tactic(auto, using(refusals::proofs::Numbers::refused), unfolding(trace_headers::specs::Headers::length_of, crate::specs::SettingsHeader::new_number, crate::specs::SettingsHeader::new_into, crate::specs::SettingsHeader::new_refusal, crate::specs::SettingsHeader::new_bytes, trace_headers_written::specs::HeaderBytes::header_into))]
pub fn new_settings(
    address: u8,
    baud: u8,
    applications: u8,
    header: &mut [u8],
) -> Result<(), Refusal>
    ensures value { number_in result ≡ new_number address baud applications (length header.old) }
    ensures header_after { header.new ≡ new_into address baud applications header.old }
{
    let p = Parameters::new(address, baud)?;
    check_applications(applications)?;
    if header.len() < RECORD_LENGTH {
        return Err(Refusal::NoRoom);
    }
    write_header(header, Edition::First, header_with(p, applications));
    Ok(())
}

/// Settings are finished by the check of the whole header: refused with its number, 25 among them.
#[tactic(auto, using(refusals::proofs::Numbers::refused), unfolding(crate::specs::SettingsHeader::finish_number))]
pub fn finish_settings(header: &[u8]) -> Result<(), Refusal>
    ensures { number_in result ≡ finish_number header.now }
{
    check_lent(header)?;
    Header::read(header).check()
}
