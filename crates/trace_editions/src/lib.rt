//! A trace's header moved from either edition to the other (request P9). It leans on trace_headers, which reads and refuses it, and
//! on trace_headers_written.
#![tactic(auto)]

ghost use Rattle.std.specs.Prelude.{◌≡◌, ◌≤◌, length, IfOk};
ghost use Rattle.refusals.specs.Refusals.{number_in};
ghost use Rattle.trace_editions.specs.Editions.{other_than, lent_refusal, other_length, move_refusal, move_into};

use refusals::Refusal;
use trace_headers::{Edition, Header, header_length};
use trace_headers_written::write_header;

// The other edition.
#[tactic(auto, unfolding(crate::specs::Editions::other_than))]
fn other_than(edition: Edition) -> Edition
    ensures { result ≡ other_than edition }
{
    match edition {
        Edition::First => Edition::Second,
        Edition::Second => Edition::First,
    }
}

// Refuses a lent header: with 17 where the bytes end inside it, then with its first refusal.
#[tactic(auto, unfolding(crate::specs::Editions::lent_refusal))]
fn check_lent(header: &[u8]) -> Result<(), Refusal>
    ensures { number_in result ≡ lent_refusal header.now }
{
    if header.len() < header_length(header) {
        return Err(Refusal::TraceLength);
    }
    Header::read(header).check()
}

/// Writes the header that `header` begins with in the other edition into the first bytes of `out`, and gives how many bytes are
/// written. Refused with 17, the header's numbers, or 18 where `out` is too short: then nothing is written.
#[tactic(auto, using(refusals::proofs::Numbers::refused), unfolding(crate::specs::Editions::move_into, crate::specs::Editions::move_refusal))]
pub fn other_edition(header: &[u8], out: &mut [u8]) -> Result<usize, Refusal>
    ensures refused { number_in result ≡ move_refusal header.now (length out.old) }
    ensures written { IfOk result (λ written. written ≡ other_length header.now) }
    ensures short { IfOk result (λ written. written ≤ 16) }
    ensures out_after { out.new ≡ move_into header.now out.old }
{
    check_lent(header)?;
    let moved = other_than(Edition::of(header));
    let length = moved.length();
    if out.len() < length {
        return Err(Refusal::NoRoom);
    }
    write_header(out, moved, Header::read(header));
    Ok(length)
}
