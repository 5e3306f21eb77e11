//! A trace's header written in either edition (document 01, "Trace", and request P9). It leans on trace_headers for what a header
//! is and on codec_slices for the fields.
#![tactic(auto)]

ghost use Rattle.std.specs.Prelude.{◌≡◌, ◌-◌, length};
ghost use Rattle.codec_slices.specs.Slices.{put_at};
ghost use Rattle.trace_headers.specs.declared.Edition.TheVariants as edition;
ghost use Rattle.trace_headers_written.specs.HeaderBytes.{header_bytes, header_into};

use codec_slices::put_at;
use trace_headers::{Edition, Header};

// Writes a header into the 16 bytes of edition 1.
fn write_first(out: &mut [u8], header: Header)
    requires { length out.old ≡ 16 }
    ensures { out.new ≡ header_bytes edition.First header }
{
    let plain = header.settings;
    put_at(out, 0, 8, plain.address);
    put_at(out, 8, 8, plain.baud_code);
    put_at(out, 16, 16, plain.slot_bits);
    put_at(out, 32, 32, plain.token_rotation_bits);
    put_at(out, 64, 8, plain.gap_wait_rotations);
    put_at(out, 72, 8, plain.highest_station_address);
    put_at(out, 80, 8, plain.max_retry_limit);
    put_at(out, 88, 8, plain.min_tsdr_bits);
    put_at(out, 96, 8, header.applications);
    put_at(out, 104, 8, plain.factor_1);
    put_at(out, 112, 8, plain.factor_2);
    put_at(out, 120, 8, header.zero_bits);
}

// Writes a header into the 14 bytes of edition 2.
fn write_second(out: &mut [u8], header: Header)
    requires { length out.old ≡ 14 }
    ensures { out.new ≡ header_bytes edition.Second header }
{
    let plain = header.settings;
    put_at(out, 0, 8, 0x82u8);
    put_at(out, 8, 7, plain.address);
    put_at(out, 15, 4, plain.baud_code);
    put_at(out, 19, 16, plain.slot_bits);
    put_at(out, 35, 25, plain.token_rotation_bits);
    put_at(out, 60, 7, plain.gap_wait_rotations);
    put_at(out, 67, 7, plain.highest_station_address);
    put_at(out, 74, 4, plain.max_retry_limit);
    put_at(out, 78, 8, plain.min_tsdr_bits);
    put_at(out, 86, 3, header.applications.saturating_sub(1));
    put_at(out, 89, 8, plain.factor_1);
    put_at(out, 97, 8, plain.factor_2);
    put_at(out, 105, 7, header.zero_bits);
}

/// Writes a header in an edition into the first bytes of `out`; every other byte stays. Where `out` is too short all of it stays. Of
/// a number that does not fit its field the lowest bits are taken.
#[tactic(auto, unfolding(trace_headers::specs::Headers::length_of, crate::specs::HeaderBytes::header_into))]
pub fn write_header(out: &mut [u8], edition: Edition, header: Header)
    ensures { out.new ≡ header_into out.old edition header }
{
    let length = edition.length();
    if out.len() < length {
        return;
    }
    match edition {
        Edition::First => write_first(&mut out[0..length], header),
        Edition::Second => write_second(&mut out[0..length], header),
    }
}
