//! What a station in bytes has counted (request P6), read from its bytes. It leans on station_bytes for the station, on trace_counts for
//! the counts' bytes.
#![tactic(auto)]

ghost use Rattle.std.specs.Prelude.{◌≡◌, length};
ghost use Rattle.station_bytes.specs.Bytes.{read_of};
ghost use Rattle.live_counts.specs.LiveCounts.{read_counts_number, read_counts_into};

use trace_counts::COUNTS_LENGTH;

/// Writes what the station that bytes are has counted into the first 12 bytes of `counts`, as `trace_counts` writes it, and returns 0.
/// Refused with 36 where the bytes are no station, then 18 where `counts` is too short: then nothing is written.
#[tactic(auto, using(crate::specs::Laws::number_unread, crate::specs::Laws::kept_unread, crate::specs::Laws::number_untold, crate::specs::Laws::kept_untold, crate::specs::Laws::number_told))]
pub fn station_counts(station: &[u8], counts: &mut [u8]) -> u64
    ensures value { result ≡ read_counts_number (read_of station.now) (length counts.old) }
    ensures counts_after { counts.new ≡ read_counts_into (read_of station.now) counts.old }
{
    match station_bytes::read_counts(station) {
        Some(told) => {
            if counts.len() < COUNTS_LENGTH {
                return 18;
            }
            trace_counts::write_counts(counts, told);
            0
        }
        None => 36,
    }
}
