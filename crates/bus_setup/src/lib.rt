//! The setup of a simulated bus (document 02, P12): 2 to 8 stations, the tick and the number of ticks, read in place and refused by
//! number; which station stands at which place by rising address, and the header of its trace. Every call is total on every slice. It
//! leans on codec_fields for the bytes and on trace for a station's settings.
#![tactic(auto)]

ghost use Rattle.std.specs.Prelude.{◌≡◌, ◌≤◌, ◌*◌, length};
ghost use Rattle.refusals.specs.Refusals.{number_in};
ghost use Rattle.bus_setup.specs.Setup.{stations_of, tick_of, ticks_of, station_place, address_of, code_of, station_header, is_lower, is_equal, is_other, twins_of, pairs_of, others_of, rank_of, placed_of, station_refusal, settings_refusal, stations_refusal, sized_refusal, setup_refusal};

use codec_fields::{load, store};
use refusals::Refusal;

/// What a setup begins with; zeros where it ends before.
#[derive(Clone, Copy, Debug, PartialEq, Eq)]
pub struct Head {
    pub stations: u64,
    /// In microseconds.
    pub tick: u64,
    pub ticks: u64,
}

impl Head {
    /// The number of stations, the tick and the number of ticks.
    #[tactic(auto, unfolding(crate::specs::Setup::stations_of, crate::specs::Setup::tick_of, crate::specs::Setup::ticks_of))]
    pub fn read(setup: &[u8]) -> Head
        ensures stations { result.stations ≡ stations_of setup.now }
        ensures tick { result.tick ≡ tick_of setup.now }
        ensures ticks { result.ticks ≡ ticks_of setup.now }
    {
        Head {
            stations: load(setup, 0, 1),
            tick: load(setup, 1, 4),
            ticks: load(setup, 5, 4),
        }
    }
}

// Where the bytes of a station begin, counted as given.
#[tactic(auto, unfolding(crate::specs::Setup::station_place))]
fn station_place(j: u8) -> usize
    ensures { (result ≡ station_place j) × (result ≤ 3579) }
{
    9 + 14 * usize::from(j)
}

// The address of a station, as given.
#[tactic(auto, unfolding(crate::specs::Setup::address_of))]
fn address(setup: &[u8], j: u8) -> u64
    ensures { result ≡ address_of setup.now j }
{
    load(setup, station_place(j), 1)
}

// The baud code of a station, as given.
#[tactic(auto, unfolding(crate::specs::Setup::code_of))]
fn code(setup: &[u8], j: u8) -> u64
    ensures { result ≡ code_of setup.now j }
{
    load(setup, station_place(j) + 1, 1)
}

/// Writes the header of a station's trace, edition 1.
pub fn write_header(setup: &[u8], j: u8, header: &mut [u8; 16])
    ensures { header.new ≡ station_header setup.now j }
{
    let at = station_place(j);
    let mut bytes = [0u8; 16];
    store(&mut bytes, 0, 8, load(setup, at, 8));
    store(&mut bytes, 8, 4, load(setup, at + 8, 4));
    bytes[12] = 1;
    store(&mut bytes, 13, 2, load(setup, at + 12, 2));
    *header = bytes;
}

// The place of a station by rising address: how many of the n stations have a lower one.
#[tactic(auto, using(crate::specs::Laws::sum_none, crate::specs::Laws::sum_more), unfolding(crate::specs::Setup::rank_of, crate::specs::Setup::is_lower))]
fn rank(setup: &[u8], n: u8, j: u8) -> u8
    ensures { result ≡ rank_of setup.now n j }
{
    let mut lower: u8 = 0;
    for m in 0..n {
        lower += u8::from(address(setup, m) < address(setup, j));
    }
    lower
}

// How many of the stations given before have the address of station j.
#[tactic(auto, using(crate::specs::Laws::sum_none, crate::specs::Laws::sum_more), unfolding(crate::specs::Setup::twins_of, crate::specs::Setup::is_equal))]
fn twins(setup: &[u8], j: u8) -> u64
    ensures { (result ≡ twins_of setup.now j) × (result ≤ 255) }
{
    let mut twins: u64 = 0;
    for m in 0..j {
        twins += u64::from(address(setup, m) == address(setup, j));
    }
    twins
}

// How many pairs of the first n stations have equal addresses.
#[tactic(auto, using(crate::specs::Laws::sum_none, crate::specs::Laws::sum_more), unfolding(crate::specs::Setup::pairs_of))]
fn pairs(setup: &[u8], n: u8) -> u64
    ensures { result ≡ pairs_of setup.now n }
{
    let mut pairs: u64 = 0;
    for j in 0..n {
        pairs += twins(setup, j);
    }
    pairs
}

// How many of the first n stations have a code other than the first station's.
#[tactic(auto, using(crate::specs::Laws::sum_none, crate::specs::Laws::sum_more), unfolding(crate::specs::Setup::others_of, crate::specs::Setup::is_other))]
fn others(setup: &[u8], n: u8) -> u64
    ensures { result ≡ others_of setup.now n }
{
    let mut others: u64 = 0;
    for j in 0..n {
        others += u64::from(code(setup, j) != code(setup, 0));
    }
    others
}

/// The station at a place by rising address, as given.
#[tactic(auto, using(crate::specs::Laws::placed_none, crate::specs::Laws::placed_more), unfolding(crate::specs::Setup::placed_of))]
pub fn placed(setup: &[u8], n: u8, i: u8) -> u8
    ensures { result ≡ placed_of setup.now n i }
{
    let mut found: u8 = 0;
    for j in 0..n {
        if rank(setup, n, j) == i {
            found = j;
        }
    }
    found
}

// Refuses a station's settings: an address above 125 with 1, 82h among them, since its header is of edition 1.
#[tactic(auto, using(crate::specs::Laws::header_length_lem), unfolding(crate::specs::Setup::station_refusal))]
fn check_station(setup: &[u8], j: u8) -> Result<(), Refusal>
    ensures { number_in result ≡ station_refusal setup.now j }
{
    if address(setup, j) > 125 {
        return Err(Refusal::Address);
    }
    let mut header = [0u8; 16];
    write_header(setup, j, &mut header);
    trace::trace_settings(&header)?;
    Ok(())
}

// Refuses the first settings of a station that are refused, in the order given.
#[tactic(auto, using(refusals::proofs::Numbers::refused, codec_records::specs::Laws::none_more, codec_records::specs::Laws::first_is), unfolding(crate::specs::Setup::settings_refusal, codec_records::specs::Records::words_refusal))]
fn check_settings(setup: &[u8], n: u8) -> Result<(), Refusal>
    ensures { number_in result ≡ settings_refusal setup.now n }
{
    for j in 0..n {
        check_station(setup, j)?;
    }
    Ok(())
}

// Refuses the stations together: with 30, 27, then by the settings of each.
#[tactic(auto, unfolding(crate::specs::Setup::stations_refusal))]
fn check_stations(setup: &[u8], n: u8) -> Result<(), Refusal>
    ensures { number_in result ≡ stations_refusal setup.now n }
{
    if others(setup, n) > 0 {
        return Err(Refusal::BaudCodesDiffer);
    }
    if pairs(setup, n) > 0 {
        return Err(Refusal::SameAddress);
    }
    check_settings(setup, n)
}

// Refuses a setup that has 2 to 8 stations: with 17, 28, 35, then by the stations.
#[tactic(auto, unfolding(crate::specs::Setup::sized_refusal))]
fn check_sized(setup: &[u8], n: u8) -> Result<(), Refusal>
    ensures { number_in result ≡ sized_refusal setup.now n }
{
    if setup.len() != station_place(n) {
        return Err(Refusal::TraceLength);
    }
    let head = Head::read(setup);
    if head.tick == 0 || head.tick > 1_000_000 {
        return Err(Refusal::TickTime);
    }
    if head.ticks > 1_000_000 {
        return Err(Refusal::Ticks);
    }
    check_stations(setup, n)
}

/// Refuses a setup before there is a question of room: with 17, 29, 17, 28, 35, 30, 27, then by each station's settings.
#[tactic(auto, unfolding(crate::specs::Setup::setup_refusal))]
pub fn check(setup: &[u8]) -> Result<(), Refusal>
    ensures { number_in result ≡ setup_refusal setup.now }
{
    if setup.len() < 9 {
        return Err(Refusal::TraceLength);
    }
    let stations = Head::read(setup).stations;
    if stations < 2 || stations > 8 {
        return Err(Refusal::Stations);
    }
    check_sized(setup, stations as u8)
}

// The same by number and one by one, until each caller has moved to `check` and `Head`.

/// The number of stations; 0 of an empty setup.
pub fn stations(setup: &[u8]) -> u64
    ensures { result ≡ stations_of setup.now }
{
    Head::read(setup).stations
}

/// The tick in microseconds; 0 where the setup ends before.
pub fn tick(setup: &[u8]) -> u64
    ensures { result ≡ tick_of setup.now }
{
    Head::read(setup).tick
}

/// The number of ticks; 0 where the setup ends before.
pub fn ticks(setup: &[u8]) -> u64
    ensures { result ≡ ticks_of setup.now }
{
    Head::read(setup).ticks
}

/// What refuses a setup, by its number; 0 for none.
pub fn setup_refusal(setup: &[u8]) -> u8
    ensures { result ≡ setup_refusal setup.now }
{
    match check(setup) {
        Ok(()) => 0,
        Err(refusal) => refusal.number(),
    }
}
