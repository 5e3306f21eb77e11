//! A state as plain numbers, and these as two words: what a station's bytes hold of its state. It leans on station for the states and
//! on codec_fields for the fields.
#![tactic(auto)]

ghost use Rattle.std.specs.Prelude.{◌≡◌};
ghost use Rattle.station_numbers.specs.Numbers.{number_or_none, none_or_number, attempt_number, attempt_of, plain_numbers, held_numbers, state_numbers, held_of, state_from, state_word, numbers_in};

use bit_times::Micros;
use codec_fields::{field, put};
use station::{PassTokenAttempt, State, UseTokenData};

/// A state's number and what it holds; what a state does not hold is 0.
#[derive(Clone, Copy, Debug, PartialEq, Eq)]
pub struct StateNumbers {
    pub token_time: u64,
    pub kind: u8,
    pub flag: bool,
    pub request: u8,
    pub previous: u8,
    pub collisions: u8,
    pub attempt: u8,
    pub address: u8,
    pub first_app: u8,
}

// The number of an address or an application: 255 for none.
fn number_or_none(held: Option<u8>) -> u8
    ensures { result ≡ number_or_none held }
{
    held.unwrap_or(255)
}

// The address or application of a number.
#[tactic(auto, unfolding(crate::specs::Numbers::none_or_number))]
fn none_or_number(number: u8) -> Option<u8>
    ensures { result ≡ none_or_number number }
{
    if number == 255 { None } else { Some(number) }
}

// The number of an attempt: 0 for the first.
fn attempt_number(attempt: PassTokenAttempt) -> u8
    ensures { result ≡ attempt_number attempt }
{
    match attempt {
        PassTokenAttempt::First => 0,
        PassTokenAttempt::Second => 1,
        PassTokenAttempt::Third => 2,
    }
}

// The attempt of a number.
#[tactic(auto, unfolding(crate::specs::Numbers::attempt_of))]
fn attempt_of(number: u8) -> PassTokenAttempt
    ensures { result ≡ attempt_of number }
{
    match number {
        1 => PassTokenAttempt::Second,
        2 => PassTokenAttempt::Third,
        _ => PassTokenAttempt::First,
    }
}

// A state without a token, as plain numbers.
#[tactic(auto, unfolding(crate::specs::Numbers::plain_numbers))]
fn plain(
    kind: u8,
    flag: bool,
    request: u8,
    previous: u8,
    collisions: u8,
    attempt: u8,
    address: u8,
) -> StateNumbers
    ensures { result ≡ plain_numbers kind flag request previous collisions attempt address }
{
    StateNumbers {
        token_time: 0,
        kind,
        flag,
        request,
        previous,
        collisions,
        attempt,
        address,
        first_app: 0,
    }
}

// A state with a token in hand, as plain numbers.
#[tactic(auto, unfolding(crate::specs::Numbers::held_numbers))]
fn holding(kind: u8, flag: bool, address: u8, token: UseTokenData) -> StateNumbers
    ensures { result ≡ held_numbers kind flag address token }
{
    StateNumbers {
        token_time: token.token_time.0,
        kind,
        flag,
        request: 0,
        previous: 0,
        collisions: 0,
        attempt: 0,
        address,
        first_app: number_or_none(token.first_app),
    }
}

/// A state as plain numbers.
#[tactic(auto, unfolding(crate::specs::Numbers::state_numbers))]
pub fn state_numbers(state: State) -> StateNumbers
    ensures { result ≡ state_numbers state }
{
    match state {
        State::Offline => plain(0, false, 0, 0, 0, 0, 0),
        State::ListenToken {
            status_request,
            collision_count,
        } => plain(
            1,
            false,
            number_or_none(status_request),
            0,
            collision_count,
            0,
            0,
        ),
        State::ActiveIdle {
            status_request,
            new_previous_station,
            collision_count,
        } => plain(
            2,
            false,
            number_or_none(status_request),
            number_or_none(new_previous_station),
            collision_count,
            0,
            0,
        ),
        State::UseToken {
            first_cycle_done,
            data,
        } => holding(3, first_cycle_done, 0, data),
        State::ClaimToken { first } => plain(4, first, 0, 0, 0, 0, 0),
        State::AwaitDataResponse { address, data } => holding(5, false, address, data),
        State::PassToken { do_gap, attempt } => plain(
            6,
            do_gap,
            0,
            0,
            0,
            attempt_number(attempt),
            0,
        ),
        State::CheckTokenPass { attempt } => plain(7, false, 0, 0, 0, attempt_number(attempt), 0),
        State::AwaitStatusResponse { address } => plain(8, false, 0, 0, 0, 0, address),
        State::PassiveIdle { status_request } => plain(
            9,
            false,
            number_or_none(status_request),
            0,
            0,
            0,
            0,
        ),
    }
}

// The token that plain numbers hold.
#[tactic(auto, unfolding(crate::specs::Numbers::held_of))]
fn held(numbers: StateNumbers) -> UseTokenData
    ensures { result ≡ held_of numbers }
{
    UseTokenData {
        token_time: Micros(numbers.token_time),
        first_app: none_or_number(numbers.first_app),
    }
}

/// The state that plain numbers are; Offline where there is no state with such a number.
#[tactic(auto, unfolding(crate::specs::Numbers::state_from))]
pub fn state_from(numbers: StateNumbers) -> State
    ensures { result ≡ state_from numbers }
{
    match numbers.kind {
        1 => State::ListenToken {
            status_request: none_or_number(numbers.request),
            collision_count: numbers.collisions,
        },
        2 => State::ActiveIdle {
            status_request: none_or_number(numbers.request),
            new_previous_station: none_or_number(numbers.previous),
            collision_count: numbers.collisions,
        },
        3 => State::UseToken {
            first_cycle_done: numbers.flag,
            data: held(numbers),
        },
        4 => State::ClaimToken {
            first: numbers.flag,
        },
        5 => State::AwaitDataResponse {
            address: numbers.address,
            data: held(numbers),
        },
        6 => State::PassToken {
            do_gap: numbers.flag,
            attempt: attempt_of(numbers.attempt),
        },
        7 => State::CheckTokenPass {
            attempt: attempt_of(numbers.attempt),
        },
        8 => State::AwaitStatusResponse {
            address: numbers.address,
        },
        9 => State::PassiveIdle {
            status_request: none_or_number(numbers.request),
        },
        _ => State::Offline,
    }
}

/// The word of plain numbers but for the token's time, which is a word of its own.
#[tactic(auto, unfolding(crate::specs::Numbers::state_word))]
pub fn state_word(numbers: StateNumbers) -> u64
    ensures { result ≡ state_word numbers }
{
    let mut word = put(0, 7, numbers.kind);
    word = put(word, 1, numbers.flag);
    word = put(word, 8, numbers.request);
    word = put(word, 8, numbers.previous);
    word = put(word, 8, numbers.collisions);
    word = put(word, 8, numbers.attempt);
    word = put(word, 8, numbers.address);
    word = put(word, 8, numbers.first_app);
    put(word, 8, 0u8)
}

/// The plain numbers that two words hold.
#[tactic(auto, unfolding(crate::specs::Numbers::numbers_in))]
pub fn numbers_in(word: u64, token_time: u64) -> StateNumbers
    ensures { result ≡ numbers_in word token_time }
{
    StateNumbers {
        token_time,
        kind: field(word, 57, 7),
        flag: field(word, 56, 1),
        request: field(word, 48, 8),
        previous: field(word, 40, 8),
        collisions: field(word, 32, 8),
        attempt: field(word, 24, 8),
        address: field(word, 16, 8),
        first_app: field(word, 8, 8),
    }
}
