//! Document 01's telegram word of 32 bits: what it says, the refusal of a word that no telegram has, and the writer. It leans on
//! codec_fields.
#![tactic(auto)]

ghost use Rattle.std.specs.Prelude.{◌≡◌, [], ◌∷◌};
ghost use Rattle.codec_fields.specs.Fields.{bit_number, put_all};
ghost use Rattle.codec_telegrams.specs.Words.{response_state_of, response_number, telegram_of, telegram_refusal, telegram_widths, telegram_word};
ghost use Rattle.refusals.specs.Refusals.{number_in};

use codec_fields::{bits_at, check_zero, field, put};
use refusals::Refusal;

/// A station's type in a response, in document 01's order: slave, not ready, without token, in ring.
#[derive(Clone, Copy, Debug, PartialEq, Eq)]
pub enum ResponseState {
    Slave,
    MasterNotReady,
    MasterWithoutToken,
    MasterInRing,
}

/// What a telegram word says. A response's status is a number, 0 for Ok.
#[derive(Clone, Copy, Debug, PartialEq, Eq)]
pub enum Telegram {
    Token {
        destination: u8,
        source: u8,
    },
    ShortConfirmation,
    Request {
        destination: u8,
        source: u8,
        status_request: bool,
    },
    Response {
        destination: u8,
        source: u8,
        state: ResponseState,
        status: u8,
    },
}

impl ResponseState {
    /// The station type of a number of two bits; of any other number in ring.
    #[tactic(auto, unfolding(crate::specs::Words::response_state_of))]
    pub fn from_number(number: u8) -> ResponseState
        ensures { result ≡ response_state_of number }
    {
        match number {
            0 => ResponseState::Slave,
            1 => ResponseState::MasterNotReady,
            2 => ResponseState::MasterWithoutToken,
            _ => ResponseState::MasterInRing,
        }
    }
}

impl From<ResponseState> for u8 {
    ghost from_gives = { λ state number. number ≡ response_number state };

    /// The number of a station type.
    fn from(state: ResponseState) -> u8 {
        state as u8
    }
}

impl From<u64> for Telegram {
    ghost from_gives = { λ word telegram. telegram ≡ telegram_of word };

    /// What a telegram word says.
    #[tactic(auto, unfolding(crate::specs::Words::telegram_of))]
    fn from(word: u64) -> Telegram {
        let destination = field(word, 23, 7);
        let source = field(word, 16, 7);
        match field::<u8>(word, 30, 2) {
            0 => Telegram::Token {
                destination,
                source,
            },
            1 => Telegram::ShortConfirmation,
            2 => Telegram::Request {
                destination,
                source,
                status_request: field(word, 15, 1),
            },
            _ => Telegram::Response {
                destination,
                source,
                state: ResponseState::from_number(field(word, 13, 2)),
                status: field(word, 9, 4),
            },
        }
    }
}

impl From<Telegram> for u64 {
    ghost from_gives = { λ telegram word. word ≡ telegram_word telegram };

    /// The word that says a telegram. Of a number that does not fit its field the lowest bits are taken.
    #[tactic(auto, unfolding(crate::specs::Words::telegram_word))]
    fn from(telegram: Telegram) -> u64 {
        match telegram {
            Telegram::Token {
                destination,
                source,
            } => telegram_word(0, destination, source, false, 0, 0),
            Telegram::ShortConfirmation => telegram_word(1, 0, 0, false, 0, 0),
            Telegram::Request {
                destination,
                source,
                status_request,
            } => telegram_word(2, destination, source, status_request, 0, 0),
            Telegram::Response {
                destination,
                source,
                state,
                status,
            } => telegram_word(3, destination, source, false, state.into(), status),
        }
    }
}

/// Refuses a word that no telegram has: a bit is one that should be zero (14), whatever stands above the 32 bits among them.
#[tactic(auto, using(codec_fields::specs::Fields::zero_or14, codec_fields::proofs::Laws::zeros_field), unfolding(codec_fields::specs::Fields::zeros_or14, crate::specs::Words::telegram_refusal))]
pub fn check_word(word: u64) -> Result<(), Refusal>
    ensures { number_in result ≡ telegram_refusal word }
{
    if word >= 1 << 32 {
        return Err(Refusal::ReservedBit);
    }
    match field::<u8>(word, 30, 2) {
        0 => check_zero(bits_at(word, 0, 16)),
        1 => check_zero(bits_at(word, 0, 30)),
        2 => check_zero(bits_at(word, 0, 15)),
        _ => {
            check_zero(bits_at(word, 15, 1))?;
            check_zero(bits_at(word, 0, 9))
        }
    }
}

// The word of a telegram's fields.
fn telegram_word(
    kind: u8,
    destination: u8,
    source: u8,
    status_request: bool,
    state: u8,
    status: u8,
) -> u64
    ensures { result ≡ put_all 0 telegram_widths (kind ∷ destination ∷ source ∷ bit_number status_request ∷ state ∷ status ∷ 0 ∷ []) }
{
    let word = put(0, 2, kind);
    let word = put(put(word, 7, destination), 7, source);
    let word = put(put(word, 1, status_request), 2, state);
    put(put(word, 4, status), 9, 0u8)
}
