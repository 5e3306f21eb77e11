//! An application's decision of 24 bits (document 01, "Poll record"): what it says, the refusal of a word that no decision has,
//! and the writer. It leans on codec_fields.
#![tactic(auto)]

ghost use Rattle.std.specs.Prelude.{◌≡◌, [], ◌∷◌};
ghost use Rattle.codec_fields.specs.Fields.{bit_number, put_all};
ghost use Rattle.codec_decisions.specs.Decisions.{decision_of, decision_refusal, decision_widths, decision_word, length_refusal};
ghost use Rattle.refusals.specs.Refusals.{number_in};

use codec_fields::{bits_at, check_zero, field, put};
use refusals::Refusal;

/// What an application decides when it is asked: to send nothing, to send so many bytes, or to send them and await a reply.
#[derive(Clone, Copy, Debug, PartialEq, Eq)]
pub enum Decision {
    Decline,
    Send { length: u8 },
    SendExpectReply { address: u8, length: u8 },
}

impl From<u64> for Decision {
    ghost from_gives = { λ word decision. decision ≡ decision_of word };

    /// What a decision's word says.
    #[tactic(auto, unfolding(crate::specs::Decisions::decision_of))]
    fn from(word: u64) -> Decision {
        if !field::<bool>(word, 23, 1) {
            return Decision::Decline;
        }
        let length = field(word, 7, 8);
        if field(word, 22, 1) {
            Decision::SendExpectReply {
                address: field(word, 15, 7),
                length,
            }
        } else {
            Decision::Send { length }
        }
    }
}

impl From<Decision> for u64 {
    ghost from_gives = { λ decision word. word ≡ decision_word decision };

    /// The word that says a decision. Of an address that does not fit its field the lowest bits are taken.
    #[tactic(auto, unfolding(crate::specs::Decisions::decision_word))]
    fn from(decision: Decision) -> u64 {
        match decision {
            Decision::Decline => decision_word(false, false, 0, 0),
            Decision::Send { length } => decision_word(true, false, 0, length),
            Decision::SendExpectReply { address, length } => decision_word(
                true, true, address, length,
            ),
        }
    }
}

/// Refuses a decision's word with a bit that should be zero (14), and after that one that sends 0 bytes (15).
#[tactic(auto, using(codec_fields::specs::Fields::zero_or14, codec_fields::proofs::Laws::zeros_field), unfolding(codec_fields::specs::Fields::zeros_or14, crate::specs::Decisions::decision_refusal))]
pub fn check_word(word: u64) -> Result<(), Refusal>
    ensures { number_in result ≡ decision_refusal word }
{
    if word >= 1 << 24 {
        return Err(Refusal::ReservedBit);
    }
    if !field::<bool>(word, 23, 1) {
        return check_zero(bits_at(word, 0, 23));
    }
    check_zero(bits_at(word, 0, 7))?;
    if !field::<bool>(word, 22, 1) {
        check_zero(bits_at(word, 15, 7))?;
    }
    check_length(field(word, 7, 8))
}

// Refuses a send of 0 bytes (15).
#[tactic(auto, unfolding(crate::specs::Decisions::length_refusal))]
fn check_length(length: u8) -> Result<(), Refusal>
    ensures { number_in result ≡ length_refusal length }
{
    if length == 0 {
        return Err(Refusal::NoBytesToSend);
    }
    Ok(())
}

// The word of a decision's fields.
fn decision_word(sends: bool, expects_reply: bool, address: u8, length: u8) -> u64
    ensures { result ≡ put_all 0 decision_widths (bit_number sends ∷ bit_number expects_reply ∷ address ∷ length ∷ 0 ∷ []) }
{
    let word = put(put(0, 1, sends), 1, expects_reply);
    put(put(put(word, 7, address), 8, length), 7, 0u8)
}
