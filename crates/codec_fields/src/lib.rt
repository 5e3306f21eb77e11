//! Bit fields of document 01, most significant bit first: read by shift and mask, put by shift and or, loaded from bytes and
//! stored into bytes. Every call is total: bits above a word's sixty-four are zero, and so is what a slice is too short for.
//! It leans on the refusals alone.
#![tactic(auto)]

// Public, since the claims of theorem_determined name each contract by its module.
pub mod bytes;
pub mod value;
pub mod words;

pub use bytes::{load, store};
pub use value::FieldValue;
pub use words::{bits_at, check_zero, field, put};
