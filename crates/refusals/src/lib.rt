// Refusals: why a call does not do what it is asked for. Each has the number that the papers, the traces and the C interface
// give it (docs/FORMAT.md, section 8, has the table); 0 is no refusal. It leans on no other crate.
#![tactic(auto)]

// Public, since the claims of theorem_determined name each contract by its module.
pub mod refusal;

pub use refusal::Refusal;
