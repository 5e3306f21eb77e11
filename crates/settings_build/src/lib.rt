//! Settings from plain numbers: the one check of a whole record, in document 01's header order with document 02's 25
//! directly after 4, the settings that an accepted record makes, and the call that finishes settings. Part of layer 2 of
//! document 01 ("Settings", refusals 1 to 8 and 10 of a header), from profirust's parameters.rs: ParametersBuilder::build.
//! It leans on settings for the record, on settings_rules for its rules, on bit_times for the baud code and on refusals.
#![tactic(auto)]

// Public, since the claims of theorem_determined name each contract by its module.
pub mod finished;
pub mod plain;

pub use finished::finish;
pub use plain::PlainSettings;
