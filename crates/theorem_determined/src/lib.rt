// Determined: for each public call of each crate, any two results that its contract allows are equal.
// No code stands here: the theorems are in specs/, a file for each crate. It leans on every crate that it names.
#![tactic(auto)]
