// Silence: what a station does that passes the token into a silent bus (demand 3), and the letter's own case of it. No code stands
// here: the statements are specs/Silence.antt and specs/Letter.antt, readable without the proofs, which are in proofs/. It
// leans on every crate of the station.
#![tactic(auto)]
