// Captures (document 02, P13): what is imported is accepted by a trace, entry by entry, and what is not written stays; an export
// gives a capture's lines again, in lower case; an import gives exported entries back, where P1 can write their telegrams and the
// times rise. No code stands here: the statements are in proofs/Accepted.antt, proofs/Exported.antt, proofs/Again.antt,
// proofs/Lower.antt, proofs/Back.antt and specs/Back.antt, what they speak of in specs/. It leans on capture_import, capture_export
// and theorem_frames.
#![tactic(auto)]
