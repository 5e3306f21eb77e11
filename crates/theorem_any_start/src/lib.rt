// Silence from any start (document 02, P11): whatever an online station was doing, it enters UseToken after a bounded number of silent
// polls, and asks its applications again. No code stands here: the statement is specs/AnyStart.antt, readable without the proofs,
// which are in proofs/. It leans on theorem_silence, of which demand 3 is a case.
#![tactic(auto)]
