// Frames: what is written reads back, and what is read is written back; no frame is the beginning of another, and a frame cut short
// is never read as something else; which single bytes that were changed are found. No code stands here: the statements are in
// proofs/RoundTrip.antt, proofs/Cut.antt and proofs/Changed.antt, what they speak of in specs/. It leans on codec_frames.
#![tactic(auto)]
