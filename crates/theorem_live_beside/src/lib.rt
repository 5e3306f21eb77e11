// No code: the theorems on what is kept beside a station in bytes: its counts, and a table of who was heard. They are in specs/
// (Statement says them), over the definitions of live_heard and live_counts, and lean on theorem_live and theorem_heard.
#![tactic(auto)]
