// No code: the theorem on what a station counts. It is in specs/ (Events has what is counted, as what happens in a run, and Statement the
// theorem), over the definitions of the station and of trace_counts, and leans on theorem_from_header.
#![tactic(auto)]
