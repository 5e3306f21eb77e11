// No code: the theorems on who was heard in a trace. They are in specs/ (Statement has request P7 in one statement), over the
// definitions of trace_heard and heard, and lean on theorem_every_trace.
#![tactic(auto)]
