// No code: the theorem on the simulated bus. It is in specs/ (Statement has it in one statement), over the definitions of bus_run, and
// leans on trace and theorem_every_trace.
#![tactic(auto)]
