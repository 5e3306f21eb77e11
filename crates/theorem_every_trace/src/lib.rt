// No code: the theorems on every trace. They are in specs/ (Statement has demand 1 in one statement, EveryTrace what else holds), over
// the definitions of trace, and lean on trace, polling and sound.
#![tactic(auto)]
