// No code: the definitions of a run of a simulated bus (document 02, P12), tick by tick. They stand apart from the code that runs it, so
// that the theorems speak of them alone.
#![tactic(auto)]
