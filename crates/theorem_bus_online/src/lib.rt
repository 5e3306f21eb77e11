// No code: the theorem that no station of a simulated bus goes offline, meets its own address, or sends an application's telegram.
// specs/ has its statement and proof.
#![tactic(auto)]
