// The passive station (document 02, P10): in PassiveIdle it sends nothing but status responses of type slave and changes nothing that
// belongs to the token; and once passive, in whatever state, it never enters ClaimToken again. No code stands here: the statements are
// specs/Statement.antt, readable without the proofs, which are in proofs/.
#![tactic(auto)]
