// No code: document 01's examples 1 to 12 as one table (specs/Table.antt) and the theorem that each row holds
// (specs/Examples.antt). It leans on the definitions of every layer.
#![tactic(auto)]
