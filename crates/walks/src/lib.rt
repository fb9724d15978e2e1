// No code: what the functions that walk a program's records share: definitions (specs/), and
// theorems about them (proofs/).
#![tactic(auto)]
