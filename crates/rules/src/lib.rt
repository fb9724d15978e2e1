// No code: definitions of 01, Checking, and of the typing rules of 000, Figure 6 (specs/), and
// theorems about them (proofs/).
#![tactic(auto)]
