// No code: definitions of what the bytes of 01, Tokens and 01, Program file, stand for (specs/),
// and their laws (proofs/).
#![tactic(auto)]
