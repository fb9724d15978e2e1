// No code: what each operation does to the machine's numbers and the lent words (specs/), and a law
// for each way through the functions of `machine` that perform one (proofs/). The run of any code
// and the run of a checked program's code share them.
#![tactic(auto)]
