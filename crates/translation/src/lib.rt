// Definitions and theorems, and no code: the stream code of a program, and that its run gives what
// the program means. See specs/.
#![tactic(auto)]
