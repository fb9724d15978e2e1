// Definitions and theorems, and no code: the source evaluation taken step by step, over a table
// with a row for each record of a program. See specs/.
#![tactic(auto)]
