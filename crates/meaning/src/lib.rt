// Definitions and theorems, and no code: what stream code does, 01, Code and the stream run; and
// what a program means, 01, The source evaluation, beside the reductions of 000, Figure 3. See
// specs/.
#![tactic(auto)]
