// No code: theorems that the walk of the source run gives the outcome of the evaluation.
#![tactic(auto)]
