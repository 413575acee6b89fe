// Demand 3 about the scheduling call's own answers, 01's example and its marked instances, as theorems. No code is in it.
#![tactic(auto)]
