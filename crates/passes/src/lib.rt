// The passes of the scheduling run: remaining work, early dates, late dates, floats with held late moves, the longest path.
#![tactic(auto)]
