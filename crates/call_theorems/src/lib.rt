// Theorems on the calls: each keeps rules 1 and 2, and what a reader would ask of them. specs/ states them, proofs/ proves them. There is no code here.
#![tactic(auto)]
