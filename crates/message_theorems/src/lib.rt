// Theorems on reading and writing, and on a message that was read: specs/ states them, proofs/ proves them. There is no code here.
#![tactic(auto)]
