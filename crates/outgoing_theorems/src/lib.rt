// Theorems on the messages that leave: specs/Theorems.antt states them, proofs/ proves them. There is no code here.
#![tactic(auto)]
