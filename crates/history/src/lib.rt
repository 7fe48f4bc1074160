// The history of a list of calls, and demand 3. No code: specs/ states it, proofs/ proves it.
#![tactic(auto)]
