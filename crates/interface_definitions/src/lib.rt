// The functions for C: what each returns and leaves, and what is proved of that. No code: specs/ states it, proofs/ proves it.
#![tactic(auto)]
