// The calls of document 01: what each gives, and what is proved of that. No code: specs/ states it, proofs/ proves it.
#![tactic(auto)]
