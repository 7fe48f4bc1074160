// The image of the state: what its bytes are, and what is proved of them. No code: specs/ states it, proofs/ proves it.
#![tactic(auto)]
