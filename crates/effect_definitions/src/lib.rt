// What a call changes in state and journal: definitions, and what is proved of them. No code: specs/ states it, proofs/ proves it.
#![tactic(auto)]
