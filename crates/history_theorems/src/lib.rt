// What holds of every list of calls, in the history's words. No code: specs/ states it, proofs/ proves it.
#![tactic(auto)]
