// What is proved of the simulated centre's answers; no code.
#![tactic(auto)]
