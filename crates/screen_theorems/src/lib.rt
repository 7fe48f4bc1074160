// What is proved of the totals on a screen; no code.
#![tactic(auto)]
