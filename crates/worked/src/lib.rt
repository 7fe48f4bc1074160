// The cases that document 01 stars, as one proved table: specs/Worked.antt states them, proofs/Worked.antt computes them. Beside them a sale
// with a chip, specs/WithChip.antt.
#![tactic(auto)]
