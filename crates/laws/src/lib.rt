#![tactic(auto)]

// Theorems about the rules alone; they stand in proofs/.
