#![tactic(auto)]

// Worked rows that the definitions of crates/rules meet, beside those that crates/rules computes itself. They stand here, since each edit in
// must-fail/ of that crate checks all of it again, and needs a few rows only. The theorems are in proofs/.
