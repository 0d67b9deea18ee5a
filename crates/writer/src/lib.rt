// A table written from described resources and devices, and described.
#![tactic(auto)]

pub mod check;
pub mod describe;
pub mod write;

// The bytes of a described device (RULES.md 11.1).
const DESCRIBED_SIZE: usize = 54;

// The bytes of each of its sets.
const DESCRIBED_WIDTH: usize = 8;
