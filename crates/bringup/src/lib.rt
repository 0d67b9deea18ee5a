// Bring-up: the switching that makes a state consistent whose entries were kept and whose on-set is what `_STA` reports, and whether a list
// conforms to it.
#![tactic(auto)]

pub mod bring_up;
pub mod check;
pub mod stages;
