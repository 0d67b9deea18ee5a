// The planner: the calls of a request, in their order, as words or bytes of a lent plan, and those of sleep entry.
#![tactic(auto)]

pub mod element;
pub mod moves;
pub mod plan;
