// Call lists: whether a list conforms to a request.
#![tactic(auto)]

pub mod check;
