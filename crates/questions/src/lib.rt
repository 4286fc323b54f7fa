// The questions that are asked of each slot of a request.
#![tactic(auto)]

pub mod cells;
pub mod short;
pub mod slots;
