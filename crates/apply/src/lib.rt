// The writes of an accepted request, kind by kind. Nothing is asked here: every question has been answered yes.
#![tactic(auto)]

pub mod bits;
pub mod cells;
pub mod meetings;
pub mod removal;
pub mod sets;
pub mod visitors;
