// What the words of a row have to keep, and the tables of a date that its rows are held to.
#![tactic(auto)]

pub mod row;
pub mod tables;
