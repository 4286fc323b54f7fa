// The settings at the head of a book: reading them, question 1, the length that they ask for, and laying a fresh book.
#![tactic(auto)]

pub mod lay;
pub mod settings;
