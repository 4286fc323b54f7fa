// Text: bytes behind what was written, and numbers as bytes.
#![tactic(auto)]

pub mod decimal;
pub mod hex;
pub mod store;
