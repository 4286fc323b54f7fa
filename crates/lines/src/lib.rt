// Lines: the settings line, and the stream of chunks.
#![tactic(auto)]

pub mod lay;
pub mod stream;
