// One line: where it ends, the call of a frame, the words of a settings line, and the line of an answer.
#![tactic(auto)]

pub mod frame;
pub mod line;
