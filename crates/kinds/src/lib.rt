// The kinds of requests: their table at a site, and questions 4 to 7, which are asked of the words of a request alone.
#![tactic(auto)]

pub mod fields;
pub mod table;
