// What a book that passes questions 1 and 2 shows of its visitors, meetings and rooms: single entries, searches, counts and sums, each equal
// to the model's. All of them read only.
#![tactic(auto)]

pub mod bookings;
pub mod dates;
pub mod entries;
pub mod rooms;
pub mod search;
