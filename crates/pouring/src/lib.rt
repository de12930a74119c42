// Digits and words put into a lent room.
#![tactic(auto)]

pub mod digits;
