// The rooms of a survey, filled from the values of its text.
#![tactic(auto)]

pub mod fill;
