// The values of a survey's text, gathered line by line.
#![tactic(auto)]

pub mod held;
pub mod values;
