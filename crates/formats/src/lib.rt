// Every text as a form, the place in it, and how a height is told.
#![tactic(auto)]

pub mod place;
pub mod told;
