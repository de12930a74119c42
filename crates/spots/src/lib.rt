// The spots of the sides that lines cross.
#![tactic(auto)]

pub mod spots;
