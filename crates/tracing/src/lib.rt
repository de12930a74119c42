// The lines of a level from neighbour to neighbour, by two passes over the sides in order.
#![tactic(auto)]

pub mod scan;
pub mod walk;
