// The swaps in place: sides that may be swapped, told by keys, and the lowest of them swapped until none is left.
#![tactic(auto)]

pub mod half;
pub mod keys;
pub mod swap;
