// The reader of texts, fed in pieces.
#![tactic(auto)]

pub mod reader;
pub mod tags;
