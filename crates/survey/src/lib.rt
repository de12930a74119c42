// A survey: its limits, the rooms its jobs need, every refusal and answer, the ranks of its stations, and the checks that all jobs begin with.
#![tactic(auto)]

pub mod answers;
pub mod check;
pub mod limits;
pub mod rank;
pub mod refusal;
pub mod rooms;
