// The conditions on one triangle of a mesh that is handed in, each as document 02, L10, says it: its turn, stations in it, and its sides.
#![tactic(auto)]

pub mod inner;
pub mod side;
