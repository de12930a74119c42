// The mesh as records: for each triangle its three corners and its three neighbours, worked out from any list of triangles.
#![tactic(auto)]

pub mod build;
pub mod half;
