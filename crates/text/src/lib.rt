// Survey text: the reader.
#![tactic(auto)]

pub mod reader;
