// What one line of a text may hold, key=value: read byte by byte, and the bytes of its value.
#![tactic(auto)]

pub mod line;
