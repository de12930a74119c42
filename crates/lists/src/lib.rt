// The shapes of our loops, as definitions and laws: `Lowest` is a search, `Table` a filled slice. Beside them the sorting of numbers and the
// places of a slice.
#![tactic(auto)]

pub mod slice;
pub mod sort;
