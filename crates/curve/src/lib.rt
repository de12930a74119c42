// The curve along a side in both styles, the bracket where it passes a level, and the spot of a bracket.
#![tactic(auto)]

pub mod bracket;
pub mod side;
pub mod smooth;
pub mod spot;
pub mod straight;
pub mod weights;
