// The whole-number rules that several jobs share: the rounded quotient, the cut to a bound, the turn at three places.
#![tactic(auto)]

pub mod cut;
pub mod rounding;
pub mod turn;
