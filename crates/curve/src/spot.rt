// The spot of a bracket: document 01, "The curve along a side".
ghost use Rattle.std.specs.Prelude.{◌≡◌, ◌≤◌, ◌<◌};
ghost use Rattle.survey.specs.Limits.{most_coordinate};
ghost use Rattle.curve.specs.Side.{InRange};
ghost use Rattle.curve.specs.Spot.{spot_at, spot_of};

use crate::side::End;

// A place in 128ths.
#[derive(Clone, Copy, PartialEq, Eq)]
pub struct Spot {
    pub x: u32,
    pub y: u32,
}

// One coordinate of the spot of bracket k, between x1 and x2.
fn spot_at(x1: u32, x2: u32, k: u32) -> u32
    requires { (x1 ≤ most_coordinate) × (x2 ≤ most_coordinate) × (k < 64) }
    ensures { result ≡ spot_at x1 x2 k }
{
    128 * x1 + (2 * k + 1) * x2 - (2 * k + 1) * x1
}

// The spot of bracket k of the side from low, the lower-numbered station, to high.
pub fn spot_of(low: End, high: End, k: u32) -> Spot
    requires { InRange low × InRange high × (k < 64) }
    ensures { result ≡ spot_of low high k }
{
    Spot {
        x: spot_at(low.x, high.x, k),
        y: spot_at(low.y, high.y, k),
    }
}
