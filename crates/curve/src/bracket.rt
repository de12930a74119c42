// The bracket of a side that a level crosses, in either style: document 01, "The curve along a side".
ghost use Rattle.std.specs.Prelude.{◌≡◌, true};
ghost use Rattle.whole.specs.Range.{Within};
ghost use Rattle.survey.specs.Limits.{most_height};
ghost use Rattle.curve.specs.Below.{is_crossed};
ghost use Rattle.curve.specs.Side.{InRange};
ghost use Rattle.curve.specs.Curve.{curve_of, scaled};
ghost use Rattle.curve.specs.Bracket.{bracket_of};

use crate::side::End;

// The bracket of the side from low, the lower-numbered station, to high. Style is 0 straight, 1 smooth: a number, since
// the curve is defined for every one; which of them are refused is for the jobs to say.
pub fn bracket(low: End, high: End, level: i32, style: u32) -> u32
    requires { InRange low × InRange high × Within most_height level × (is_crossed level low.z high.z ≡ true) }
    ensures { result ≡ bracket_of (curve_of style low high) (scaled style level) }
{
    if style == 0 {
        return crate::straight::find(low.z, high.z, level);
    }
    crate::smooth::find(crate::smooth::control_heights(low, high), level)
}
