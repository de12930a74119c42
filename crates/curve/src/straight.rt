// The bracket of the straight curve along a side: document 01, "The curve along a side".
ghost use Rattle.std.specs.Prelude.{◌≡◌, true, ◌+◌, ◌≤◌, pos, ◌-ℤ◌, ◌≤ℤ◌};
ghost use Rattle.whole.specs.Range.{Within};
ghost use Rattle.survey.specs.Limits.{most_height};
ghost use Rattle.curve.specs.Below.{is_crossed};
ghost use Rattle.curve.specs.Curve.{straight_at, scaled};
ghost use Rattle.curve.specs.Bracket.{bracket_of};

// How far the upper of two heights is above the lower.
fn rise(lower: i32, upper: i32) -> u32
    requires { Within most_height lower × Within most_height upper × (lower ≤ℤ upper) }
    ensures { (pos result ≡ upper -ℤ lower) × (result ≤ most_height + most_height) }
{
    (upper - lower) as u32
}

// The bracket of a side that the level crosses, by one division. In each sixty-fourth the curve goes a 64th of the way from z1 to z2, so
// the bracket is the number of whole ones before the level: a rising curve leaves stop 0's side as it comes to the level, a falling one
// only as it passes it.
pub fn find(z1: i32, z2: i32, level: i32) -> u32
    requires { Within most_height z1 × Within most_height z2 × Within most_height level × (is_crossed level z1 z2 ≡ true) }
    ensures { result ≡ bracket_of (straight_at z1 z2) (scaled 0 level) }
{
    if z1 < level {
        return (64 * rise(z1, level) - 1) / rise(z1, z2);
    }
    64 * rise(level, z1) / rise(z2, z1)
}
