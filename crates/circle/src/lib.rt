// The circle test in whole numbers.
#![tactic(auto)]

ghost use Rattle.std.specs.Prelude.{◌≡◌, ◌≤◌};
ghost use Rattle.whole.specs.Place.{place};
ghost use Rattle.circle.specs.Circle.{apart, circle};

use whole::turn::turn_at;

// The square of the distance of two places.
pub fn apart_at(ax: u32, ay: u32, bx: u32, by: u32) -> i64
    requires { (ax ≤ 8191) × (ay ≤ 8191) × (bx ≤ 8191) × (by ≤ 8191) }
    ensures { result ≡ apart (place ax ay) (place bx by) }
{
    let x = bx as i64 - ax as i64;
    let y = by as i64 - ay as i64;
    x * x + y * y
}

// Positive where d lies strictly inside the circle through a, b and c, which stand counterclockwise.
pub fn circle_at(ax: u32, ay: u32, bx: u32, by: u32, cx: u32, cy: u32, dx: u32, dy: u32) -> i64
    requires { (ax ≤ 8191) × (ay ≤ 8191) × (bx ≤ 8191) × (by ≤ 8191) × (cx ≤ 8191) × (cy ≤ 8191) × (dx ≤ 8191) × (dy ≤ 8191) }
    ensures { result ≡ circle (place ax ay) (place bx by) (place cx cy) (place dx dy) }
{
    let a = apart_at(ax, ay, dx, dy) * turn_at(bx, by, cx, cy, dx, dy);
    let b = apart_at(bx, by, dx, dy) * turn_at(cx, cy, ax, ay, dx, dy);
    let c = apart_at(cx, cy, dx, dy) * turn_at(ax, ay, bx, by, dx, dy);
    a + b + c
}
