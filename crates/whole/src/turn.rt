// Which way three places turn: document 01, "Mesh".
ghost use Rattle.std.specs.Prelude.{◌≡◌, ◌≤◌};
ghost use Rattle.whole.specs.Place.{place};
ghost use Rattle.whole.specs.Turn.{turn};

// Twice the signed area of the triangle a, b, c: positive counterclockwise.
pub fn turn_at(ax: u32, ay: u32, bx: u32, by: u32, cx: u32, cy: u32) -> i64
    requires { (ax ≤ 1073741823) × (ay ≤ 1073741823) × (bx ≤ 1073741823) × (by ≤ 1073741823) × (cx ≤ 1073741823) × (cy ≤ 1073741823) }
    ensures { result ≡ turn (place ax ay) (place bx by) (place cx cy) }
{
    let x = ax as i64;
    let y = ay as i64;
    (bx as i64 - x) * (cy as i64 - y) - (by as i64 - y) * (cx as i64 - x)
}
