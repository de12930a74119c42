// The corners of a triangle, its turn, and stations in it.
ghost use Rattle.std.specs.Prelude.{◌≡◌, ◌+◌, ◌*◌, ◌<◌, length};
ghost use Rattle.lists.specs.Lowest.{some};
ghost use Rattle.survey.specs.Fit.{Fit};
ghost use Rattle.survey.specs.Survey.{survey};
ghost use Rattle.sweep.specs.Sweep.{tri};
ghost use Rattle.held.specs.Held.{triangle_in};
ghost use Rattle.woven.specs.Accepted.{is_positive, is_corner, is_inner};

use held::is_held;
use triangles::chain::Corners;
use whole::turn::turn_at;

// The corners of triangle k of a list.
pub fn corners_at(triangles: &[u16], k: usize) -> Corners
    requires { 3 * k + 2 < length triangles.now }
    ensures { tri result.a result.b result.c ≡ triangle_in triangles.now k }
{
    Corners {
        a: triangles[3 * k],
        b: triangles[3 * k + 1],
        c: triangles[3 * k + 2],
    }
}

// Whether the triangle a, b, c is counterclockwise with positive area.
pub fn is_positive(x: &[u32], y: &[u32], z: &[i32], a: usize, b: usize, c: usize) -> bool
    requires { Fit (survey x.now y.now z.now) × (a < length x.now) × (b < length x.now) × (c < length x.now) }
    ensures { result ≡ is_positive (survey x.now y.now z.now) (tri a b c) }
{
    0 < turn_at(x[a], y[a], x[b], y[b], x[c], y[c])
}

// Whether station k is a corner of the triangle a, b, c.
pub fn is_corner(k: usize, a: usize, b: usize, c: usize) -> bool
    ensures { result ≡ is_corner k (tri a b c) }
{
    k == a || k == b || k == c
}

// Whether station k lies in the triangle a, b, c, edges counted, and is no corner of it.
fn is_inner(x: &[u32], y: &[u32], z: &[i32], a: usize, b: usize, c: usize, k: usize) -> bool
    requires { Fit (survey x.now y.now z.now) × (a < length x.now) × (b < length x.now) × (c < length x.now) × (k < length x.now) }
    ensures { result ≡ is_inner (survey x.now y.now z.now) (tri a b c) k }
{
    is_held(x, y, a, b, c, x[k], y[k]) && !is_corner(k, a, b, c)
}

// Whether some station does.
pub fn has_inner(x: &[u32], y: &[u32], z: &[i32], a: usize, b: usize, c: usize) -> bool
    requires { Fit (survey x.now y.now z.now) × (a < length x.now) × (b < length x.now) × (c < length x.now) }
    ensures { result ≡ some (is_inner (survey x.now y.now z.now) (tri a b c)) (length x.now) }
{
    (0..x.len()).any(|k| is_inner(x, y, z, a, b, c, k))
}
