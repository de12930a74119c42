// A side of a list of triangles: how often it is run, and whether it is a side of the hull.
ghost use Rattle.std.specs.Prelude.{◌≡◌, ◌||◌, ◌&&◌, ◌+◌, ◌*◌, ◌≤◌, ◌<◌, length};
ghost use Rattle.lists.specs.Lowest.{some};
ghost use Rattle.whole.specs.Place.{place};
ghost use Rattle.survey.specs.Fit.{Fit};
ghost use Rattle.survey.specs.Survey.{survey};
ghost use Rattle.sweep.specs.Page.{is_before};
ghost use Rattle.neighbours.specs.Room.{threes};
ghost use Rattle.hull.specs.Hull.{is_right, is_between, is_hull_side};
ghost use Rattle.hull.specs.MeshOf.{step_is, runs, runs_in};
ghost use Rattle.held.specs.Held.{triangle_in};
ghost use Rattle.woven.specs.Accepted.{is_sewn};

use crate::inner::corners_at;
use whole::turn::turn_at;

// 1 where the step from a to b is that from i to j, else 0.
#[tactic(auto, unfolding(hull::specs::MeshOf::step_is))]
fn step_is(i: usize, j: usize, a: usize, b: usize) -> usize
    ensures { (result ≡ step_is i j a b) × (result ≤ 1) }
{
    usize::from((a, b) == (i, j))
}

// How often triangle k of a list runs from i to j.
fn runs_of(triangles: &[u16], k: usize, i: usize, j: usize) -> usize
    requires { 3 * k + 2 < length triangles.now }
    ensures { (result ≡ runs i j (triangle_in triangles.now k)) × (result ≤ 3) }
{
    let t = corners_at(triangles, k);
    let a = t.a as usize;
    let b = t.b as usize;
    let c = t.c as usize;
    step_is(i, j, a, b) + step_is(i, j, b, c) + step_is(i, j, c, a)
}

// How often the first t triangles of a list do.
fn runs_in(triangles: &[u16], t: usize, i: usize, j: usize) -> usize
    requires { 3 * t ≤ length triangles.now }
    ensures { result ≡ runs_in i j (threes t triangles.now) }
{
    let mut sum = 0;
    for k in 0..t {
        sum += runs_of(triangles, k, i, j);
    }
    sum
}

// Whether place a comes before place b, by rising x, then rising y.
#[tactic(auto, unfolding(sweep::specs::Page::is_before))]
fn is_before(ax: u32, ay: u32, bx: u32, by: u32) -> bool
    ensures { result ≡ is_before (place ax ay) (place bx by) }
{
    (ax, ay) < (bx, by)
}

// Whether place w comes behind place a and before place b in that order.
fn is_within(ax: u32, ay: u32, wx: u32, wy: u32, bx: u32, by: u32) -> bool
    ensures { result ≡ (is_before (place ax ay) (place wx wy) && is_before (place wx wy) (place bx by)) }
{
    is_before(ax, ay, wx, wy) && is_before(wx, wy, bx, by)
}

// Whether it comes between the two, whichever of them comes first.
fn is_amid(ax: u32, ay: u32, wx: u32, wy: u32, bx: u32, by: u32) -> bool
    ensures { result ≡ ((is_before (place ax ay) (place wx wy) && is_before (place wx wy) (place bx by))
        || (is_before (place bx by) (place wx wy) && is_before (place wx wy) (place ax ay))) }
{
    is_within(ax, ay, wx, wy, bx, by) || is_within(bx, by, wx, wy, ax, ay)
}

// Whether station w keeps the side from i to j off the hull: it lies to the right of it, or on its line between its ends.
fn is_beside(x: &[u32], y: &[u32], z: &[i32], i: usize, j: usize, w: usize) -> bool
    requires { Fit (survey x.now y.now z.now) × (i < length x.now) × (j < length x.now) × (w < length x.now) }
    ensures { result ≡ (is_right (survey x.now y.now z.now) i j w
        || is_between (survey x.now y.now z.now) i j w) }
{
    let t = turn_at(x[i], y[i], x[j], y[j], x[w], y[w]);
    t <= 0 && (t < 0 || is_amid(x[i], y[i], x[w], y[w], x[j], y[j]))
}

// Whether some station does.
fn has_beside(x: &[u32], y: &[u32], z: &[i32], i: usize, j: usize) -> bool
    requires { Fit (survey x.now y.now z.now) × (i < length x.now) × (j < length x.now) }
    ensures { result ≡ some (λ w. is_right (survey x.now y.now z.now) i j w
        || is_between (survey x.now y.now z.now) i j w) (length x.now) }
{
    (0..x.len()).any(|w| is_beside(x, y, z, i, j, w))
}

// Whether the side from i to j is one of the hull.
fn is_hull_side(x: &[u32], y: &[u32], z: &[i32], i: usize, j: usize) -> bool
    requires { Fit (survey x.now y.now z.now) × (i < length x.now) × (j < length x.now) }
    ensures { result ≡ is_hull_side (survey x.now y.now z.now) i j }
{
    i != j && !has_beside(x, y, z, i, j)
}

// Whether the side from i to j is run by two of t triangles, once each way, or is a hull side with one.
#[tactic(auto, unfolding(woven::specs::Accepted::is_sewn))]
pub fn is_sewn(
    x: &[u32],
    y: &[u32],
    z: &[i32],
    triangles: &[u16],
    t: usize,
    i: usize,
    j: usize,
) -> bool
    requires { Fit (survey x.now y.now z.now) × (3 * t ≤ length triangles.now) × (i < length x.now) × (j < length x.now) }
    ensures { result ≡ is_sewn (survey x.now y.now z.now) (threes t triangles.now) i j }
{
    if runs_in(triangles, t, i, j) != 1 {
        return false;
    }
    // How often it is run back is counted only where it is run once.
    let back = runs_in(triangles, t, j, i);
    back == 1 || back == 0 && is_hull_side(x, y, z, i, j)
}
