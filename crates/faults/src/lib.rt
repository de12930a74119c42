// The first wrong triangle of a mesh that is handed in, and whether a station is left out: document 02, L10.
#![tactic(auto)]

ghost use Rattle.std.specs.Prelude.{◌≡◌, not, ◌*◌, ◌≤◌, ◌<◌, length};
ghost use Rattle.lists.specs.Lowest.{if_below, some};
ghost use Rattle.survey.specs.Fit.{Fit};
ghost use Rattle.survey.specs.Survey.{survey};
ghost use Rattle.sweep.specs.Page.{every};
ghost use Rattle.neighbours.specs.Room.{threes};
ghost use Rattle.held.specs.Held.{triangle_in};
ghost use Rattle.woven.specs.Accepted.{is_corner, is_faultless, first_wrong, is_unused};

use conditions::inner::{corners_at, has_inner, is_corner, is_positive};
use conditions::side::is_sewn;

// Whether triangle k of t triangles has no wrong number, turn, inner station or side.
#[tactic(auto, unfolding(woven::specs::Accepted::is_faultless))]
fn is_faultless(x: &[u32], y: &[u32], z: &[i32], triangles: &[u16], t: usize, k: usize) -> bool
    requires { Fit (survey x.now y.now z.now) × (3 * t ≤ length triangles.now) × (k < t) }
    ensures { result ≡ is_faultless (survey x.now y.now z.now) (threes t triangles.now) (triangle_in triangles.now k) }
{
    let n = x.len();
    let u = corners_at(triangles, k);
    let a = u.a as usize;
    let b = u.b as usize;
    let c = u.c as usize;
    a < n
        && b < n
        && c < n
        && is_positive(x, y, z, a, b, c)
        && !has_inner(x, y, z, a, b, c)
        && is_sewn(x, y, z, triangles, t, a, b)
        && is_sewn(x, y, z, triangles, t, b, c)
        && is_sewn(x, y, z, triangles, t, c, a)
}

// The first triangle that has one, if one does.
pub fn first_wrong(x: &[u32], y: &[u32], z: &[i32], triangles: &[u16], t: usize) -> Option<usize>
    requires { Fit (survey x.now y.now z.now) × (3 * t ≤ length triangles.now) }
    ensures { result ≡ if_below (first_wrong (survey x.now y.now z.now) (threes t triangles.now) (threes t triangles.now)) t }
{
    (0..t).find(|&k| !is_faultless(x, y, z, triangles, t, k))
}

// Whether station k is a corner of none of t triangles.
fn is_left_out(triangles: &[u16], t: usize, k: usize) -> bool
    requires { 3 * t ≤ length triangles.now }
    ensures { result ≡ every (λ u. not (is_corner k u)) (threes t triangles.now) }
{
    (0..t).all(|i| {
        let u = corners_at(triangles, i);
        !is_corner(k, u.a as usize, u.b as usize, u.c as usize)
    })
}

// Whether some station is.
pub fn has_left_out(x: &[u32], y: &[u32], z: &[i32], triangles: &[u16], t: usize) -> bool
    requires { 3 * t ≤ length triangles.now }
    ensures { result ≡ some (is_unused (survey x.now y.now z.now) (threes t triangles.now)) (length x.now) }
{
    (0..x.len()).any(|k| is_left_out(triangles, t, k))
}
