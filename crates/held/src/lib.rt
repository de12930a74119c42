// The station at a place, the triangle that holds it, and the height over one preparation for as many places as are asked for.
#![tactic(auto)]

ghost use Rattle.std.specs.Prelude.{◌≡◌, List, ℕ, suc, ◌+◌, ◌*◌, ◌≤◌, ◌<◌, ℤ, pos, length, get_or};
ghost use Rattle.lists.specs.Lowest.{if_below};
ghost use Rattle.whole.specs.Place.{place};
ghost use Rattle.survey.specs.Fit.{Fit};
ghost use Rattle.survey.specs.Limits.{most_coordinate};
ghost use Rattle.survey.specs.Survey.{survey};
ghost use Rattle.triangles.specs.Chain.{places_of};
ghost use Rattle.sweep.specs.Sweep.{tri};
ghost use Rattle.slopes.specs.Slopes.{IsCut};
ghost use Rattle.quintic.specs.Quintic.{Short, corner_of};
ghost use Rattle.held.specs.Held.{station_at, is_left, is_held, holder, interpolated, height_by, triangle_in, Listed, five_in, Sloped};

use quintic::{Corner, Steps, corner_of, quintic_at, step_to, steps_of};
use slopes::slope::Five;
use survey::answers::Height;

// The station at a place, if one is there.
pub fn station_at(x: &[u32], y: &[u32], px: u32, py: u32) -> Option<usize>
    requires { length y.now ≡ length x.now }
    ensures { (zs : List ℤ) → result ≡ if_below (station_at (survey x.now y.now zs) (place px py)) (length x.now) }
{
    (0..x.len()).find(|&k| (x[k], y[k]) == (px, py))
}

// Whether the place is left of or on the side from a to b.
fn is_left(ax: u32, ay: u32, bx: u32, by: u32, px: u32, py: u32) -> bool
    requires { (ax ≤ most_coordinate) × (ay ≤ most_coordinate) × (bx ≤ most_coordinate) × (by ≤ most_coordinate)
        × (px ≤ most_coordinate) × (py ≤ most_coordinate) }
    ensures { result ≡ is_left (place ax ay) (place bx by) (place px py) }
{
    0 <= whole::turn::turn_at(ax, ay, bx, by, px, py)
}

// The same for the side from station a to station b.
fn is_left_of(x: &[u32], y: &[u32], a: usize, b: usize, px: u32, py: u32) -> bool
    requires { (length y.now ≡ length x.now) × (a < length x.now) × (b < length x.now)
        × ((i : ℕ) → get_or x.now i 0 ≤ most_coordinate) × ((i : ℕ) → get_or y.now i 0 ≤ most_coordinate) × (px ≤ most_coordinate) × (py ≤ most_coordinate) }
    ensures { result ≡ is_left (places_of x.now y.now a) (places_of x.now y.now b) (place px py) }
{
    is_left(x[a], y[a], x[b], y[b], px, py)
}

// Whether the triangle of stations a, b, c holds the place.
#[tactic(auto, unfolding(crate::specs::Held::is_held))]
pub fn is_held(x: &[u32], y: &[u32], a: usize, b: usize, c: usize, px: u32, py: u32) -> bool
    requires { (length y.now ≡ length x.now) × (a < length x.now) × (b < length x.now) × (c < length x.now)
        × ((i : ℕ) → get_or x.now i 0 ≤ most_coordinate) × ((i : ℕ) → get_or y.now i 0 ≤ most_coordinate) × (px ≤ most_coordinate) × (py ≤ most_coordinate) }
    ensures { result ≡ is_held (places_of x.now y.now) (place px py) (tri a b c) }
{
    is_left_of(x, y, a, b, px, py)
        && is_left_of(x, y, b, c, px, py)
        && is_left_of(x, y, c, a, px, py)
}

// The first of n triangles that holds the place, if one does.
pub fn holder_in(
    x: &[u32],
    y: &[u32],
    triangles: &[u16],
    n: usize,
    px: u32,
    py: u32,
) -> Option<usize>
    requires { Listed (length x.now) triangles.now n × (length y.now ≡ length x.now)
        × ((i : ℕ) → get_or x.now i 0 ≤ most_coordinate) × ((i : ℕ) → get_or y.now i 0 ≤ most_coordinate) × (px ≤ most_coordinate) × (py ≤ most_coordinate) }
    ensures { result ≡ if_below (holder (places_of x.now y.now) (triangle_in triangles.now) n (place px py)) n }
{
    (0..n).find(|&k| {
        let a = triangles[3 * k] as usize;
        let b = triangles[3 * k + 1] as usize;
        let c = triangles[3 * k + 2] as usize;
        is_held(x, y, a, b, c, px, py)
    })
}

// The slopes of station k.
fn five_of(slopes: &[i32], k: usize) -> Five
    requires { (k ≤ 65535) × (5 * k + 5 ≤ length slopes.now) × IsCut (five_in slopes.now k) }
    ensures { result ≡ five_in slopes.now k }
{
    Five {
        p: slopes[5 * k],
        q: slopes[5 * k + 1],
        r: slopes[5 * k + 2],
        s: slopes[5 * k + 3],
        t: slopes[5 * k + 4],
    }
}

// Station k as a corner of a triangle with the steps e.
fn corner_at(z: &[i32], slopes: &[i32], e: Steps, k: usize) -> Corner
    requires { (k ≤ 65535) × (k < length z.now) × (5 * k + 5 ≤ length slopes.now) × IsCut (five_in slopes.now k) × Short e }
    ensures { result ≡ corner_of e (get_or z.now k (pos 0)) (five_in slopes.now k) }
{
    let f = five_of(slopes, k);
    corner_of(e, z[k], f)
}

// The interpolated height over the triangle of stations a, b, c.
fn interpolate(
    x: &[u32],
    y: &[u32],
    z: &[i32],
    slopes: &[i32],
    a: usize,
    b: usize,
    c: usize,
    px: u32,
    py: u32,
) -> f64
    requires { Fit (survey x.now y.now z.now) × Sloped (survey x.now y.now z.now) slopes.now
        × (a < length x.now) × (b < length x.now) × (c < length x.now) × (px ≤ most_coordinate) × (py ≤ most_coordinate) }
    ensures { result ≡ interpolated (survey x.now y.now z.now) (tri a b c) (place px py) }
{
    let e = steps_of(x[a], y[a], x[b], y[b], x[c], y[c]);
    let k1 = corner_at(z, slopes, e, a);
    let k2 = corner_at(z, slopes, e, b);
    let k3 = corner_at(z, slopes, e, c);
    let dx = step_to(x[a], px);
    let dy = step_to(y[a], py);
    quintic_at(e, k1, k2, k3, dx, dy)
}

// The same over triangle k of a list.
pub fn interpolate_in(
    x: &[u32],
    y: &[u32],
    z: &[i32],
    triangles: &[u16],
    k: usize,
    slopes: &[i32],
    px: u32,
    py: u32,
) -> f64
    requires { Fit (survey x.now y.now z.now) × Sloped (survey x.now y.now z.now) slopes.now
        × Listed (length x.now) triangles.now (suc k) × (px ≤ most_coordinate) × (py ≤ most_coordinate) }
    ensures { result ≡ interpolated (survey x.now y.now z.now) (triangle_in triangles.now k) (place px py) }
{
    let a = triangles[3 * k] as usize;
    let b = triangles[3 * k + 1] as usize;
    let c = triangles[3 * k + 2] as usize;
    interpolate(x, y, z, slopes, a, b, c, px, py)
}

// The height over stations that passed the checks, the list of their triangles and their slopes: one preparation serves any number of
// places.
pub fn height_in(
    x: &[u32],
    y: &[u32],
    z: &[i32],
    triangles: &[u16],
    n: usize,
    slopes: &[i32],
    px: u32,
    py: u32,
) -> Height
    requires { Fit (survey x.now y.now z.now) × Sloped (survey x.now y.now z.now) slopes.now
        × Listed (length x.now) triangles.now n × (px ≤ most_coordinate) × (py ≤ most_coordinate) }
    ensures { result ≡ height_by (survey x.now y.now z.now) (triangle_in triangles.now) n (place px py) }
{
    if let Some(k) = station_at(x, y, px, py) {
        return Height::Own { z: z[k] };
    }
    match holder_in(x, y, triangles, n, px, py) {
        Some(k) => Height::Between {
            z: interpolate_in(x, y, z, triangles, k, slopes, px, py),
        },
        None => Height::Outside,
    }
}
