// The quick test of triangles that are handed in: numbers, turns, stations and sides. What passes it is a mesh; what fails it is searched.
ghost use Rattle.std.specs.Prelude.{◌≡◌, true, ℕ, ◌*◌, ◌-◌, ◌≤◌, ◌<◌, length, get_or, take};
ghost use Rattle.survey.specs.Fit.{Fit};
ghost use Rattle.survey.specs.Limits.{most_stations};
ghost use Rattle.survey.specs.Rank.{by_rank};
ghost use Rattle.survey.specs.Survey.{survey};
ghost use Rattle.neighbours.specs.Room.{threes};
ghost use Rattle.held.specs.Held.{triangle_in};
ghost use Rattle.woven.specs.Accepted.{is_positive};
ghost use Rattle.woven.specs.Woven.{Woven};
ghost use Rattle.supplied.specs.Named.{Named, Marked};

use conditions::inner::{corners_at, is_positive};
use outline::put_outline;
use survey::limits::MOST_STATIONS;
use twins::are_sewn;

// Whether the first m numbers of a list are stations.
fn are_stations(triangles: &[u16], m: usize, n: usize) -> bool
    requires { m ≤ length triangles.now }
    ensures { result ≡ true → (h : ℕ) → h < m → get_or triangles.now h 0 < n }
{
    triangles[..m].iter().all(|&k| (k as usize) < n)
}

// Whether t triangles on stations are all counterclockwise with positive area.
fn are_positive(x: &[u32], y: &[u32], z: &[i32], triangles: &[u16], t: usize) -> bool
    requires { Fit (survey x.now y.now z.now) × (t ≤ 65535) × (3 * t ≤ length triangles.now)
        × ((h : ℕ) → h < 3 * t → get_or triangles.now h 0 < length x.now) }
    ensures { result ≡ true → (k : ℕ) → k < t → is_positive (survey x.now y.now z.now) (triangle_in triangles.now k) ≡ true }
{
    (0..t).all(|k| {
        let u = corners_at(triangles, k);
        is_positive(x, y, z, u.a as usize, u.b as usize, u.c as usize)
    })
}

// A mark for each station among the first m numbers of a list, where none is marked yet.
fn mark(triangles: &[u16], m: usize, marks: &mut [u8])
    requires { (m ≤ length triangles.now) × ((h : ℕ) → h < m → get_or triangles.now h 0 < length marks.old) × ((k : ℕ) → get_or marks.old k 0 ≡ 0) }
    ensures { Marked triangles.now m marks.new }
{
    for &k in &triangles[..m] {
        marks[k as usize] = 1;
    }
}

// Whether the first n stations are all marked.
fn are_marked(marks: &[u8], n: usize) -> bool
    requires { n ≤ length marks.now }
    ensures { result ≡ true → (k : ℕ) → k < n → get_or marks.now k 0 ≡ 0 → ⊥ }
{
    marks[..n].iter().all(|&mark| mark != 0)
}

// Whether every one of n stations is among the first m numbers of a list, which are stations.
fn are_named(triangles: &[u16], m: usize, n: usize) -> bool
    requires { (m ≤ length triangles.now) × (n ≤ most_stations) × ((h : ℕ) → h < m → get_or triangles.now h 0 < n) }
    ensures { result ≡ true → (k : ℕ) → k < n → Named triangles.now m k }
{
    let mut marks = [0u8; MOST_STATIONS];
    mark(triangles, m, &mut marks);
    are_marked(&marks, n)
}

// Whether t triangles have right numbers, turns and sides and leave no station out, where `order` has the stations in order. That it says so
// of every mesh is not said.
pub fn is_woven(x: &[u32], y: &[u32], z: &[i32], order: &[u16], triangles: &[u16], t: usize) -> bool
    requires { Fit (survey x.now y.now z.now) × (length x.now ≤ length order.now) × (take (length x.now) order.now ≡ by_rank x.now y.now)
        × (t ≤ 2 * most_stations - 5) × (3 * t ≤ length triangles.now) }
    ensures { result ≡ true → Woven (survey x.now y.now z.now) (threes t triangles.now) }
{
    let n = x.len();
    if !(are_stations(triangles, 3 * t, n)
        && are_positive(x, y, z, triangles, t)
        && are_named(triangles, 3 * t, n))
    {
        return false;
    }
    // The outline is made only where the triangles pass so far.
    let mut next = [0u16; MOST_STATIONS];
    put_outline(x, y, z, order, &mut next);
    are_sewn(triangles, t, n, &next)
}
