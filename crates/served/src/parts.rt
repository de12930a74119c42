// The two parts of a triangle: 'Each triangle is cut at its drawn spots'.
// The style is a number here, as in the definitions: the curve is defined for every one.
ghost use Rattle.std.specs.Prelude.{◌≡◌, true, not, [], ◌∷◌, ℕ, ◌≤◌, ◌<◌, pos, length, get_or};
ghost use Rattle.whole.specs.Range.{Within};
ghost use Rattle.survey.specs.Limits.{most_coordinate, most_height};
ghost use Rattle.survey.specs.Survey.{survey, height_of};
ghost use Rattle.curve.specs.Below.{below, is_crossed};
ghost use Rattle.sweep.specs.Sweep.{tri};
ghost use Rattle.trace.specs.Side.{◌⟶◌, side_of};
ghost use Rattle.spots.specs.Lines.{is_below, spot_on};
ghost use Rattle.ground.specs.Segments.{station_place};
ghost use Rattle.parcels.specs.Area.{twice_within};
ghost use Rattle.served.specs.Figures.{most_area, AllRanged, Counter, corner_spot, CutAt, figures_by, PartsOf};

use crate::outline::{Cut, around_four, around_three};
use curve::side::is_one;
use curve::spot::Spot;
use spots::spots::spot_between;
use survey::answers::Figures;

// Station k as a corner.
fn corner_at(x: &[u32], y: &[u32], k: usize) -> Spot
    requires { (k < length x.now) × (k < length y.now) × (get_or x.now k 0 ≤ most_coordinate) × (get_or y.now k 0 ≤ most_coordinate) }
    ensures { result ≡ corner_spot x.now y.now k }
{
    Spot {
        x: 128 * x[k],
        y: 128 * y[k],
    }
}

// The spot on the crossed side between stations i and j, from its lower-numbered one.
fn spot_on(
    x: &[u32],
    y: &[u32],
    z: &[i32],
    slopes: &[i32],
    level: i32,
    style: u32,
    i: usize,
    j: usize,
) -> Spot
    requires { AllRanged (survey x.now y.now z.now) slopes.now × Within most_height level × (i < length x.now) × (j < length x.now)
        × (is_crossed level (height_of (survey x.now y.now z.now) i) (height_of (survey x.now y.now z.now) j) ≡ true) }
    ensures { result ≡ spot_on (survey x.now y.now z.now) slopes.now style level (side_of (i ⟶ j)) }
{
    if i < j {
        return spot_between(x, y, z, slopes, level, style, i, j);
    }
    spot_between(x, y, z, slopes, level, style, j, i)
}

// The parts of the triangle v, w, u, from which the level cuts off v.
fn cut_at(
    x: &[u32],
    y: &[u32],
    z: &[i32],
    slopes: &[i32],
    level: i32,
    style: u32,
    v: usize,
    w: usize,
    u: usize,
) -> Cut
    requires { AllRanged (survey x.now y.now z.now) slopes.now × Within most_height level
        × Counter (survey x.now y.now z.now) (tri v w u)
        × (is_below (survey x.now y.now z.now) level w ≡ not (is_below (survey x.now y.now z.now) level v))
        × (is_below (survey x.now y.now z.now) level u ≡ not (is_below (survey x.now y.now z.now) level v)) }
    ensures { CutAt (survey x.now y.now z.now) slopes.now style level v w u result }
{
    let p = spot_on(x, y, z, slopes, level, style, v, w);
    let q = spot_on(x, y, z, slopes, level, style, u, v);
    let a = corner_at(x, y, v);
    let b = corner_at(x, y, w);
    let c = corner_at(x, y, u);
    Cut {
        corner: around_three(a, p, q),
        rest: around_four(p, b, c, q),
    }
}

// A triangle that the level does not cut, as one part.
fn uncut(x: &[u32], y: &[u32], a: usize, b: usize, c: usize) -> Cut
    requires { (length y.now ≡ length x.now) × ((k : ℕ) → k < length x.now → get_or x.now k 0 ≤ most_coordinate)
        × ((k : ℕ) → k < length x.now → get_or y.now k 0 ≤ most_coordinate) × Counter (survey x.now y.now []) (tri a b c) }
    ensures { (pos result.corner ≡ twice_within (station_place (survey x.now y.now []) a
        ∷ station_place (survey x.now y.now []) b ∷ station_place (survey x.now y.now []) c ∷ []))
        × (result.rest ≡ 0) × (result.corner ≤ most_area) }
{
    let p = corner_at(x, y, a);
    let q = corner_at(x, y, b);
    let r = corner_at(x, y, c);
    Cut {
        corner: around_three(p, q, r),
        rest: 0,
    }
}

// The figures of a triangle cut at a corner, by the side of the level that the corner is on. The flag is that of the definition.
fn figures_by(below: bool, cut: Cut) -> Figures
    ensures { result ≡ figures_by below cut }
{
    if below {
        Figures {
            served: cut.rest,
            unserved: cut.corner,
        }
    } else {
        Figures {
            served: cut.corner,
            unserved: cut.rest,
        }
    }
}

// Whether station k is below the level.
fn is_below_at(z: &[i32], level: i32, k: usize) -> bool
    requires { k < length z.now }
    ensures { result ≡ below level (get_or z.now k (pos 0)) }
{
    z[k] < level
}

// The figures of the triangle of stations a, b, c.
pub fn parts_of(
    x: &[u32],
    y: &[u32],
    z: &[i32],
    slopes: &[i32],
    level: i32,
    style: u32,
    a: usize,
    b: usize,
    c: usize,
) -> Figures
    requires { AllRanged (survey x.now y.now z.now) slopes.now × Within most_height level
        × Counter (survey x.now y.now z.now) (tri a b c) }
    ensures { PartsOf (survey x.now y.now z.now) slopes.now style level (tri a b c) result }
{
    let fa = is_below_at(z, level, a);
    let fb = is_below_at(z, level, b);
    let fc = is_below_at(z, level, c);
    if is_one(fa, fb) {
        if is_one(fb, fc) {
            return figures_by(fb, cut_at(x, y, z, slopes, level, style, b, c, a));
        }
        return figures_by(fa, cut_at(x, y, z, slopes, level, style, a, b, c));
    }
    if is_one(fb, fc) {
        return figures_by(fc, cut_at(x, y, z, slopes, level, style, c, a, b));
    }
    figures_by(fa, uncut(x, y, a, b, c))
}
