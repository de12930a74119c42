// The smooth curve along a side, and its bracket: document 01, "The curve along a side".
ghost use Rattle.std.specs.Prelude.{◌≡◌, ◌≤◌, ◌<◌, pos, ◌-ℤ◌};
ghost use Rattle.whole.specs.Range.{Within};
ghost use Rattle.survey.specs.Limits.{most_coordinate, most_height, most_slope};
ghost use Rattle.curve.specs.Below.{below};
ghost use Rattle.curve.specs.Side.{InRange};
ghost use Rattle.curve.specs.Weights.{weight_table};
ghost use Rattle.curve.specs.Curve.{slope_d, slope_e, most_d, most_e, six_heights, control_heights, ControlsFit, most_weighed, weighed, smooth_at, scaled};
ghost use Rattle.curve.specs.Bracket.{bracket_of};

use crate::side::End;
use crate::weights::{table, weight};

// The six control heights of a side, made once and read at each of its 65 stops.
#[derive(Clone, Copy)]
pub struct Controls {
    pub h: [i64; 6],
}

// How far a side goes, in x or in y.
fn step(from: u32, to: u32) -> i64
    requires { (from ≤ most_coordinate) × (to ≤ most_coordinate) }
    ensures { (result ≡ pos to -ℤ pos from) × Within most_coordinate result }
{
    to as i64 - from as i64
}

// D at an end of slopes p and q.
fn slope_d(p: i32, q: i32, dx: i64, dy: i64) -> i64
    requires { Within most_slope p × Within most_slope q × Within most_coordinate dx × Within most_coordinate dy }
    ensures { (result ≡ slope_d p q dx dy) × Within most_d result }
{
    whole::cut::cut_to(
        33554432,
        whole::rounding::round_div(p as i64 * dx + q as i64 * dy, 256),
    )
}

// E at an end of second slopes r, s and t.
fn slope_e(r: i32, s: i32, t: i32, dx: i64, dy: i64) -> i64
    requires { Within most_slope r × Within most_slope s × Within most_slope t × Within most_coordinate dx × Within most_coordinate dy }
    ensures { (result ≡ slope_e r s t dx dy) × Within most_e result }
{
    let e = r as i64 * (dx * dx) + 2 * s as i64 * dx * dy + t as i64 * (dy * dy);
    whole::cut::cut_to(134217728, whole::rounding::round_div(e, 256))
}

// The control heights between two stations, by the height, D and E of each.
fn six_heights(z1: i32, d1: i64, e1: i64, z2: i32, d2: i64, e2: i64) -> Controls
    requires { Within most_height z1 × Within most_d d1 × Within most_e e1 × Within most_height z2 × Within most_d d2 × Within most_e e2 }
    ensures { result.h ≡ six_heights z1 d1 e1 z2 d2 e2 }
{
    let low = 5120 * z1 as i64;
    let high = 5120 * z2 as i64;
    Controls {
        h: [
            low,
            low + 4 * d1,
            low + 8 * d1 + e1,
            high - 8 * d2 + e2,
            high - 4 * d2,
            high,
        ],
    }
}

// The control heights of the side from low, the lower-numbered station, to high.
pub fn control_heights(low: End, high: End) -> Controls
    requires { InRange low × InRange high }
    ensures { result.h ≡ control_heights low high }
{
    let dx = step(low.x, high.x);
    let dy = step(low.y, high.y);
    let d1 = slope_d(low.p, low.q, dx, dy);
    let e1 = slope_e(low.r, low.s, low.t, dx, dy);
    let d2 = slope_d(high.p, high.q, dx, dy);
    let e2 = slope_e(high.r, high.s, high.t, dx, dy);
    six_heights(low.z, d1, e1, high.z, d2, e2)
}

// Control height i by its weight at stop k.
fn weighed_at(weights: &[u32; 390], controls: Controls, k: u32, i: usize) -> i64
    requires { (weights.now ≡ weight_table) × ControlsFit controls.h × (k ≤ 64) × (i < 6) }
    ensures { (result ≡ weighed controls.h k i) × Within most_weighed result }
{
    weight(weights, k, i) as i64 * controls.h[i]
}

// The curve at stop k, times 5,120 times 2^30.
fn value_at(weights: &[u32; 390], controls: Controls, k: u32) -> i64
    requires { (weights.now ≡ weight_table) × ControlsFit controls.h × (k ≤ 64) }
    ensures { result ≡ smooth_at controls.h k }
{
    weighed_at(weights, controls, k, 0)
        + weighed_at(weights, controls, k, 1)
        + weighed_at(weights, controls, k, 2)
        + weighed_at(weights, controls, k, 3)
        + weighed_at(weights, controls, k, 4)
        + weighed_at(weights, controls, k, 5)
}

// Whether the curve is below the level at stop k.
fn is_below_at(weights: &[u32; 390], controls: Controls, level: i32, k: u32) -> bool
    requires { (weights.now ≡ weight_table) × ControlsFit controls.h × Within most_height level × (k ≤ 64) }
    ensures { result ≡ below (scaled 1 level) (smooth_at controls.h k) }
{
    value_at(weights, controls, k) < 5497558138880 * level as i64
}

// The bracket: the first stop after which the curve has left stop 0's side of the level.
pub fn find(controls: Controls, level: i32) -> u32
    requires { ControlsFit controls.h × Within most_height level }
    ensures { result ≡ bracket_of (smooth_at controls.h) (scaled 1 level) }
{
    let weights = table();
    let start = is_below_at(&weights, controls, level, 0);
    (0..64)
        .find(|&k| is_below_at(&weights, controls, level, k + 1) != start)
        .unwrap_or(64)
}
