// A door to the bracket and the spot of one side.
ghost use Rattle.std.specs.Prelude.{◌≡◌, cond};
ghost use Rattle.curve.specs.Spot.{spot_at};
ghost use Rattle.parts.specs.Parts.{flag};
ghost use Rattle.parts.specs.Sides.{is_height, is_slope, are_slopes, can_end, end_of, can_draw, bracket_at};

use curve::side::End;

// Whether a height or a level is in range.
#[tactic(auto, unfolding(crate::specs::Sides::is_height))]
fn is_height(z: i32) -> bool
    ensures { result ≡ is_height z }
{
    !(z < -32767 || 32767 < z)
}

// Whether a slope is in range.
#[tactic(auto, unfolding(crate::specs::Sides::is_slope))]
fn is_slope(p: i32) -> bool
    ensures { result ≡ is_slope p }
{
    !(p < -268435456 || 268435456 < p)
}

// Whether all slopes of a station are in range.
fn are_slopes(p: i32, q: i32, r: i32, s: i32, t: i32) -> bool
    ensures { result ≡ are_slopes p q r s t }
{
    is_slope(p) && is_slope(q) && is_slope(r) && is_slope(s) && is_slope(t)
}

// Whether a station can be an end of a side.
#[tactic(auto, unfolding(crate::specs::Sides::can_end))]
fn can_end(e: End) -> bool
    ensures { result ≡ can_end e }
{
    e.x <= 8191 && (e.y <= 8191 && (is_height(e.z) && are_slopes(e.p, e.q, e.r, e.s, e.t)))
}

// Whether a spot can be asked: all in range, and the side crossed. One test after another: joined into one, the proof does not close.
fn can_draw(low: End, high: End, level: i32) -> bool
    ensures { result ≡ can_draw low high level }
{
    if !can_end(low) {
        return false;
    }
    if !can_end(high) {
        return false;
    }
    if !is_height(level) {
        return false;
    }
    curve::side::is_crossed(level, low.z, high.z)
}

// The bracket of the side from station 1 to station 2 and its spot, into k, x and y. Style is 0 straight, else smooth.
#[unsafe(no_mangle)]
pub extern "C" fn parts_bracket(
    x1: u32,
    y1: u32,
    z1: i32,
    p1: i32,
    q1: i32,
    r1: i32,
    s1: i32,
    t1: i32,
    x2: u32,
    y2: u32,
    z2: i32,
    p2: i32,
    q2: i32,
    r2: i32,
    s2: i32,
    t2: i32,
    level: i32,
    style: u32,
    k: &mut u32,
    x: &mut u32,
    y: &mut u32,
) -> u32
    ensures { (result ≡ flag (can_draw (end_of x1 y1 z1 p1 q1 r1 s1 t1) (end_of x2 y2 z2 p2 q2 r2 s2 t2) level))
        × (k.new ≡ cond (can_draw (end_of x1 y1 z1 p1 q1 r1 s1 t1) (end_of x2 y2 z2 p2 q2 r2 s2 t2) level)
        (bracket_at style (end_of x1 y1 z1 p1 q1 r1 s1 t1) (end_of x2 y2 z2 p2 q2 r2 s2 t2) level) k.old)
        × (x.new ≡ cond (can_draw (end_of x1 y1 z1 p1 q1 r1 s1 t1) (end_of x2 y2 z2 p2 q2 r2 s2 t2) level)
        (spot_at x1 x2 (bracket_at style (end_of x1 y1 z1 p1 q1 r1 s1 t1) (end_of x2 y2 z2 p2 q2 r2 s2 t2) level)) x.old)
        × (y.new ≡ cond (can_draw (end_of x1 y1 z1 p1 q1 r1 s1 t1) (end_of x2 y2 z2 p2 q2 r2 s2 t2) level)
        (spot_at y1 y2 (bracket_at style (end_of x1 y1 z1 p1 q1 r1 s1 t1) (end_of x2 y2 z2 p2 q2 r2 s2 t2) level)) y.old) }
{
    let low = End {
        x: x1,
        y: y1,
        z: z1,
        p: p1,
        q: q1,
        r: r1,
        s: s1,
        t: t1,
    };
    let high = End {
        x: x2,
        y: y2,
        z: z2,
        p: p2,
        q: q2,
        r: r2,
        s: s2,
        t: t2,
    };
    if can_draw(low, high, level) {
        let found = curve::bracket::bracket(low, high, level, style);
        let spot = curve::spot::spot_of(low, high, found);
        *k = found;
        *x = spot.x;
        *y = spot.y;
        return 1;
    }
    0
}
