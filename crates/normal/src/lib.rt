// The sum of the pairs' normals: document 01, "Slopes".
#![tactic(auto)]

ghost use Rattle.std.specs.Prelude.{◌≡◌, [], ◌∷◌, ◌≤◌, ◌<◌, pos, ◌-ℤ◌, ◌*ℤ◌, length, get_or};
ghost use Rattle.whole.specs.Range.{Within};
ghost use Rattle.survey.specs.Limits.{most_coordinate, most_slope};
ghost use Rattle.nearest.specs.Places.{places, Placed, value_in, High};
ghost use Rattle.nearest.specs.Four.{Kept, near_row};
ghost use Rattle.normal.specs.Normal.{normal_of, none, added_part, added, added_all, step_to, normal_at, Short, Small};

// The step from a station to another.
#[derive(Clone, Copy)]
pub struct Step {
    pub dx: i64,
    pub dy: i64,
    pub dz: i64,
}

// NX, NY, NZ of a pair, or summed.
#[derive(Clone, Copy)]
pub struct Normal {
    pub nx: i64,
    pub ny: i64,
    pub nz: i64,
}

// How far station k is from station i along x or along y.
fn run_to(x: &[u32], i: usize, k: usize) -> i64
    requires { (i < length x.now) × (k < length x.now) × (get_or x.now i 0 ≤ most_coordinate) × (get_or x.now k 0 ≤ most_coordinate) }
    ensures { result ≡ pos (get_or x.now k 0) -ℤ pos (get_or x.now i 0) }
{
    x[k] as i64 - x[i] as i64
}

// How far station k is above station i, where h stands in the place of z.
fn rise_to(h: &[i32], i: usize, k: usize) -> i64
    requires { (i < length h.now) × (k < length h.now) × Within most_slope (value_in h.now i)
        × Within most_slope (value_in h.now k) }
    ensures { result ≡ value_in h.now k -ℤ value_in h.now i }
{
    h[k] as i64 - h[i] as i64
}

// The step from station i to station k.
fn step_to(x: &[u32], y: &[u32], h: &[i32], i: usize, k: usize) -> Step
    requires { Placed x.now y.now × High most_slope x.now h.now × (i < length x.now) × (k < length x.now) }
    ensures { result ≡ step_to (places x.now y.now) (value_in h.now) i k }
{
    Step {
        dx: run_to(x, i, k),
        dy: run_to(y, i, k),
        dz: rise_to(h, i, k),
    }
}

// NX, NY or NZ, of the two parts of each step that it is made of.
fn cross(a1: i64, b1: i64, a2: i64, b2: i64) -> i64
    requires { Within 536870912 a1 × Within 536870912 b1 × Within 536870912 a2 × Within 536870912 b2 }
    ensures { result ≡ a1 *ℤ b2 -ℤ b1 *ℤ a2 }
{
    a1 * b2 - b1 * a2
}

// The sum with n, negated where NZ is negative, and skipped where it is 0.
fn add_signed(sum: i64, n: i64, nz: i64) -> i64
    requires { Within 1152921504606846976 sum × Within 1152921504606846976 n × Within 1152921504606846976 nz }
    ensures { result ≡ added_part sum n nz }
{
    if nz < 0 {
        return sum - n;
    }
    if 0 < nz {
        return sum + n;
    }
    sum
}

// The sum with one pair more.
fn add_pair(sum: Normal, a: Step, b: Step) -> Normal
    requires { Small 1125899906842624 sum × Short 536870912 a × Short 536870912 b }
    ensures { result ≡ added sum (normal_of a b) }
{
    let nx = cross(a.dy, a.dz, b.dy, b.dz);
    let ny = cross(a.dz, a.dx, b.dz, b.dx);
    let nz = cross(a.dx, a.dy, b.dx, b.dy);
    Normal {
        nx: add_signed(sum.nx, nx, nz),
        ny: add_signed(sum.ny, ny, nz),
        nz: add_signed(sum.nz, nz, nz),
    }
}

// The sum of the six pairs of four steps.
fn add_pairs(a: Step, b: Step, c: Step, d: Step) -> Normal
    requires { Short 536870912 a × Short 536870912 b × Short 536870912 c × Short 536870912 d }
    ensures { result ≡ added_all none (a ∷ b ∷ c ∷ d ∷ []) }
{
    let zero = Normal {
        nx: 0,
        ny: 0,
        nz: 0,
    };
    let ab = add_pair(zero, a, b);
    let ac = add_pair(ab, a, c);
    let ad = add_pair(ac, a, d);
    let bc = add_pair(ad, b, c);
    let bd = add_pair(bc, b, d);
    add_pair(bd, c, d)
}

// The step from station i to the one at place j of its row.
fn step_near(x: &[u32], y: &[u32], h: &[i32], near: &[u16], i: usize, j: usize) -> Step
    requires { Placed x.now y.now × High most_slope x.now h.now × Kept x.now y.now near.now × (i < length x.now)
        × (j < 4) }
    ensures { result
        ≡ step_to (places x.now y.now) (value_in h.now) i (get_or (near_row (places x.now y.now) i) j 0) }
{
    step_to(x, y, h, i, near[4 * i + j] as usize)
}

// The sums NX, NY, NZ of station i, where h stands in the place of z.
pub fn sum_at(x: &[u32], y: &[u32], h: &[i32], near: &[u16], i: usize) -> Normal
    requires { Placed x.now y.now × High most_slope x.now h.now × Kept x.now y.now near.now × (i < length x.now) }
    ensures { result ≡ normal_at (places x.now y.now) (value_in h.now) i }
{
    let a = step_near(x, y, h, near, i, 0);
    let b = step_near(x, y, h, near, i, 1);
    let c = step_near(x, y, h, near, i, 2);
    let d = step_near(x, y, h, near, i, 3);
    add_pairs(a, b, c, d)
}
