// Akima's quintic over one triangle: document 01, "Height at a place", step by step.
#![tactic(auto)]

ghost use Rattle.std.specs.Prelude.{◌≡◌, ◌≤◌, pos, ◌+ℤ◌, ◌-ℤ◌, ◌*ℤ◌};
ghost use Rattle.whole.specs.Place.{place};
ghost use Rattle.whole.specs.Range.{Within};
ghost use Rattle.survey.specs.Limits.{most_coordinate};
ghost use Rattle.slopes.specs.Slopes.{IsCut};
ghost use Rattle.quintic.specs.Real.{◌⊞◌, ◌⊠◌, whole};
ghost use Rattle.quintic.specs.Quintic.{steps_of, Short, over, corner_of, exchanged, steep_of, p41_of, p14_of, mixed_of};
ghost use Rattle.quintic.specs.Quintic.{us, sv, most_sum, m_of, middle_of, coefficients, u_of, v_of, nested, quintic};

use slopes::slope::Five;

// The steps from corner 1 to corners 2 and 3: a and b along x, c and d along y.
#[derive(Clone, Copy)]
pub struct Steps {
    pub a: i32,
    pub b: i32,
    pub c: i32,
    pub d: i32,
}

// A corner's height and its five derivatives, turned to u and v.
#[derive(Clone, Copy)]
pub struct Corner {
    pub z: f64,
    pub zu: f64,
    pub zv: f64,
    pub zuu: f64,
    pub zuv: f64,
    pub zvv: f64,
}

// What corners 1 and 2 give alone.
#[derive(Clone, Copy)]
pub struct Steep {
    pub p30: f64,
    pub p40: f64,
    pub p50: f64,
}

#[derive(Clone, Copy)]
pub struct Mixed {
    pub p21: f64,
    pub p31: f64,
}

// The last three.
#[derive(Clone, Copy)]
pub struct Middle {
    pub p22: f64,
    pub p32: f64,
    pub p23: f64,
}

// The coefficient of u^j v^k is pjk.
#[derive(Clone, Copy)]
pub struct Coefficients {
    pub p00: f64,
    pub p01: f64,
    pub p02: f64,
    pub p03: f64,
    pub p04: f64,
    pub p05: f64,
    pub p10: f64,
    pub p11: f64,
    pub p12: f64,
    pub p13: f64,
    pub p14: f64,
    pub p20: f64,
    pub p21: f64,
    pub p22: f64,
    pub p23: f64,
    pub p30: f64,
    pub p31: f64,
    pub p32: f64,
    pub p40: f64,
    pub p41: f64,
    pub p50: f64,
}

// How far it is from one coordinate to another.
pub fn step_to(from: u32, to: u32) -> i32
    requires { (from ≤ most_coordinate) × (to ≤ most_coordinate) }
    ensures { result ≡ pos to -ℤ pos from }
{
    to as i32 - from as i32
}

// The steps of a triangle.
pub fn steps_of(x1: u32, y1: u32, x2: u32, y2: u32, x3: u32, y3: u32) -> Steps
    requires { (x1 ≤ most_coordinate) × (y1 ≤ most_coordinate) × (x2 ≤ most_coordinate) × (y2 ≤ most_coordinate)
        × (x3 ≤ most_coordinate) × (y3 ≤ most_coordinate) }
    ensures { result ≡ steps_of (place x1 y1) (place x2 y2) (place x3 y3) }
{
    Steps {
        a: step_to(x1, x2),
        b: step_to(x1, x3),
        c: step_to(y1, y2),
        d: step_to(y1, y3),
    }
}

// A slope, from 65,536ths.
fn slope_of(p: i32) -> f64
    ensures { result ≡ over p }
{
    p as f64 / 65536.0
}

// zu from a and c, or zv from b and d.
fn first_of(a: i32, c: i32, zx: f64, zy: f64) -> f64
    ensures { result ≡ whole a ⊠ zx ⊞ whole c ⊠ zy }
{
    a as f64 * zx + c as f64 * zy
}

// zuu from a and c, or zvv from b and d.
fn second_of(a: i32, c: i32, zxx: f64, zxy: f64, zyy: f64) -> f64
    requires { Within most_coordinate a × Within most_coordinate c }
    ensures { result ≡ whole (a *ℤ a) ⊠ zxx ⊞ whole (pos 2 *ℤ a *ℤ c) ⊠ zxy ⊞ whole (c *ℤ c) ⊠ zyy }
{
    (a * a) as f64 * zxx + (2 * a * c) as f64 * zxy + (c * c) as f64 * zyy
}

// zuv.
fn cross_of(a: i32, b: i32, c: i32, d: i32, zxx: f64, zxy: f64, zyy: f64) -> f64
    requires { Within most_coordinate a × Within most_coordinate b × Within most_coordinate c × Within most_coordinate d }
    ensures { result ≡ whole (a *ℤ b) ⊠ zxx ⊞ whole (a *ℤ d +ℤ b *ℤ c) ⊠ zxy ⊞ whole (c *ℤ d) ⊠ zyy }
{
    (a * b) as f64 * zxx + (a * d + b * c) as f64 * zxy + (c * d) as f64 * zyy
}

// A corner, from its height and its slopes.
pub fn corner_of(e: Steps, z: i32, f: Five) -> Corner
    requires { Short e × IsCut f }
    ensures { result ≡ corner_of e z f }
{
    let zx = slope_of(f.p);
    let zy = slope_of(f.q);
    let zxx = slope_of(f.r);
    let zxy = slope_of(f.s);
    let zyy = slope_of(f.t);
    Corner {
        z: z as f64,
        zu: first_of(e.a, e.c, zx, zy),
        zv: first_of(e.b, e.d, zx, zy),
        zuu: second_of(e.a, e.c, zxx, zxy, zyy),
        zuv: cross_of(e.a, e.b, e.c, e.d, zxx, zxy, zyy),
        zvv: second_of(e.b, e.d, zxx, zxy, zyy),
    }
}

// The corner with v for u.
fn exchange(k: Corner) -> Corner
    ensures { result ≡ exchanged k }
{
    Corner {
        z: k.z,
        zu: k.zv,
        zv: k.zu,
        zuu: k.zvv,
        zuv: k.zuv,
        zvv: k.zuu,
    }
}

// p30, p40, p50 from corners 1 and 2.
fn steep_from(k1: Corner, k2: Corner) -> Steep
    ensures { result ≡ steep_of k1 k2 }
{
    let p00 = k1.z;
    let p10 = k1.zu;
    let p20 = 0.5 * k1.zuu;
    let h1 = k2.z - p00 - p10 - p20;
    let h2 = k2.zu - p10 - k1.zuu;
    let h3 = k2.zuu - k1.zuu;
    Steep {
        p30: 10.0 * h1 - 4.0 * h2 + 0.5 * h3,
        p40: -15.0 * h1 + 7.0 * h2 - h3,
        p50: 6.0 * h1 - 3.0 * h2 + 0.5 * h3,
    }
}

// p21, p31 from corners 1 and 2.
fn mixed_from(k1: Corner, k2: Corner, p41: f64) -> Mixed
    ensures { result ≡ mixed_of k1 k2 p41 }
{
    let p01 = k1.zv;
    let p11 = k1.zuv;
    let h1 = k2.zv - p01 - p11 - p41;
    let h2 = k2.zuv - p11 - 4.0 * p41;
    Mixed {
        p21: 3.0 * h1 - h2,
        p31: -2.0 * h1 + h2,
    }
}

// p41 and p14, of p50 and p05. Each is a line of document 01: one function would take p14's steps exchanged, and be no plainer.
fn p41_of(e: Steps, p50: f64) -> f64
    requires { Short e }
    ensures { result ≡ p41_of e p50 }
{
    (5 * (e.a * e.b + e.c * e.d)) as f64 / (e.a * e.a + e.c * e.c) as f64 * p50
}

fn p14_of(e: Steps, p05: f64) -> f64
    requires { Short e }
    ensures { result ≡ p14_of e p05 }
{
    (5 * (e.a * e.b + e.c * e.d)) as f64 / (e.b * e.b + e.d * e.d) as f64 * p05
}

// us and sv. Each is a line of document 01: with the steps exchanged one is the other with its sign turned, so one function is no plainer.
fn us_of(e: Steps) -> i32
    requires { Short e }
    ensures { result ≡ us e }
{
    e.a * (e.b - e.a) + e.c * (e.d - e.c)
}

fn sv_of(e: Steps) -> i32
    requires { Short e }
    ensures { result ≡ sv e }
{
    e.b * (e.b - e.a) + e.d * (e.d - e.c)
}

// m, of us and sv.
fn m_of(us: i32, sv: i32, p50: f64, p41: f64, p14: f64, p05: f64) -> f64
    requires { Within most_sum us × Within most_sum sv }
    ensures { result ≡ m_of us sv p50 p41 p14 p05 }
{
    (5 * sv) as f64 * p50 - (4 * sv + us) as f64 * p41 + (4 * us + sv) as f64 * p14
        - (5 * us) as f64 * p05
}

// p22, p32, p23, of us and sv.
fn middle_from(us: i32, sv: i32, h2: f64, h3: f64, m: f64) -> Middle
    requires { Within most_sum us × Within most_sum sv }
    ensures { result ≡ middle_of us sv h2 h3 m }
{
    let g1 = (-(3 * sv + 2 * us)) as f64;
    let g2 = (3 * us + 2 * sv) as f64;
    let p22 = (g1 * h2 + g2 * h3 - m) / (us - sv) as f64;
    Middle {
        p22: p22,
        p32: h2 - p22,
        p23: h3 - p22,
    }
}

// All coefficients, from the three corners.
pub fn coefficients_of(e: Steps, k1: Corner, k2: Corner, k3: Corner) -> Coefficients
    requires { Short e }
    ensures { result ≡ coefficients e k1 k2 k3 }
{
    let turned1 = exchange(k1);
    let turned3 = exchange(k3);
    let along_u = steep_from(k1, k2);
    let along_v = steep_from(turned1, turned3);
    let p50 = along_u.p50;
    let p05 = along_v.p50;
    let p41 = p41_of(e, p50);
    let p14 = p14_of(e, p05);
    let at_2 = mixed_from(k1, k2, p41);
    let at_3 = mixed_from(turned1, turned3, p14);
    let p20 = 0.5 * k1.zuu;
    let p02 = 0.5 * k1.zvv;
    let h2 = 0.5 * k2.zvv - p02 - at_3.p21;
    let h3 = 0.5 * k3.zuu - p20 - at_2.p21;
    let us = us_of(e);
    let sv = sv_of(e);
    let last = middle_from(us, sv, h2, h3, m_of(us, sv, p50, p41, p14, p05));
    Coefficients {
        p00: k1.z,
        p01: k1.zv,
        p02: p02,
        p03: along_v.p30,
        p04: along_v.p40,
        p05: p05,
        p10: k1.zu,
        p11: k1.zuv,
        p12: at_3.p21,
        p13: at_3.p31,
        p14: p14,
        p20: p20,
        p21: at_2.p21,
        p22: last.p22,
        p23: last.p23,
        p30: along_u.p30,
        p31: at_2.p31,
        p32: last.p32,
        p40: along_u.p40,
        p41: p41,
        p50: p50,
    }
}

// u and v of a step from corner 1. Each is a line of document 01: with the steps exchanged numerator and denominator change their signs, so
// that one function is no plainer.
fn u_of(e: Steps, dx: i32, dy: i32) -> f64
    requires { Short e × Within most_coordinate dx × Within most_coordinate dy }
    ensures { result ≡ u_of e dx dy }
{
    (e.d * dx - e.b * dy) as f64 / (e.a * e.d - e.b * e.c) as f64
}

fn v_of(e: Steps, dx: i32, dy: i32) -> f64
    requires { Short e × Within most_coordinate dx × Within most_coordinate dy }
    ensures { result ≡ v_of e dx dy }
{
    (e.a * dy - e.c * dx) as f64 / (e.a * e.d - e.b * e.c) as f64
}

// The sum, nested in v, then in u.
pub fn nest(p: Coefficients, u: f64, v: f64) -> f64
    ensures { result ≡ nested p u v }
{
    let q0 = ((((p.p05 * v + p.p04) * v + p.p03) * v + p.p02) * v + p.p01) * v + p.p00;
    let q1 = (((p.p14 * v + p.p13) * v + p.p12) * v + p.p11) * v + p.p10;
    let q2 = ((p.p23 * v + p.p22) * v + p.p21) * v + p.p20;
    let q3 = (p.p32 * v + p.p31) * v + p.p30;
    let q4 = p.p41 * v + p.p40;
    let q5 = p.p50;
    ((((q5 * u + q4) * u + q3) * u + q2) * u + q1) * u + q0
}

// The quintic at a step from corner 1.
pub fn quintic_at(e: Steps, k1: Corner, k2: Corner, k3: Corner, dx: i32, dy: i32) -> f64
    requires { Short e × Within most_coordinate dx × Within most_coordinate dy }
    ensures { result ≡ quintic e k1 k2 k3 dx dy }
{
    let p = coefficients_of(e, k1, k2, k3);
    let u = u_of(e, dx, dy);
    let v = v_of(e, dx, dy);
    nest(p, u, v)
}
