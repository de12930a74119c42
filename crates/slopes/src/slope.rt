// The five slopes at a station: document 01, "Slopes".
ghost use Rattle.std.specs.Prelude.{◌≡◌, ◌++◌, ◌+◌, ◌*◌, ◌≤◌, ◌<◌, pos, neg_ℤ, nat_abs, ◌+ℤ◌, ◌*ℤ◌, length, drop, ◌<ℤ◌};
ghost use Rattle.std.proofs.lemmas.List.Edits.{sets};
ghost use Rattle.lists.specs.Table.{table};
ghost use Rattle.whole.specs.Range.{Within};
ghost use Rattle.survey.specs.Limits.{most_height, most_slope};
ghost use Rattle.nearest.specs.Places.{places, Placed, value_in, High};
ghost use Rattle.nearest.specs.Four.{Kept};
ghost use Rattle.slopes.specs.Slopes.{slope, slope_p, slope_q, first_at, five_at, row, IsCut};
ghost use Rattle.lists.specs.Rows.{rows};

use normal::sum_at;

// p and q of a station.
#[derive(Clone, Copy)]
pub struct First {
    pub p: i32,
    pub q: i32,
}

// All five of a station.
#[derive(Clone, Copy)]
pub struct Five {
    pub p: i32,
    pub q: i32,
    pub r: i32,
    pub s: i32,
    pub t: i32,
}

// n / d rounded, then cut.
fn slope_of(n: i64, d: u64) -> i32
    requires { Within 1152921504606846976 n × (0 < d) × (d ≤ 1152921504606846976) }
    ensures { result ≡ slope n d }
{
    whole::cut::cut_to(268435456, whole::rounding::round_div(n, d)) as i32
}

// 'p = -65536·NX/NZ', or q from NY.
fn first_of(n: i64, nz: i64) -> i32
    requires { Within 8796093022208 n × Within 8796093022208 nz × (pos 0 <ℤ nz) }
    ensures { result ≡ slope (neg_ℤ (pos 65536) *ℤ n) (nat_abs nz) }
{
    slope_of(-65536 * n, nz as u64)
}

// r from p's NX, or t from q's NY. A function beside `first_of`: without the factor a larger n is in range.
fn second_of(n: i64, nz: i64) -> i32
    requires { Within 281474976710656 n × Within 281474976710656 nz × (pos 0 <ℤ nz) }
    ensures { result ≡ slope (neg_ℤ n) (nat_abs nz) }
{
    slope_of(-n, nz as u64)
}

// s from p's NY and q's NX.
fn mixed_of(ny: i64, nx: i64, nz: i64) -> i32
    requires { Within 281474976710656 ny × Within 281474976710656 nx × Within 281474976710656 nz × (pos 0 <ℤ nz) }
    ensures { result ≡ slope (neg_ℤ (ny +ℤ nx)) (2 * nat_abs nz) }
{
    slope_of(-(ny + nx), 2 * (nz as u64))
}

// p and q of station i.
fn first_at(x: &[u32], y: &[u32], z: &[i32], near: &[u16], i: usize) -> First
    requires { Placed x.now y.now × High most_height x.now z.now × Kept x.now y.now near.now × (i < length x.now) }
    ensures { result ≡ first_at (places x.now y.now) (value_in z.now) i }
{
    let sum = sum_at(x, y, z, near, i);
    First {
        p: first_of(sum.nx, sum.nz),
        q: first_of(sum.ny, sum.nz),
    }
}

// p and q of every station.
pub fn fill_first(x: &[u32], y: &[u32], z: &[i32], near: &[u16], p: &mut [i32], q: &mut [i32])
    requires { Placed x.now y.now × High most_height x.now z.now × Kept x.now y.now near.now
        × (length x.now ≤ length p.old) × (length x.now ≤ length q.old) }
    ensures of_p { p.new
        ≡ table (slope_p (places x.now y.now) (value_in z.now)) (length x.now)
        ++ drop (length x.now) p.old }
    ensures of_q { q.new
        ≡ table (slope_q (places x.now y.now) (value_in z.now)) (length x.now)
        ++ drop (length x.now) q.old }
{
    for i in 0..x.len() {
        let f = first_at(x, y, z, near, i);
        p[i] = f.p;
        q[i] = f.q;
    }
}

// All five of station i, from p and q of every station.
fn five_at(x: &[u32], y: &[u32], near: &[u16], p: &[i32], q: &[i32], i: usize) -> Five
    requires { Placed x.now y.now × Kept x.now y.now near.now × High most_slope x.now p.now
        × High most_slope x.now q.now × (i < length x.now) }
    ensures { result ≡ five_at (places x.now y.now) (value_in p.now) (value_in q.now) i }
{
    let of_p = sum_at(x, y, p, near, i);
    let of_q = sum_at(x, y, q, near, i);
    Five {
        p: p[i],
        q: q[i],
        r: second_of(of_p.nx, of_p.nz),
        s: mixed_of(of_p.ny, of_q.nx, of_p.nz),
        t: second_of(of_q.ny, of_q.nz),
    }
}

// The five of station i, put into its row.
fn put_five(room: &mut [i32], i: usize, f: Five)
    requires { (i ≤ 65535) × (5 * i + 5 ≤ length room.old) × IsCut f }
    ensures { room.new ≡ sets room.old (5 * i) (row f) }
{
    room[5 * i..5 * i + 5].copy_from_slice(&[f.p, f.q, f.r, f.s, f.t]);
}

// The rows of all stations.
pub fn fill_rows(x: &[u32], y: &[u32], near: &[u16], p: &[i32], q: &[i32], room: &mut [i32])
    requires { Placed x.now y.now × Kept x.now y.now near.now × High most_slope x.now p.now
        × High most_slope x.now q.now × (5 * length x.now ≤ length room.old) }
    ensures { room.new
        ≡ rows (λ i. row (five_at (places x.now y.now) (value_in p.now) (value_in q.now) i)) (length x.now)
        ++ drop (5 * length x.now) room.old }
{
    for i in 0..x.len() {
        put_five(room, i, five_at(x, y, near, p, q, i));
    }
}
