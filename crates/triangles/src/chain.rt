// A chain of the sweep in a slice, from its bottom up, and what one station does to it. The flags `upper` and `falling` are those of the
// definitions, which tell both chains, and both ways along one, by one rule.
ghost use Rattle.std.specs.Prelude.{◌≡◌, ℕ, ◌+◌, ◌-◌, ◌*◌, ◌≤◌, ◌<◌, ◌&&◌, true, false, leb, ◌++◌, map, length, get_or, take, drop};
ghost use Rattle.whole.specs.Turn.{turn};
ghost use Rattle.sweep.specs.Sweep.{tri, by, flat};
ghost use Rattle.triangles.specs.Chain.{places_of, is_seen, is_seen_at, down_to, triangle_at, side_at, values, put, put_all};
ghost use Rattle.triangles.specs.Mesh.{lowest_first, fan_at};
ghost use Rattle.triangles.specs.Growth.{left, Growth, swept, Rising};

use lists::slice::at_or;
use whole::turn::turn_at;

// Which way three stations turn.
fn turn_of(x: &[u32], y: &[u32], a: u16, b: u16, c: u16) -> i64
    requires { ((i : ℕ) → get_or x.now i 0 ≤ 8191) × ((i : ℕ) → get_or y.now i 0 ≤ 8191) }
    ensures { result ≡ by (places_of x.now y.now) turn a b c }
{
    turn_at(
        at_or(x, a, 0),
        at_or(y, a, 0),
        at_or(x, b, 0),
        at_or(y, b, 0),
        at_or(x, c, 0),
        at_or(y, c, 0),
    )
}

// Whether station q sees the side from a to b of the lower chain, or of the upper one.
fn is_seen(x: &[u32], y: &[u32], upper: bool, a: u16, b: u16, q: u16) -> bool
    requires { ((i : ℕ) → get_or x.now i 0 ≤ 8191) × ((i : ℕ) → get_or y.now i 0 ≤ 8191) }
    ensures { result ≡ is_seen (places_of x.now y.now) upper a b q }
{
    if upper {
        turn_of(x, y, b, a, q) < 0
    } else {
        turn_of(x, y, a, b, q) < 0
    }
}

// The entry down to which q sees all sides of a chain whose top is entry a.
pub fn left_of(x: &[u32], y: &[u32], upper: bool, chain: &[u16], a: usize, q: u16) -> usize
    requires { (a < length chain.now) × ((i : ℕ) → get_or x.now i 0 ≤ 8191) × ((i : ℕ) → get_or y.now i 0 ≤ 8191) }
    ensures { (result ≡ down_to (is_seen_at (places_of x.now y.now) upper chain.now q) a) × (result ≤ a) }
{
    for j in (0..a).rev() {
        if !is_seen(x, y, upper, chain[j], chain[j + 1], q) {
            return j + 1;
        }
    }
    0
}

// Three corners.
#[derive(Clone, Copy)]
pub struct Corners {
    pub a: u16,
    pub b: u16,
    pub c: u16,
}

fn is_lowest(a: u16, b: u16, c: u16) -> bool
    ensures { result ≡ (leb a b && leb a c) }
{
    a <= b && a <= c
}

// The corners turned so that the lowest station stands first.
pub fn lowest_first(a: u16, b: u16, c: u16) -> Corners
    ensures { tri result.a result.b result.c ≡ lowest_first (tri a b c) }
{
    if is_lowest(a, b, c) {
        return Corners { a, b, c };
    }
    if is_lowest(b, a, c) {
        return Corners { a: b, b: c, c: a };
    }
    Corners { a: c, b: a, c: b }
}

// Three corners written at place k of a room of triangles.
pub fn put_corners(room: &mut [u16], k: usize, corners: Corners)
    requires { 3 * k + 3 ≤ length room.old }
    ensures { room.new ≡ put k (tri corners.a corners.b corners.c) room.old }
{
    room[3 * k] = corners.a;
    room[3 * k + 1] = corners.b;
    room[3 * k + 2] = corners.c;
}

// A triangle written at place k of the room, lowest station first.
fn put_triangle(triangles: &mut [u16], k: usize, a: u16, b: u16, c: u16)
    requires { 3 * k + 3 ≤ length triangles.old }
    ensures { triangles.new ≡ put k (lowest_first (tri a b c)) triangles.old }
{
    put_corners(triangles, k, lowest_first(a, b, c));
}

// The triangle of q with the side above entry i of a chain, written at place k of the room.
fn put_side(upper: bool, chain: &[u16], i: usize, q: u16, triangles: &mut [u16], k: usize)
    requires { (i + 1 < length chain.now) × (3 * k + 3 ≤ length triangles.old) }
    ensures { triangles.new ≡ put k (lowest_first (triangle_at upper chain.now q i)) triangles.old }
{
    if upper {
        put_triangle(triangles, k, chain[i + 1], q, chain[i]);
    } else {
        put_triangle(triangles, k, chain[i], q, chain[i + 1]);
    }
}

fn side_at(falling: bool, j: usize, a: usize, i: usize) -> usize
    requires { j + i < a }
    ensures { result ≡ side_at falling j a i }
{
    if falling { a - 1 - i } else { j + i }
}

// The triangles of q with the sides above entries j to a - 1 of a chain, from the bottom up or from the top down, written from place k on.
fn put_fan(
    upper: bool,
    falling: bool,
    chain: &[u16],
    j: usize,
    a: usize,
    q: u16,
    triangles: &mut [u16],
    k: usize,
)
    requires { (j ≤ a) × (a < length chain.now) × (3 * (k + (a - j)) ≤ length triangles.old) }
    ensures { triangles.new ≡ put_all k (values (fan_at upper falling chain.now j a q) 0 (a - j)) triangles.old }
{
    for i in 0..a - j {
        put_side(upper, chain, side_at(falling, j, a, i), q, triangles, k + i);
    }
}

// The tops of the two chains and the count of triangles.
#[derive(Clone, Copy)]
pub struct Grown {
    pub a: usize,
    pub b: usize,
    pub k: usize,
}

// One station more: its triangles with the sides that it sees, and the chains with it on top.
fn grow(
    x: &[u32],
    y: &[u32],
    q: u16,
    lo: &mut [u16],
    up: &mut [u16],
    triangles: &mut [u16],
    grown: Grown,
) -> Grown
    requires { (grown.a + 1 < length lo.old) × (grown.b + 1 < length up.old)
        × (3 * (grown.k + (grown.a - left (places_of x.now y.now) false lo.old grown.a q) + (grown.b - left (places_of x.now y.now) true up.old grown.b q)) ≤ length triangles.old)
        × ((i : ℕ) → get_or x.now i 0 ≤ 8191) × ((i : ℕ) → get_or y.now i 0 ≤ 8191) }
    ensures { Growth (places_of x.now y.now) q lo.old grown.a up.old grown.b triangles.old grown.k
        result.a lo.new result.b up.new result.k triangles.new }
{
    let Grown { a, b, k } = grown;
    let j = left_of(x, y, false, lo, a, q);
    let i = left_of(x, y, true, up, b, q);
    put_fan(false, false, lo, j, a, q, triangles, k);
    let m = k + (a - j);
    put_fan(true, 0 < k, up, i, b, q, triangles, m);
    lo[j + 1] = q;
    up[i + 1] = q;
    Grown {
        a: j + 1,
        b: i + 1,
        k: m + (b - i),
    }
}

// The sweep over the first n stations of `order`: their triangles in the room, and how many there are. What `lo` and `up` hold on return is not said.
pub fn sweep(
    x: &[u32],
    y: &[u32],
    order: &[u16],
    n: usize,
    lo: &mut [u16],
    up: &mut [u16],
    triangles: &mut [u16],
) -> usize
    requires { (3 ≤ n) × (n ≤ length order.now) × (n ≤ length lo.old) × (n ≤ length up.old) × (3 * (2 * n - 5) ≤ length triangles.old)
        × Rising (places_of x.now y.now) (take n order.now)
        × ((i : ℕ) → get_or x.now i 0 ≤ 8191) × ((i : ℕ) → get_or y.now i 0 ≤ 8191) }
    ensures { (result ≡ length (swept (places_of x.now y.now) (take n order.now)).tris)
        × (triangles.new ≡ flat (map lowest_first (swept (places_of x.now y.now) (take n order.now)).tris)
        ++ drop (3 * result) triangles.old) }
{
    lo[0] = order[0];
    up[0] = order[0];
    let mut grown = Grown { a: 0, b: 0, k: 0 };
    for &q in &order[1..n] {
        grown = grow(x, y, q, lo, up, triangles, grown);
    }
    grown.k
}
