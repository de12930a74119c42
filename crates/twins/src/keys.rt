// Twins found by keys, in one pass over the triangles. Nothing is said of these but that they are found in bounded time and stay within
// their rooms: they are tested.
ghost use Rattle.std.specs.Prelude.{◌≡◌, true, ◌+◌, ◌%◌, ◌≤◌, ◌<◌, length};
ghost use Rattle.seams.specs.Sewn.{AllTied};

use crate::NO_HALF;
use lists::slice::{at, put};
use neighbours::half::Half;
use seams::all_tied;

// Half-sides that wait for a twin stand in chains, each half-side in the chain of its key.
const KEYS: usize = 2048;

// In the place of a twin a half-side that waits has the next one of its chain, this much above its number; at the end of a chain, and
// where a chain has none, stands NO_HALF. It is a bit of the number, since the rooms have 16 bits for each half-side.
const WAITS: u16 = 32768;

// So deep a chain is searched.
const DEEP: u16 = 8;

// The key of a half-side from station a to station b. No two from the same station, or to the same one, have the same key.
fn key_of(a: u16, b: u16) -> usize
    ensures { result < 2048 }
{
    (usize::from(a) + 509 * usize::from(b)) % KEYS
}

// Half-side h, from station a to station b, to wait at the front of its chain; and for its station, if it runs as `next` says.
fn wait(
    h: Half,
    a: u16,
    b: u16,
    next: &[u16],
    head: &mut [u16],
    twin: &mut [u16],
    first: &mut [u16],
)
    requires { (h.0 < length twin.old) × (h.0 < 32766) × (2048 ≤ length head.old) }
{
    let k = key_of(a, b);
    twin[h.0 as usize] = head[k];
    head[k] = WAITS + h.0;
    if at(next, a) == b {
        put(first, a, h.0);
    }
}

// Half-sides g and h as twins of each other.
fn sew(g: Half, h: Half, twin: &mut [u16])
    requires { (g.0 < length twin.old) × (h.0 < length twin.old) }
{
    twin[g.0 as usize] = h.0;
    twin[h.0 as usize] = g.0;
}

// What stands behind g in a chain, behind p.
fn pass_over(p: Half, g: Half, twin: &mut [u16])
    requires { (p.0 < length twin.old) × (g.0 < length twin.old) }
{
    twin[p.0 as usize] = twin[g.0 as usize];
}

// Half-side h with the one of a chain, behind its front, that starts from station b, if one is found.
fn sew_behind(triangles: &[u16], m: u16, h: Half, b: u16, front: Half, twin: &mut [u16]) -> bool
    requires { (m ≤ length triangles.now) × (m ≤ length twin.old) × (h.0 < m) × (front.0 < m) }
{
    // The chain changes where one is found, so that this is more than a search.
    let mut p = front;
    for _ in 0..DEEP {
        let g = Half(twin[p.0 as usize] % WAITS);
        if g.0 >= m {
            return false;
        }
        if triangles[g.0 as usize] == b {
            pass_over(p, g, twin);
            sew(g, h, twin);
            return true;
        }
        p = g;
    }
    false
}

// Half-side h with the one of chain k that starts from station b, if there is one.
fn sew_waiting(
    triangles: &[u16],
    m: u16,
    h: Half,
    b: u16,
    k: usize,
    head: &mut [u16],
    twin: &mut [u16],
) -> bool
    requires { (m ≤ length triangles.now) × (m ≤ length twin.old) × (h.0 < m) × (k < length head.old) }
{
    let g = Half(head[k] % WAITS);
    if g.0 >= m {
        return false;
    }
    if triangles[g.0 as usize] == b {
        head[k] = twin[g.0 as usize];
        sew(g, h, twin);
        return true;
    }
    sew_behind(triangles, m, h, b, g, twin)
}

// A twin for half-side h, from station a to station b, if one that runs back waits; else h waits. It is built into its three calls: to call it with
// nine arguments takes a fourteenth of what accepting a mesh takes.
#[inline(always)]
fn join(
    triangles: &[u16],
    m: u16,
    h: Half,
    a: u16,
    b: u16,
    next: &[u16],
    head: &mut [u16],
    twin: &mut [u16],
    first: &mut [u16],
)
    requires { (m ≤ length triangles.now) × (m ≤ length twin.old) × (m ≤ 32766) × (h.0 < m) × (2048 ≤ length head.old) }
{
    let k = key_of(b, a);
    if !sew_waiting(triangles, m, h, b, k, head, twin) {
        wait(h, a, b, next, head, twin, first);
    }
}

// The three half-sides of a triangle, of which h is the first.
fn join_triangle(
    triangles: &[u16],
    m: u16,
    h: Half,
    next: &[u16],
    head: &mut [u16],
    twin: &mut [u16],
    first: &mut [u16],
)
    requires { (m ≤ length triangles.now) × (m ≤ length twin.old) × (m ≤ 32766) × (h.0 + 2 < m) × (2048 ≤ length head.old) }
{
    let i = h.0 as usize;
    let a = triangles[i];
    let b = triangles[i + 1];
    let c = triangles[i + 2];
    let second = Half(h.0 + 1);
    let third = Half(h.0 + 2);
    join(triangles, m, h, a, b, next, head, twin, first);
    join(triangles, m, second, b, c, next, head, twin, first);
    join(triangles, m, third, c, a, next, head, twin, first);
}

// A twin for each half-side that has one; and for each station a half-side that runs as `next` says.
fn guess(triangles: &[u16], m: u16, next: &[u16], twin: &mut [u16], first: &mut [u16])
    requires { (m ≤ length triangles.now) × (m ≤ length twin.old) × (m ≤ 32766) × (m % 3 ≡ 0) }
{
    let mut head = [NO_HALF; KEYS];
    for k in 0..m / 3 {
        let h = Half(3 * k);
        join_triangle(triangles, m, h, next, &mut head, twin, first);
    }
}

// Whether every half-side is tied by the twins that are found so and by these half-sides of the stations.
pub fn are_sewn(
    triangles: &[u16],
    m: u16,
    next: &[u16],
    first: &mut [u16],
    twin: &mut [u16],
) -> bool
    requires { (m ≤ length triangles.now) × (m ≤ length twin.old) × (m ≤ 32766) × (m % 3 ≡ 0) }
    ensures { result ≡ true → AllTied triangles.now twin.new next.now first.new m }
{
    guess(triangles, m, next, twin, first);
    all_tied(triangles, m, next, first, twin)
}
