// Twins found station by station, for a list so numbered that many half-sides share a key. Of these too nothing is said but that they are
// found in bounded time and stay within their rooms: they are tested.
ghost use Rattle.std.specs.Prelude.{◌≡◌, true, ◌%◌, ◌≤◌, ◌<◌, length};
ghost use Rattle.survey.specs.Limits.{most_stations};
ghost use Rattle.seams.specs.Sewn.{AllTied};

use crate::NO_HALF;
use lists::slice::{at, put};
use neighbours::half::{Half, after, before};
use seams::all_tied;
use survey::limits::MOST_STATIONS;

// The station that half-side h runs to.
fn end_of(triangles: &[u16], h: Half) -> u16
    requires { h.0 < 32766 }
{
    at(triangles, after(h).0)
}

// The m half-sides chained by the station that they start from: the last one of each station in `head`, and behind each one the one before it.
fn chain_halves(triangles: &[u16], m: u16, head: &mut [u16], link: &mut [u16])
    requires { m ≤ 32766 }
{
    for h in 0..m {
        let a = at(triangles, h);
        put(link, h, at(head, a));
        put(head, a, h);
    }
}

// The half-side that comes to a station before h leaves it, marked at the station that it comes from.
fn mark_arrival(triangles: &[u16], h: Half, mark: &mut [u16])
    requires { h.0 < 32766 }
{
    let p = before(h);
    put(mark, at(triangles, p.0), p.0);
}

// Half-side h, which leaves station i, and p as twins, if p comes there.
fn join_back(triangles: &[u16], i: u16, h: Half, p: Half, twin: &mut [u16])
    requires { p.0 < 32766 }
{
    if end_of(triangles, p) == i {
        put(twin, h.0, p.0);
        put(twin, p.0, h.0);
    }
}

// A twin for half-side h, which leaves station i: what is marked at the lower station that h runs to. One that runs to a higher station
// waits for that station.
fn join(triangles: &[u16], m: u16, i: u16, h: Half, mark: &[u16], twin: &mut [u16])
    requires { (m ≤ 32766) × (h.0 < 32766) }
{
    put(twin, h.0, NO_HALF);
    let b = end_of(triangles, h);
    if b >= i {
        return;
    }
    let p = at(mark, b);
    if p < m {
        join_back(triangles, i, h, Half(p), twin);
    }
}

// `visit` called at each half-side of a chain, from its head on, with the marks and the twins. The twin of a half-side stands where its link
// stood, which is read before and not looked at again.
fn walk<F: Fn(Half, &mut [u16], &mut [u16])>(
    m: u16,
    head: u16,
    mark: &mut [u16],
    twin: &mut [u16],
    visit: F,
)
    requires { (h : _) (a : _) (b : _) → h.0 < m → F.pre visit h a b }
{
    let mut h = head;
    for _ in 0..m {
        if h >= m {
            return;
        }
        let next = at(twin, h);
        visit(Half(h), mark, twin);
        h = next;
    }
}

// A twin for each half-side that has one, station by station.
fn pair(triangles: &[u16], m: u16, n: u16, twin: &mut [u16])
    requires { (m ≤ 32766) × (n ≤ most_stations) }
{
    let mut head = [NO_HALF; MOST_STATIONS];
    let mut mark = [NO_HALF; MOST_STATIONS];
    chain_halves(triangles, m, &mut head, twin);
    for i in 0..n {
        let h = at(&head, i);
        walk(m, h, &mut mark, twin, |h, mark, _| {
            mark_arrival(triangles, h, mark)
        });
        walk(m, h, &mut mark, twin, |h, mark, twin| {
            join(triangles, m, i, h, mark, twin)
        });
    }
}

// Half-side h for the station that it starts from, if it runs as `next` says.
fn put_first(triangles: &[u16], next: &[u16], h: Half, first: &mut [u16])
    requires { h.0 < 32766 }
{
    let a = at(triangles, h.0);
    if at(next, a) == end_of(triangles, h) {
        put(first, a, h.0);
    }
}

// For each station a half-side that runs as `next` says.
fn put_firsts(triangles: &[u16], m: u16, next: &[u16], first: &mut [u16])
    requires { m ≤ 32766 }
{
    for h in 0..m {
        put_first(triangles, next, Half(h), first);
    }
}

// Whether every half-side is tied by the twins that are found so and by these half-sides of the stations. All that this has in common with
// the way by keys is its last call.
pub fn are_sewn(
    triangles: &[u16],
    m: u16,
    n: u16,
    next: &[u16],
    first: &mut [u16],
    twin: &mut [u16],
) -> bool
    requires { (m ≤ length triangles.now) × (m ≤ length twin.old) × (m ≤ 32766) × (m % 3 ≡ 0) × (n ≤ most_stations) }
    ensures { result ≡ true → AllTied triangles.now twin.new next.now first.new m }
{
    pair(triangles, m, n, twin);
    put_firsts(triangles, m, next, first);
    all_tied(triangles, m, next, first, twin)
}
