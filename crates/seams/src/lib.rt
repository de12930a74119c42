// The test of guessed twins: whether each half-side of a list of triangles runs its twin back, or runs along an outline.
#![tactic(auto)]

ghost use Rattle.std.specs.Prelude.{◌≡◌, true, ℕ, ◌+◌, ◌%◌, ◌≤◌, ◌<◌, length};
ghost use Rattle.seams.specs.Sewn.{is_matched, is_lone, is_tied, passes, AllTied};

use lists::slice::at;
use neighbours::half::{Half, Station, corner};

// A list of triangles with m half-sides, and the guess that is tested: a twin for each half-side; the station that the outline goes on to
// from each station; and one half-side for each station.
#[derive(Clone, Copy)]
struct Guess<'a> {
    triangles: &'a [u16],
    m: u16,
    next: &'a [u16],
    first: &'a [u16],
    twin: &'a [u16],
    ghost in_lists: { (m ≤ length triangles.now) × (m ≤ length twin.now) },
}

impl Guess<'_> {
    // Whether half-side g starts from station b and has h as its twin.
    fn is_matched(&self, g: Half, h: Half, b: Station) -> bool
        requires { g.0 < self.now.m }
        ensures { result ≡ is_matched self.now.triangles.now self.now.twin.now g.0 h.0 b.0 }
    {
        self.triangles[g.0 as usize] == b.0 && self.twin[g.0 as usize] == h.0
    }

    // Whether half-side h, from station a to station b, is the one that runs as `next` says.
    fn is_lone(&self, h: Half, a: Station, b: Station) -> bool
        ensures { result ≡ is_lone self.now.next.now self.now.first.now h.0 a.0 b.0 }
    {
        at(self.next, a.0) == b.0 && at(self.first, a.0) == h.0
    }

    // Whether half-side h, from station a to station b, passes.
    fn is_tied(&self, h: Half, a: Station, b: Station) -> bool
        requires { h.0 < self.now.m }
        ensures { result ≡ is_tied self.now.triangles.now self.now.twin.now self.now.next.now self.now.first.now self.now.m h.0 a.0 b.0 }
    {
        let g = Half(self.twin[h.0 as usize]);
        if g.0 < self.m {
            self.is_matched(g, h, b)
        } else {
            self.is_lone(h, a, b)
        }
    }

    // Whether the three half-sides of a triangle pass, of which h is the first.
    fn is_triangle_tied(&self, h: Half) -> bool
        requires { (h.0 % 3 ≡ 0) × (h.0 + 2 < self.now.m) }
        ensures { result ≡ true → (k : ℕ) → h.0 ≤ k → k < h.0 + 3
            → passes self.now.triangles.now self.now.twin.now self.now.next.now self.now.first.now self.now.m k ≡ true }
    {
        let second = Half(h.0 + 1);
        let third = Half(h.0 + 2);
        let a = corner(self.triangles, h);
        let b = corner(self.triangles, second);
        let c = corner(self.triangles, third);
        self.is_tied(h, a, b) && self.is_tied(second, b, c) && self.is_tied(third, c, a)
    }
}

// Whether every half-side passes.
pub fn all_tied(triangles: &[u16], m: u16, next: &[u16], first: &[u16], twin: &[u16]) -> bool
    requires { (m ≤ length triangles.now) × (m ≤ length twin.now) × (m ≤ 32766) × (m % 3 ≡ 0) }
    ensures { result ≡ true → AllTied triangles.now twin.now next.now first.now m }
{
    let guess = Guess {
        triangles,
        m,
        next,
        first,
        twin,
    };
    (0..m / 3).all(|k| guess.is_triangle_tied(Half(3 * k)))
}
