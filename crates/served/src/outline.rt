// Twice the area within an outline, in squares of a 128th.
ghost use Rattle.std.specs.Prelude.{◌≡◌, [], ◌∷◌, ◌*◌, ◌≤◌, pos, ◌≤ℤ◌};
ghost use Rattle.ground.specs.Segments.{standing};
ghost use Rattle.parcels.specs.Area.{twice_within};
ghost use Rattle.served.specs.Figures.{most_place, most_area, Near};

use curve::spot::Spot;

// The two parts of a triangle that a level cuts: that of one corner, and the rest. Which of them is served is not known here, so they are
// no `Figures`.
#[derive(Clone, Copy)]
pub struct Cut {
    pub corner: u64,
    pub rest: u64,
}

// A product of two coordinates.
fn product(a: u32, b: u32) -> u64
    requires { (a ≤ most_place) × (b ≤ most_place) }
    ensures { (result ≡ a * b) × (result ≤ most_place * most_place) }
{
    a as u64 * b as u64
}

// Twice the area of the triangle p, q, r, counterclockwise.
pub fn around_three(p: Spot, q: Spot, r: Spot) -> u64
    requires { Near p × Near q × Near r × (pos 0 ≤ℤ twice_within (standing p ∷ standing q ∷ standing r ∷ [])) }
    ensures { (pos result ≡ twice_within (standing p ∷ standing q ∷ standing r ∷ [])) × (result ≤ most_area) }
{
    let forth = product(p.x, q.y) + product(q.x, r.y) + product(r.x, p.y);
    let back = product(p.y, q.x) + product(q.y, r.x) + product(r.y, p.x);
    forth - back
}

// The same of the four corners p, q, r, o.
pub fn around_four(p: Spot, q: Spot, r: Spot, o: Spot) -> u64
    requires { Near p × Near q × Near r × Near o × (pos 0 ≤ℤ twice_within (standing p ∷ standing q ∷ standing r ∷ standing o ∷ [])) }
    ensures { (pos result ≡ twice_within (standing p ∷ standing q ∷ standing r ∷ standing o ∷ [])) × (result ≤ most_area) }
{
    let ahead = product(p.x, q.y) + product(q.x, r.y) + product(r.x, o.y) + product(o.x, p.y);
    let behind = product(p.y, q.x) + product(q.y, r.x) + product(r.y, o.x) + product(o.y, p.x);
    ahead - behind
}
