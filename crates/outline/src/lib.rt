// The hull's sides, found by the two chains of the sweep. The flag `upper` is that of the definitions, which tell both chains by one rule.
#![tactic(auto)]

ghost use Rattle.std.specs.Prelude.{◌≡◌, ℕ, ◌+◌, ◌≤◌, ◌<◌, length, get_or, set, take};
ghost use Rattle.survey.specs.Fit.{Fit};
ghost use Rattle.survey.specs.Limits.{most_stations};
ghost use Rattle.survey.specs.Rank.{by_rank};
ghost use Rattle.survey.specs.Survey.{survey};
ghost use Rattle.sweep.specs.Members.{In};
ghost use Rattle.triangles.specs.Chain.{places_of};
ghost use Rattle.triangles.specs.Growth.{swept};
ghost use Rattle.outline.specs.Outline.{chain_sides, side_on, sides_on, Climbed, Blank, written, Outlined};

use survey::limits::MOST_STATIONS;
use triangles::chain::left_of;

// What stands in place of a station where no hull side starts: the entries of the lent list are numbers of 16 bits.
pub const NONE: u16 = 65535;

// The lower chain of the first n stations of `order`, or the upper one, in a slice from its bottom up. The entry of its top.
fn climb(x: &[u32], y: &[u32], upper: bool, order: &[u16], n: usize, chain: &mut [u16]) -> usize
    requires { (0 < n) × (n ≤ length order.now) × (n ≤ length chain.old)
        × ((i : ℕ) → get_or x.now i 0 ≤ 8191) × ((i : ℕ) → get_or y.now i 0 ≤ 8191) }
    ensures { Climbed (places_of x.now y.now) upper (take n order.now) chain.new result }
{
    chain[0] = order[0];
    let mut a = 0;
    for &q in &order[1..n] {
        let j = left_of(x, y, upper, chain, a, q);
        chain[j + 1] = q;
        a = j + 1;
    }
    a
}

// The side above entry k of a chain.
fn put_side(upper: bool, chain: &[u16], k: usize, next: &mut [u16])
    requires { (k + 1 < length chain.now) × (get_or chain.now k 0 < length next.old) × (get_or chain.now (k + 1) 0 < length next.old) }
    ensures { next.new ≡ set next.old (side_on upper chain.now k).from (side_on upper chain.now k).to }
{
    let s = chain[k];
    let t = chain[k + 1];
    if upper {
        next[t as usize] = s;
    } else {
        next[s as usize] = t;
    }
}

// All sides of a chain whose top is entry a.
fn put_sides(upper: bool, chain: &[u16], a: usize, next: &mut [u16])
    requires { (a < length chain.now) × ((k : ℕ) → k ≤ a → get_or chain.now k 0 < length next.old) }
    ensures { next.new ≡ written (sides_on upper chain.now a) next.old }
{
    for k in 0..a {
        put_side(upper, chain, k, next);
    }
}

// The sides of one of the two chains of the first n stations of `order`.
fn put_chain(x: &[u32], y: &[u32], upper: bool, order: &[u16], n: usize, next: &mut [u16])
    requires { (0 < n) × (n ≤ length order.now) × (n ≤ most_stations) × ((q : ℕ) → In q (take n order.now) → q < length next.old)
        × ((i : ℕ) → get_or x.now i 0 ≤ 8191) × ((i : ℕ) → get_or y.now i 0 ≤ 8191) }
    ensures { next.new ≡ written (chain_sides upper (swept (places_of x.now y.now) (take n order.now))) next.old }
{
    let mut chain = [0u16; MOST_STATIONS];
    let a = climb(x, y, upper, order, n, &mut chain);
    put_sides(upper, &chain, a, next);
}

// No station at the first n entries.
fn clear(next: &mut [u16], n: usize)
    requires { n ≤ length next.old }
    ensures { Blank n next.new }
{
    next[..n].fill(NONE);
}

// Each hull side of a survey that passed the checks, of which `order` has the stations in order: at the number of the station that it starts
// from, the one that it runs to. The other stations have NONE. What stands behind the last station's entry is not said.
pub fn put_outline(x: &[u32], y: &[u32], z: &[i32], order: &[u16], next: &mut [u16])
    requires { Fit (survey x.now y.now z.now) × (length x.now ≤ length order.now)
        × (take (length x.now) order.now ≡ by_rank x.now y.now) × (length x.now ≤ length next.old) }
    ensures { Outlined (survey x.now y.now z.now) next.new }
{
    clear(next, x.len());
    put_chain(x, y, false, order, x.len(), next);
    put_chain(x, y, true, order, x.len(), next);
}
