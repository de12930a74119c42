// Refusals 1 to 4, in that order: what every job tests first. No room of a caller's is lent to be written, so a refusal changes none.
ghost use Rattle.std.specs.Prelude.{◌≡◌, ◌||◌, List, [], ◌++◌, ℕ, ◌≤◌, ◌<◌, ℤ, length, get_or, drop, Ok};
ghost use Rattle.lists.specs.Lowest.{found, some};
ghost use Rattle.survey.specs.Limits.{beyond, too_far, most_coordinate, most_stations};
ghost use Rattle.survey.specs.Survey.{survey};
ghost use Rattle.survey.specs.Rank.{by_rank};
ghost use Rattle.survey.specs.Checks.{is_counted, is_out_of_range, is_turn, checked};

use crate::limits::{LEAST_STATIONS, MOST_COORDINATE, MOST_HEIGHT, MOST_STATIONS};
use crate::rank::lowest_repeat;
use crate::refusal::Refusal;
use whole::turn::turn_at;

// Whether the lists are of one length, and that a station count.
pub fn is_counted(x: &[u32], y: &[u32], z: &[i32]) -> bool
    ensures { result ≡ is_counted (survey x.now y.now z.now) }
{
    let n = x.len();
    y.len() == n && z.len() == n && LEAST_STATIONS <= n && n <= MOST_STATIONS
}

// Whether one station's numbers are out of range.
fn is_out_of_range(x: u32, y: u32, z: i32) -> bool
    ensures { result ≡ (beyond x || (beyond y || too_far z)) }
{
    MOST_COORDINATE < x || MOST_COORDINATE < y || z < -MOST_HEIGHT || MOST_HEIGHT < z
}

// The lowest station out of range, if one is.
pub fn lowest_out_of_range(x: &[u32], y: &[u32], z: &[i32]) -> Option<usize>
    requires { (length y.now ≡ length x.now) × (length z.now ≡ length x.now) }
    ensures { result ≡ found (is_out_of_range (survey x.now y.now z.now)) (length x.now) }
{
    (0..x.len()).find(|&k| is_out_of_range(x[k], y[k], z[k]))
}

// Whether station k is off the line of stations 0 and 1.
fn is_off_line(x: &[u32], y: &[u32], k: usize) -> bool
    requires { (length y.now ≡ length x.now) × (1 < length x.now) × (k < length x.now) × ((i : ℕ) → get_or x.now i 0 ≤ most_coordinate) × ((i : ℕ) → get_or y.now i 0 ≤ most_coordinate) }
    ensures whatever { (zs : List ℤ) → result ≡ is_turn (survey x.now y.now zs) 0 1 k }
    ensures without { result ≡ is_turn (survey x.now y.now []) 0 1 k }
{
    turn_at(x[0], y[0], x[1], y[1], x[k], y[k]) != 0
}

// Whether some station is off the line of stations 0 and 1.
fn has_turn(x: &[u32], y: &[u32]) -> bool
    requires { (length y.now ≡ length x.now) × (1 < length x.now) × ((i : ℕ) → get_or x.now i 0 ≤ most_coordinate) × ((i : ℕ) → get_or y.now i 0 ≤ most_coordinate) }
    ensures { (zs : List ℤ) → result ≡ some (is_turn (survey x.now y.now zs) 0 1) (length x.now) }
{
    (0..x.len()).any(|k| is_off_line(x, y, k))
}

// The first of refusals 1 to 4 that applies; where none does, the stations stand in order at the front of `order`. What stands there after
// a refusal is not said.
pub fn check_in_order(x: &[u32], y: &[u32], z: &[i32], order: &mut [u16]) -> Result<(), Refusal>
    requires { most_stations ≤ length order.old }
    ensures { (result ≡ checked (survey x.now y.now z.now))
        × (result ≡ Ok tt → order.new ≡ by_rank x.now y.now ++ drop (length x.now) order.old) }
{
    if !is_counted(x, y, z) {
        return Err(Refusal::Count);
    }
    if let Some(k) = lowest_out_of_range(x, y, z) {
        return Err(Refusal::Range { station: k as u32 });
    }
    if let Some(k) = lowest_repeat(x, y, order) {
        return Err(Refusal::SamePlace { station: k as u32 });
    }
    if !has_turn(x, y) {
        return Err(Refusal::OneLine);
    }
    Ok(())
}

// The first of refusals 1 to 4 that applies.
pub fn check(x: &[u32], y: &[u32], z: &[i32]) -> Result<(), Refusal>
    ensures { result ≡ checked (survey x.now y.now z.now) }
{
    let mut order = [0u16; MOST_STATIONS];
    check_in_order(x, y, z, &mut order)
}
