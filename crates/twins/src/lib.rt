// Whether the triangles of a list are sewn together along all sides but those of an outline: a twin is guessed for each half-side, and
// `seams` tests the guess. Of the guess nothing is said but that it ends and stays within its rooms.
#![tactic(auto)]

ghost use Rattle.std.specs.Prelude.{◌≡◌, true, ◌*◌, ◌-◌, ◌≤◌, get_or};
ghost use Rattle.survey.specs.Limits.{most_stations};
ghost use Rattle.neighbours.specs.Room.{threes};
ghost use Rattle.seams.specs.Sewn.{SewnUp};

use survey::limits::{MOST_STATIONS, MOST_TRIANGLES};

pub mod chains;
pub mod keys;

// What stands in the place of a half-side where there is none: the entries of the fixed rooms are numbers of 16 bits.
pub const NO_HALF: u16 = 65535;

// Whether the t triangles at the front of a list are sewn together but for the sides that `next` names. That the answer is yes wherever
// they are is not said; a list that is too short gets no.
pub fn are_sewn(triangles: &[u16], t: usize, n: usize, next: &[u16]) -> bool
    requires { (t ≤ 2 * most_stations - 5) × (n ≤ most_stations) }
    ensures { result ≡ true → SewnUp (λ i. get_or next.now i 0) (threes t triangles.now) }
{
    if triangles.len() < 3 * t {
        return false;
    }
    let m = (3 * t) as u16;
    let mut twin = [NO_HALF; 3 * MOST_TRIANGLES];
    let mut first = [NO_HALF; MOST_STATIONS];
    keys::are_sewn(triangles, m, next, &mut first, &mut twin)
        || chains::are_sewn(triangles, m, n as u16, next, &mut first, &mut twin)
}
