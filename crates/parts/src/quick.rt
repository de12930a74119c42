// Doors to the quick test of a mesh that is handed in, and to the two ways in which twins are guessed. Each contract says what follows from
// yes; that yes is said of every mesh is for the comparison to ask.
ghost use Rattle.std.specs.Prelude.{◌≡◌, ◌/◌, length, get_or};
ghost use Rattle.survey.specs.Survey.{survey};
ghost use Rattle.neighbours.specs.Room.{threes};
ghost use Rattle.seams.specs.Sewn.{SewnUp};
ghost use Rattle.woven.specs.Woven.{Woven};

use supplied::quick::is_woven;
use survey::check::check_in_order;
use survey::limits::{MOST_STATIONS, MOST_TRIANGLES};
use twins::NO_HALF;

// 1 if the triangles are found to be sewn together but for the sides that `next` names, by the keys of their half-sides, else 0.
#[unsafe(no_mangle)]
pub extern "C" fn parts_sewn_by_keys(triangles: &[u16], next: &[u16]) -> u32
    ensures { result ≡ 1 → SewnUp (λ i. get_or next.now i 0) (threes (length triangles.now / 3) triangles.now) }
{
    let t = triangles.len() / 3;
    if MOST_TRIANGLES < t {
        return 0;
    }
    let mut twin = [NO_HALF; 3 * MOST_TRIANGLES];
    let mut first = [NO_HALF; MOST_STATIONS];
    if twins::keys::are_sewn(triangles, (3 * t) as u16, next, &mut first, &mut twin) {
        return 1;
    }
    0
}

// The same by the chains of n stations.
#[unsafe(no_mangle)]
pub extern "C" fn parts_sewn_by_chains(triangles: &[u16], n: u32, next: &[u16]) -> u32
    ensures { result ≡ 1 → SewnUp (λ i. get_or next.now i 0) (threes (length triangles.now / 3) triangles.now) }
{
    let t = triangles.len() / 3;
    if MOST_TRIANGLES < t {
        return 0;
    }
    if MOST_STATIONS < n as usize {
        return 0;
    }
    let mut twin = [NO_HALF; 3 * MOST_TRIANGLES];
    let mut first = [NO_HALF; MOST_STATIONS];
    if twins::chains::are_sewn(
        triangles,
        (3 * t) as u16,
        n as u16,
        next,
        &mut first,
        &mut twin,
    ) {
        return 1;
    }
    0
}

// 1 if the survey passes the checks and the quick test takes the triangles for a mesh of it, else 0.
#[unsafe(no_mangle)]
pub extern "C" fn parts_is_woven(x: &[u32], y: &[u32], z: &[i32], triangles: &[u16]) -> u32
    ensures { result ≡ 1 → Woven (survey x.now y.now z.now)
        (threes (length triangles.now / 3) triangles.now) }
{
    let mut order = [0u16; MOST_STATIONS];
    match check_in_order(x, y, z, &mut order) {
        Err(_) => 0,
        Ok(()) => {
            let t = triangles.len() / 3;
            if MOST_TRIANGLES < t {
                return 0;
            }
            if is_woven(x, y, z, &order, triangles, t) {
                return 1;
            }
            0
        }
    }
}
