// The check of a mesh that is handed in: document 02, L10. Triangles whose numbers, turns and sides are right and that leave no station out
// are a mesh, so those four are tested first, in n log n steps; where one is wrong, the first wrong triangle is searched for.
#![tactic(auto)]

ghost use Rattle.std.specs.Prelude.{◌≡◌, not, ◌||◌, ◌*◌, ◌-◌, ◌/◌, ◌%◌, ◌≤◌, min, eqb, ltb};
ghost use Rattle.survey.specs.Limits.{least_stations, most_stations};
ghost use Rattle.survey.specs.Survey.{survey};
ghost use Rattle.woven.specs.Accepted.{checked_over};

use faults::{first_wrong, has_left_out};
use quick::is_woven;
use survey::check::check_in_order;
use survey::limits::MOST_STATIONS;
use survey::refusal::Refusal;

pub mod quick;

// Whether a list of so many numbers is no list of whole triangles for n stations.
fn is_wrong_length(n: usize, numbers: usize) -> bool
    requires { (least_stations ≤ n) × (n ≤ most_stations) }
    ensures { result ≡ (not (eqb (numbers % 3) 0) || ltb (2 * n - 5) (numbers / 3)) }
{
    numbers % 3 != 0 || 2 * n - 5 < numbers / 3
}

// A count as far as 32 bits go.
fn counted(n: usize) -> u32
    ensures { result ≡ min n 4294967295 }
{
    u32::try_from(n).unwrap_or(u32::MAX)
}

// The job: refusals 1 to 4 of the survey, or 9 of the triangles, or nothing.
pub fn check(x: &[u32], y: &[u32], z: &[i32], triangles: &[u16]) -> Result<(), Refusal>
    ensures { result ≡ checked_over (survey x.now y.now z.now) triangles.now }
{
    let mut order = [0u16; MOST_STATIONS];
    check_in_order(x, y, z, &mut order)?;
    let whole = triangles.len() / 3;
    if is_wrong_length(x.len(), triangles.len()) {
        return Err(Refusal::Mesh {
            triangle: counted(whole),
        });
    }
    if is_woven(x, y, z, &order, triangles, whole) {
        return Ok(());
    }
    if let Some(k) = first_wrong(x, y, z, triangles, whole) {
        return Err(Refusal::Mesh { triangle: k as u32 });
    }
    if has_left_out(x, y, z, triangles, whole) {
        return Err(Refusal::Mesh {
            triangle: whole as u32,
        });
    }
    Ok(())
}
