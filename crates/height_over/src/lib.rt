// The height at a place over a mesh that is handed in: the job.
#![tactic(auto)]

ghost use Rattle.std.specs.Prelude.{◌≡◌, length};
ghost use Rattle.whole.specs.Place.{place};
ghost use Rattle.survey.specs.Survey.{survey};
ghost use Rattle.height.specs.Job.{slopes_after, work_after};
ghost use Rattle.height_over.specs.Job.{heighted_on};

use height::is_far;
use held::height_in;
use survey::answers::Height;
use survey::refusal::Refusal;
use survey::rooms::{is_tight, slope_room, work_room};

// Refusals 1 to 4, 9, 5 and 6, or the height at the place.
pub fn height_over(
    x: &[u32],
    y: &[u32],
    z: &[i32],
    triangles: &[u16],
    px: u32,
    py: u32,
    slopes: &mut [i32],
    work: &mut [u16],
) -> Result<Height, Refusal>
    ensures { (result ≡ heighted_on (survey x.now y.now z.now) triangles.now (place px py)
        (length slopes.old) (length work.old))
        × (slopes.new ≡ slopes_after result (survey x.now y.now z.now) slopes.old)
        × (work.new ≡ work_after result (survey x.now y.now z.now) work.old) }
{
    supplied::check(x, y, z, triangles)?;
    if is_far(px, py) {
        return Err(Refusal::Number);
    }
    if is_tight(x.len(), slopes.len(), work.len()) {
        return Err(Refusal::Room);
    }
    slopes::fill(x, y, z, slopes);
    let height = height_in(x, y, z, triangles, triangles.len() / 3, slopes, px, py);
    slopes::clear(slopes, slope_room(x.len()));
    mesh::clear(work, work_room(x.len()));
    Ok(height)
}
