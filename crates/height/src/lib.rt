// The height at a place: the job.
// The kind is a number, as C hands it over; one that there is not is refusal 5.
#![tactic(auto)]

ghost use Rattle.std.specs.Prelude.{◌≡◌, ◌≤◌, length, drop};
ghost use Rattle.whole.specs.Place.{place};
ghost use Rattle.survey.specs.Fit.{Fit};
ghost use Rattle.survey.specs.Limits.{most_coordinate};
ghost use Rattle.survey.specs.Rooms.{slope_room, work_room};
ghost use Rattle.survey.specs.Survey.{survey};
ghost use Rattle.mesh.specs.Kinds.{triangles_of};
ghost use Rattle.height.specs.Height.{height_at};
ghost use Rattle.height.specs.Job.{is_far, heighted, slopes_after, work_after};

use held::{holder_in, interpolate_in, station_at};
use survey::answers::Height;
use survey::check::check;
use survey::limits::MOST_COORDINATE;
use survey::refusal::Refusal;
use survey::rooms::{is_tight, slope_room, work_room};

// The height over stations that passed the checks. The mesh is made only for a place on no station, in the work room, and the slopes only
// for one in the hull. What the work room holds then is not said.
fn height_of(
    x: &[u32],
    y: &[u32],
    z: &[i32],
    kind: u32,
    px: u32,
    py: u32,
    slopes: &mut [i32],
    work: &mut [u16],
) -> Height
    requires { Fit (survey x.now y.now z.now) × (px ≤ most_coordinate) × (py ≤ most_coordinate)
        × (slope_room (length x.now) ≤ length slopes.old) × (work_room (length x.now) ≤ length work.old) }
    ensures { (result ≡ height_at (survey x.now y.now z.now)
        (triangles_of kind (survey x.now y.now z.now)) (place px py))
        × (drop (slope_room (length x.now)) slopes.new ≡ drop (slope_room (length x.now)) slopes.old) }
{
    if let Some(k) = station_at(x, y, px, py) {
        return Height::Own { z: z[k] };
    }
    let n = mesh::fill(x, y, z, kind, work);
    let Some(k) = holder_in(x, y, work, n, px, py) else {
        return Height::Outside;
    };
    slopes::fill(x, y, z, slopes);
    Height::Between {
        z: interpolate_in(x, y, z, work, k, slopes, px, py),
    }
}

// Whether a place is out of range.
pub fn is_far(px: u32, py: u32) -> bool
    ensures { result ≡ is_far (place px py) }
{
    MOST_COORDINATE < px || MOST_COORDINATE < py
}

// The job: refusals 1 to 6, or the height at the place.
pub fn height(
    x: &[u32],
    y: &[u32],
    z: &[i32],
    kind: u32,
    px: u32,
    py: u32,
    slopes: &mut [i32],
    work: &mut [u16],
) -> Result<Height, Refusal>
    ensures { (result ≡ heighted (survey x.now y.now z.now) kind (place px py)
        (length slopes.old) (length work.old))
        × (slopes.new ≡ slopes_after result (survey x.now y.now z.now) slopes.old)
        × (work.new ≡ work_after result (survey x.now y.now z.now) work.old) }
{
    check(x, y, z)?;
    if 1 < kind || is_far(px, py) {
        return Err(Refusal::Number);
    }
    if is_tight(x.len(), slopes.len(), work.len()) {
        return Err(Refusal::Room);
    }
    let worked = work_room(x.len());
    let height = height_of(x, y, z, kind, px, py, slopes, &mut work[..worked]);
    slopes::clear(slopes, slope_room(x.len()));
    mesh::clear(work, worked);
    Ok(height)
}
