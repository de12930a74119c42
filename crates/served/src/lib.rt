// The served ground of a survey: document 02, L12.
// Kind and style are numbers, as C hands them over; one that there is not is refusal 5.
#![tactic(auto)]

ghost use Rattle.std.specs.Prelude.{◌≡◌, ◌++◌, ◌≤◌, pos, length, drop, replicate};
ghost use Rattle.whole.specs.Range.{Within};
ghost use Rattle.survey.specs.Fit.{Fit};
ghost use Rattle.survey.specs.Limits.{most_height};
ghost use Rattle.survey.specs.Rooms.{slope_room, work_room};
ghost use Rattle.survey.specs.Survey.{survey};
ghost use Rattle.neighbours.specs.Room.{threes};
ghost use Rattle.mesh.specs.Kinds.{triangles_of};
ghost use Rattle.served.specs.Figures.{figures_of, AtHand};
ghost use Rattle.served.specs.Job.{counted, slopes_in, work_in};

use crate::parts::parts_of;
use lines::is_wrong;
use survey::answers::Figures;
use survey::check::check;
use survey::refusal::Refusal;
use survey::rooms::{is_tight, slope_room, work_room};

pub mod outline;
pub mod parts;

// Both figures of a level over the t triangles at the front of the work room, with the slopes that the style asks for.
pub fn count(
    x: &[u32],
    y: &[u32],
    z: &[i32],
    work: &[u16],
    t: usize,
    slopes: &[i32],
    level: i32,
    style: u32,
) -> Figures
    requires { AtHand (survey x.now y.now z.now) t work.now style slopes.now × Within most_height level }
    ensures { result ≡ figures_of (survey x.now y.now z.now) (threes t work.now) style level }
{
    let mut served: u64 = 0;
    let mut unserved: u64 = 0;
    for k in 0..t {
        let a = work[3 * k] as usize;
        let b = work[3 * k + 1] as usize;
        let c = work[3 * k + 2] as usize;
        let parts = parts_of(x, y, z, slopes, level, style, a, b, c);
        served += parts.served;
        unserved += parts.unserved;
    }
    Figures { served, unserved }
}

// Both figures over the mesh of a kind, made for this level alone. The slope room is zero again; what the work room holds on return is not said.
fn count_once(
    x: &[u32],
    y: &[u32],
    z: &[i32],
    kind: u32,
    level: i32,
    style: u32,
    slopes: &mut [i32],
    work: &mut [u16],
) -> Figures
    requires { Fit (survey x.now y.now z.now) × Within most_height level
        × (slope_room (length x.now) ≤ length slopes.old) × (work_room (length x.now) ≤ length work.old) }
    ensures value { result ≡ figures_of (survey x.now y.now z.now)
        (triangles_of kind (survey x.now y.now z.now)) style level }
    ensures slopes_after { slopes.new ≡ replicate (slope_room (length x.now)) (pos 0)
        ++ drop (slope_room (length x.now)) slopes.old }
{
    let t = mesh::fill(x, y, z, kind, work);
    lines::put_slopes(x, y, z, style, slopes);
    let figures = count(x, y, z, work, t, slopes, level, style);
    slopes::clear(slopes, slope_room(x.len()));
    figures
}

// The job: refusals 1 to 6, or both figures.
pub fn served(
    x: &[u32],
    y: &[u32],
    z: &[i32],
    kind: u32,
    level: i32,
    style: u32,
    slopes: &mut [i32],
    work: &mut [u16],
) -> Result<Figures, Refusal>
    ensures value { result ≡ counted (survey x.now y.now z.now) kind level style
        (length slopes.old) (length work.old) }
    ensures slopes_after { slopes.new ≡ slopes_in result (survey x.now y.now z.now) slopes.old }
    ensures work_after { work.new ≡ work_in result (survey x.now y.now z.now) work.old }
{
    check(x, y, z)?;
    if is_wrong(kind, level, style) {
        return Err(Refusal::Number);
    }
    if is_tight(x.len(), slopes.len(), work.len()) {
        return Err(Refusal::Room);
    }
    let worked = work_room(x.len());
    let figures = count_once(x, y, z, kind, level, style, slopes, &mut work[..worked]);
    mesh::clear(work, worked);
    Ok(figures)
}
