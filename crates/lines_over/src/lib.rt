// The lines of a level over a mesh that is handed in: the job.
// The style is a number, as C hands it over; one that there is not is refusal 5.
#![tactic(auto)]

ghost use Rattle.std.specs.Prelude.{◌≡◌, ◌++◌, ◌*◌, ◌≤◌, pos, length, drop, replicate};
ghost use Rattle.whole.specs.Range.{Within};
ghost use Rattle.survey.specs.Fit.{Fit};
ghost use Rattle.survey.specs.Limits.{most_height};
ghost use Rattle.survey.specs.Rooms.{vertex_room, record_room, slope_room, work_room};
ghost use Rattle.survey.specs.Survey.{survey};
ghost use Rattle.trace.specs.Lines.{records as records_of};
ghost use Rattle.neighbours.specs.Room.{order, threes, Holds};
ghost use Rattle.hull.specs.MeshOf.{MeshOf};
ghost use Rattle.slopes.specs.Job.{slopes_of};
ghost use Rattle.spots.specs.Lines.{lines_of, spots_of, xs_of, ys_of};
ghost use Rattle.woven.specs.Accepted.{supplied_in};
ghost use Rattle.lines.specs.Job.{lengths, x_in, y_in, records_in, slopes_in, work_in};
ghost use Rattle.lines_over.specs.Job.{drawn_on};

use lines::{Recorded, draw_recorded, is_off, is_short};
use survey::answers::Drawn;
use survey::refusal::Refusal;
use survey::rooms::work_room;
use tracing::scan::Traced;

// The records of t triangles and their sides in order, from the front of the work room. What stands behind them is not said.
fn put_records(
    x: &[u32],
    y: &[u32],
    z: &[i32],
    triangles: &[u16],
    t: usize,
    work: &mut [u16],
) -> Recorded
    requires { Fit (survey x.now y.now z.now) × MeshOf (survey x.now y.now z.now) (threes t triangles.now) × (t ≤ 65535) × (3 * t ≤ length triangles.now)
        × (work_room (length x.now) ≤ length work.old) }
    ensures { (result.triangles ≡ t) × (result.sides ≡ length (order (threes t triangles.now) (length x.now)))
        × Holds (threes t triangles.now) (length x.now) work.new }
{
    mesh::copy(triangles, 3 * t, work);
    let sides = neighbours::build::lay(work, t, x.len());
    Recorded {
        triangles: t,
        sides,
    }
}

// The lines of a level over t triangles that are a mesh. What the work room holds on return is not said.
fn draw_over(
    x: &[u32],
    y: &[u32],
    z: &[i32],
    triangles: &[u16],
    t: usize,
    level: i32,
    style: u32,
    vx: &mut [u32],
    vy: &mut [u32],
    records: &mut [u16],
    slopes: &mut [i32],
    work: &mut [u16],
) -> Traced
    requires { Fit (survey x.now y.now z.now) × MeshOf (survey x.now y.now z.now) (threes t triangles.now) × (t ≤ 65535) × (3 * t ≤ length triangles.now)
        × Within most_height level × (vertex_room (length x.now) ≤ length vx.old) × (vertex_room (length x.now) ≤ length vy.old)
        × (record_room (length x.now) ≤ length records.old) × (slope_room (length x.now) ≤ length slopes.old)
        × (work_room (length x.now) ≤ length work.old) }
    ensures counts { (result.lines ≡ length (lines_of (survey x.now y.now z.now) (threes t triangles.now) level))
        × (result.vertices ≡ length (spots_of (survey x.now y.now z.now) (threes t triangles.now)
        (slopes_of (survey x.now y.now z.now)) style level)) }
    ensures of_x { vx.new ≡ xs_of (spots_of (survey x.now y.now z.now) (threes t triangles.now)
        (slopes_of (survey x.now y.now z.now)) style level) ++ drop result.vertices vx.old }
    ensures of_y { vy.new ≡ ys_of (spots_of (survey x.now y.now z.now) (threes t triangles.now)
        (slopes_of (survey x.now y.now z.now)) style level) ++ drop result.vertices vy.old }
    ensures of_records { records.new ≡ records_of (lines_of (survey x.now y.now z.now) (threes t triangles.now) level)
        ++ drop result.lines records.old }
    ensures of_slopes { slopes.new ≡ replicate (slope_room (length x.now)) (pos 0)
        ++ drop (slope_room (length x.now)) slopes.old }
{
    let recorded = put_records(x, y, z, triangles, t, work);
    draw_recorded(
        x, y, z, recorded, level, style, vx, vy, records, slopes, work,
    )
}

// Refusals 1 to 4, 9, 5 and 6, or the lines of the level, their count and that of their vertices.
pub fn lines_over(
    x: &[u32],
    y: &[u32],
    z: &[i32],
    triangles: &[u16],
    level: i32,
    style: u32,
    vx: &mut [u32],
    vy: &mut [u32],
    records: &mut [u16],
    slopes: &mut [i32],
    work: &mut [u16],
) -> Result<Drawn, Refusal>
    ensures answer { result ≡ drawn_on (survey x.now y.now z.now) triangles.now level style
        (lengths (length vx.old) (length vy.old) (length records.old) (length slopes.old) (length work.old)) }
    ensures of_x { vx.new ≡ x_in result (survey x.now y.now z.now) (supplied_in triangles.now) level style vx.old }
    ensures of_y { vy.new ≡ y_in result (survey x.now y.now z.now) (supplied_in triangles.now) level style vy.old }
    ensures of_records { records.new ≡ records_in result (survey x.now y.now z.now) (supplied_in triangles.now) level records.old }
    ensures of_slopes { slopes.new ≡ slopes_in result (survey x.now y.now z.now) slopes.old }
    ensures of_work { work.new ≡ work_in result (survey x.now y.now z.now) work.old }
{
    supplied::check(x, y, z, triangles)?;
    if is_off(level, style) {
        return Err(Refusal::Number);
    }
    if is_short(
        x.len(),
        vx.len(),
        vy.len(),
        records.len(),
        slopes.len(),
        work.len(),
    ) {
        return Err(Refusal::Room);
    }
    let worked = work_room(x.len());
    let traced = draw_over(
        x,
        y,
        z,
        triangles,
        triangles.len() / 3,
        level,
        style,
        vx,
        vy,
        records,
        slopes,
        &mut work[..worked],
    );
    mesh::clear(work, worked);
    Ok(Drawn {
        lines: traced.lines,
        vertices: traced.vertices,
    })
}
