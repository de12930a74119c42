// The lines of a level over a survey: one preparation, then the lines of any level.
// Kind and style are numbers, as C hands them over; one that there is not is refusal 5.
#![tactic(auto)]

ghost use Rattle.std.specs.Prelude.{◌≡◌, ◌++◌, ◌≤◌, pos, length, drop, replicate};
ghost use Rattle.whole.specs.Range.{Within};
ghost use Rattle.survey.specs.Fit.{Fit};
ghost use Rattle.survey.specs.Limits.{most_height};
ghost use Rattle.survey.specs.Rooms.{vertex_room, record_room, slope_room, work_room};
ghost use Rattle.survey.specs.Survey.{survey};
ghost use Rattle.trace.specs.Lines.{records as records_of};
ghost use Rattle.neighbours.specs.Room.{order, threes, Holds};
ghost use Rattle.slopes.specs.Job.{slopes_of};
ghost use Rattle.hull.specs.MeshOf.{MeshOf};
ghost use Rattle.mesh.specs.Kinds.{triangles_of};
ghost use Rattle.spots.specs.Lines.{lines_of, spots_of, xs_of, ys_of};
ghost use Rattle.spots.specs.Prepared.{slopes_for, Prepared};
ghost use Rattle.lines.specs.Job.{lengths, is_off, is_wrong, is_short, drawn, x_in, y_in, records_in, slopes_in, work_in};

use survey::answers::Drawn;
use survey::check::check;
use survey::limits::MOST_HEIGHT;
use survey::refusal::Refusal;
use survey::rooms::{is_tight, record_room, slope_room, vertex_room, work_room};
use tracing::scan::Traced;

// How many triangles and how many sides the records in a work room have.
#[derive(Clone, Copy)]
pub struct Recorded {
    pub triangles: usize,
    pub sides: usize,
}

// The records of the mesh of a kind and its sides in order, from the front of the work room. What stands behind them is not said.
pub fn put_records(x: &[u32], y: &[u32], z: &[i32], kind: u32, work: &mut [u16]) -> Recorded
    requires { Fit (survey x.now y.now z.now) × (work_room (length x.now) ≤ length work.old) }
    ensures { (result.triangles ≡ length (triangles_of kind (survey x.now y.now z.now)))
        × (result.sides ≡ length (order (triangles_of kind (survey x.now y.now z.now)) (length x.now)))
        × Holds (triangles_of kind (survey x.now y.now z.now)) (length x.now) work.new }
{
    let t = mesh::fill(x, y, z, kind, work);
    let sides = neighbours::build::lay(work, t, x.len());
    Recorded {
        triangles: t,
        sides,
    }
}

// The slopes that a style asks for, from the front of `room`.
pub fn put_slopes(x: &[u32], y: &[u32], z: &[i32], style: u32, room: &mut [i32])
    requires { Fit (survey x.now y.now z.now) × (slope_room (length x.now) ≤ length room.old) }
    ensures { room.new ≡ slopes_for (survey x.now y.now z.now) style
        ++ drop (slope_room (length x.now)) room.old }
{
    if style == 0 {
        slopes::clear(room, slope_room(x.len()));
    } else {
        slopes::fill(x, y, z, room);
    }
}

// The lines of one level over any mesh, with what one preparation has left: their spots and their records. The work room is as it was.
pub fn draw(
    x: &[u32],
    y: &[u32],
    z: &[i32],
    recorded: Recorded,
    work: &mut [u16],
    slopes: &[i32],
    level: i32,
    style: u32,
    vx: &mut [u32],
    vy: &mut [u32],
    records: &mut [u16],
) -> Traced
    requires { Prepared (survey x.now y.now z.now) (threes recorded.triangles work.old) style work.old slopes.now
        × (recorded.sides ≡ length (order (threes recorded.triangles work.old) (length x.now))) × Within most_height level
        × (vertex_room (length x.now) ≤ length vx.old) × (vertex_room (length x.now) ≤ length vy.old)
        × (record_room (length x.now) ≤ length records.old) }
    ensures counts { (result.lines ≡ length (lines_of (survey x.now y.now z.now) (threes recorded.triangles work.old) level))
        × (result.vertices ≡ length (spots_of (survey x.now y.now z.now) (threes recorded.triangles work.old)
        (slopes_of (survey x.now y.now z.now)) style level)) }
    ensures of_x { vx.new ≡ xs_of (spots_of (survey x.now y.now z.now) (threes recorded.triangles work.old)
        (slopes_of (survey x.now y.now z.now)) style level) ++ drop result.vertices vx.old }
    ensures of_y { vy.new ≡ ys_of (spots_of (survey x.now y.now z.now) (threes recorded.triangles work.old)
        (slopes_of (survey x.now y.now z.now)) style level) ++ drop result.vertices vy.old }
    ensures of_records { records.new
        ≡ records_of (lines_of (survey x.now y.now z.now) (threes recorded.triangles work.old) level)
        ++ drop result.lines records.old }
    ensures of_work { work.new ≡ work.old }
{
    let traced = tracing::scan::trace(
        z,
        level,
        work,
        recorded.triangles,
        recorded.sides,
        &mut vx[..vertex_room(x.len())],
        records,
    );
    spots::spots::fill_spots(x, y, z, slopes, level, style, traced.vertices, vx, vy);
    traced
}

// Whether the level or the style is out of range.
pub fn is_off(level: i32, style: u32) -> bool
    ensures { result ≡ is_off level style }
{
    level < -MOST_HEIGHT || MOST_HEIGHT < level || 1 < style
}

// Whether the kind, the level or the style is.
pub fn is_wrong(kind: u32, level: i32, style: u32) -> bool
    ensures { result ≡ is_wrong kind level style }
{
    1 < kind || is_off(level, style)
}

// Whether a room is too short for n stations.
pub fn is_short(n: usize, vx: usize, vy: usize, records: usize, slopes: usize, work: usize) -> bool
    requires { (3 ≤ n) × (n ≤ 1024) }
    ensures { result ≡ is_short n (lengths vx vy records slopes work) }
{
    let vertices = vertex_room(n);
    vx < vertices || vy < vertices || records < record_room(n) || is_tight(n, slopes, work)
}

// The lines of a level over any mesh whose records stand in the work room: the slopes are made for this level alone, and the slope room is
// zero again. What the work room holds on return is not said.
pub fn draw_recorded(
    x: &[u32],
    y: &[u32],
    z: &[i32],
    recorded: Recorded,
    level: i32,
    style: u32,
    vx: &mut [u32],
    vy: &mut [u32],
    records: &mut [u16],
    slopes: &mut [i32],
    work: &mut [u16],
) -> Traced
    requires { Fit (survey x.now y.now z.now) × MeshOf (survey x.now y.now z.now) (threes recorded.triangles work.old)
        × Holds (threes recorded.triangles work.old) (length x.now) work.old
        × (recorded.sides ≡ length (order (threes recorded.triangles work.old) (length x.now))) × Within most_height level
        × (vertex_room (length x.now) ≤ length vx.old) × (vertex_room (length x.now) ≤ length vy.old)
        × (record_room (length x.now) ≤ length records.old) × (slope_room (length x.now) ≤ length slopes.old) }
    ensures counts { (result.lines ≡ length (lines_of (survey x.now y.now z.now) (threes recorded.triangles work.old) level))
        × (result.vertices ≡ length (spots_of (survey x.now y.now z.now) (threes recorded.triangles work.old)
        (slopes_of (survey x.now y.now z.now)) style level)) }
    ensures of_x { vx.new ≡ xs_of (spots_of (survey x.now y.now z.now) (threes recorded.triangles work.old)
        (slopes_of (survey x.now y.now z.now)) style level) ++ drop result.vertices vx.old }
    ensures of_y { vy.new ≡ ys_of (spots_of (survey x.now y.now z.now) (threes recorded.triangles work.old)
        (slopes_of (survey x.now y.now z.now)) style level) ++ drop result.vertices vy.old }
    ensures of_records { records.new ≡ records_of (lines_of (survey x.now y.now z.now) (threes recorded.triangles work.old) level)
        ++ drop result.lines records.old }
    ensures of_slopes { slopes.new ≡ replicate (slope_room (length x.now)) (pos 0)
        ++ drop (slope_room (length x.now)) slopes.old }
{
    put_slopes(x, y, z, style, slopes);
    let traced = draw(
        x, y, z, recorded, work, slopes, level, style, vx, vy, records,
    );
    slopes::clear(slopes, slope_room(x.len()));
    traced
}

// The same over the mesh of a kind.
fn draw_once(
    x: &[u32],
    y: &[u32],
    z: &[i32],
    kind: u32,
    level: i32,
    style: u32,
    vx: &mut [u32],
    vy: &mut [u32],
    records: &mut [u16],
    slopes: &mut [i32],
    work: &mut [u16],
) -> Traced
    requires { Fit (survey x.now y.now z.now) × Within most_height level
        × (vertex_room (length x.now) ≤ length vx.old) × (vertex_room (length x.now) ≤ length vy.old)
        × (record_room (length x.now) ≤ length records.old) × (slope_room (length x.now) ≤ length slopes.old)
        × (work_room (length x.now) ≤ length work.old) }
    ensures counts { (result.lines ≡ length (lines_of (survey x.now y.now z.now) (triangles_of kind (survey x.now y.now z.now)) level))
        × (result.vertices ≡ length (spots_of (survey x.now y.now z.now) (triangles_of kind (survey x.now y.now z.now))
        (slopes_of (survey x.now y.now z.now)) style level)) }
    ensures of_x { vx.new ≡ xs_of (spots_of (survey x.now y.now z.now) (triangles_of kind (survey x.now y.now z.now))
        (slopes_of (survey x.now y.now z.now)) style level) ++ drop result.vertices vx.old }
    ensures of_y { vy.new ≡ ys_of (spots_of (survey x.now y.now z.now) (triangles_of kind (survey x.now y.now z.now))
        (slopes_of (survey x.now y.now z.now)) style level) ++ drop result.vertices vy.old }
    ensures of_records { records.new ≡ records_of (lines_of (survey x.now y.now z.now) (triangles_of kind (survey x.now y.now z.now)) level)
        ++ drop result.lines records.old }
    ensures of_slopes { slopes.new ≡ replicate (slope_room (length x.now)) (pos 0)
        ++ drop (slope_room (length x.now)) slopes.old }
{
    let recorded = put_records(x, y, z, kind, work);
    draw_recorded(
        x, y, z, recorded, level, style, vx, vy, records, slopes, work,
    )
}

// The job: refusals 1 to 6, or the lines of the level, their count and that of their vertices.
pub fn lines(
    x: &[u32],
    y: &[u32],
    z: &[i32],
    kind: u32,
    level: i32,
    style: u32,
    vx: &mut [u32],
    vy: &mut [u32],
    records: &mut [u16],
    slopes: &mut [i32],
    work: &mut [u16],
) -> Result<Drawn, Refusal>
    ensures answer { result ≡ drawn (survey x.now y.now z.now) kind level style
        (lengths (length vx.old) (length vy.old) (length records.old) (length slopes.old) (length work.old)) }
    ensures of_x { vx.new ≡ x_in result (survey x.now y.now z.now) (triangles_of kind (survey x.now y.now z.now)) level style vx.old }
    ensures of_y { vy.new ≡ y_in result (survey x.now y.now z.now) (triangles_of kind (survey x.now y.now z.now)) level style vy.old }
    ensures of_records { records.new ≡ records_in result (survey x.now y.now z.now) (triangles_of kind (survey x.now y.now z.now)) level records.old }
    ensures of_slopes { slopes.new ≡ slopes_in result (survey x.now y.now z.now) slopes.old }
    ensures of_work { work.new ≡ work_in result (survey x.now y.now z.now) work.old }
{
    check(x, y, z)?;
    if is_wrong(kind, level, style) {
        return Err(Refusal::Number);
    }
    if is_short(
        x.len(),
        vx.len(),
        vy.len(),
        records.len(),
        slopes.len(),
        work.len(),
    ) {
        return Err(Refusal::Room);
    }
    let worked = work_room(x.len());
    let traced = draw_once(
        x,
        y,
        z,
        kind,
        level,
        style,
        vx,
        vy,
        records,
        slopes,
        &mut work[..worked],
    );
    mesh::clear(work, worked);
    Ok(Drawn {
        lines: traced.lines,
        vertices: traced.vertices,
    })
}
