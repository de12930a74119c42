// Either kind of mesh of a survey, and the mesh job.
#![tactic(auto)]

ghost use Rattle.std.specs.Prelude.{◌≡◌, ◌++◌, ◌*◌, ◌≤◌, length, take, drop, replicate};
ghost use Rattle.survey.specs.Fit.{Fit};
ghost use Rattle.survey.specs.Rooms.{triangle_room, work_room};
ghost use Rattle.survey.specs.Survey.{survey};
ghost use Rattle.sweep.specs.Sweep.{flat};
ghost use Rattle.triangles.specs.Mesh.{triangles as swept_of};
ghost use Rattle.fatter.specs.Fatter.{fatter};
ghost use Rattle.mesh.specs.Kinds.{triangles_of};
ghost use Rattle.mesh.specs.Job.{meshed, triangles_in, work_in};

use listing::list;
use survey::check::check;
use survey::refusal::Refusal;
use survey::rooms::{triangle_room, work_room};
use swap::swap_sides;

mod swap;

// The triangles of a kind, at the front of the room, and how many there are. What stands behind them is not said. The kind is a number, since
// `triangles_of` has triangles for every one; which of them are refused is for the jobs to say.
pub fn fill(x: &[u32], y: &[u32], z: &[i32], kind: u32, room: &mut [u16]) -> usize
    requires { Fit (survey x.now y.now z.now) × (work_room (length x.now) ≤ length room.old) }
    ensures { (result ≡ length (triangles_of kind (survey x.now y.now z.now)))
        × (take (3 * result) room.new ≡ flat (triangles_of kind (survey x.now y.now z.now))) }
{
    let t = triangles::fill(x, y, z, room);
    if kind != 0 {
        swap_sides(x, y, z, room, t);
        list(room, t);
    }
    t
}

// The first n numbers of a room, in another. One by one: of the library's copy the compiler makes a call of `memmove`, which the archive would then ask
// of its callers beside `memset`.
pub fn copy(from: &[u16], n: usize, to: &mut [u16])
    requires { (n ≤ length from.now) × (n ≤ length to.old) }
    ensures { to.new ≡ take n from.now ++ drop n to.old }
{
    for k in 0..n {
        to[k] = from[k];
    }
}

// Fatter triangles, made in a work room and put into a triangle room, and how many there are. What the work room holds then is not said.
fn fatten(x: &[u32], y: &[u32], z: &[i32], work: &mut [u16], triangles: &mut [u16]) -> usize
    requires { Fit (survey x.now y.now z.now) × (work_room (length x.now) ≤ length work.old) × (triangle_room (length x.now) ≤ length triangles.old) }
    ensures { (result ≡ length (fatter (survey x.now y.now z.now)
        (swept_of (survey x.now y.now z.now))))
        × (triangles.new ≡ flat (fatter (survey x.now y.now z.now)
        (swept_of (survey x.now y.now z.now))) ++ drop (3 * result) triangles.old) }
{
    let t = triangles::fill(x, y, z, work);
    swap_sides(x, y, z, work, t);
    list(work, t);
    copy(work, 3 * t, triangles);
    t
}

// Zero in the first n numbers.
pub fn clear(work: &mut [u16], n: usize)
    requires { n ≤ length work.old }
    ensures { work.new ≡ replicate n 0 ++ drop n work.old }
{
    work[..n].fill(0);
}

// The job: refusals 1 to 6, or the triangles of the kind and their count.
pub fn mesh(
    x: &[u32],
    y: &[u32],
    z: &[i32],
    kind: u32,
    triangles: &mut [u16],
    work: &mut [u16],
) -> Result<usize, Refusal>
    ensures { (result ≡ meshed (survey x.now y.now z.now) kind (length triangles.old) (length work.old))
        × (triangles.new ≡ triangles_in result (survey x.now y.now z.now) kind triangles.old)
        × (work.new ≡ work_in result (survey x.now y.now z.now) work.old) }
{
    check(x, y, z)?;
    if 1 < kind {
        return Err(Refusal::Number);
    }
    let worked = work_room(x.len());
    if triangles.len() < triangle_room(x.len()) || work.len() < worked {
        return Err(Refusal::Room);
    }
    let count = if kind == 0 {
        triangles::fill(x, y, z, triangles)
    } else {
        fatten(x, y, z, &mut work[..worked], triangles)
    };
    clear(work, worked);
    Ok(count)
}
