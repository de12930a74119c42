// The triangles of a survey: the sweep over its stations in order, by two chains.
#![tactic(auto)]

ghost use Rattle.std.specs.Prelude.{◌≡◌, ◌++◌, ◌*◌, ◌≤◌, length, drop};
ghost use Rattle.survey.specs.Fit.{Fit};
ghost use Rattle.survey.specs.Rooms.{triangle_room};
ghost use Rattle.survey.specs.Survey.{survey};
ghost use Rattle.sweep.specs.Sweep.{flat};
ghost use Rattle.triangles.specs.Mesh.{triangles};

use chain::sweep;
use survey::limits::MOST_STATIONS;
use survey::rank::put_in_order;

pub mod chain;

// The triangles of a survey that passed the checks, at the front of the room, and how many there are.
pub fn fill(x: &[u32], y: &[u32], z: &[i32], room: &mut [u16]) -> usize
    requires { Fit (survey x.now y.now z.now) × (triangle_room (length x.now) ≤ length room.old) }
    ensures { (result ≡ length (triangles (survey x.now y.now z.now)))
        × (room.new ≡ flat (triangles (survey x.now y.now z.now)) ++ drop (3 * result) room.old) }
{
    let mut ranks = [0u64; MOST_STATIONS];
    let mut order = [0u16; MOST_STATIONS];
    let mut lo = [0u16; MOST_STATIONS];
    let mut up = [0u16; MOST_STATIONS];
    put_in_order(x, y, &mut order, &mut ranks);
    sweep(x, y, &order, x.len(), &mut lo, &mut up, room)
}
