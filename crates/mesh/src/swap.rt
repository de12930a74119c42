// The sides of a mesh swapped, in a room.
ghost use Rattle.std.specs.Prelude.{◌≡◌, map, ◌*◌, ◌≤◌, length};
ghost use Rattle.survey.specs.Fit.{Fit};
ghost use Rattle.survey.specs.Rooms.{work_room};
ghost use Rattle.survey.specs.Survey.{survey};
ghost use Rattle.triangles.specs.Mesh.{lowest_first};
ghost use Rattle.neighbours.specs.Room.{threes};
ghost use Rattle.hull.specs.MeshOf.{MeshOf};
ghost use Rattle.fatter.specs.Swap.{swaps};

use survey::limits::MOST_TRIANGLES;

// A key for each half-side, and one for each 64 of them.
const MOST_KEYS: usize = 3 * MOST_TRIANGLES;

const MOST_TOPS: usize = (MOST_KEYS + 63) / 64;

// The sides of the t triangles of a room swapped, as long as one may be. `keys` and `tops` are scratch; what stands behind the triangles is
// not said.
fn swap_with(
    x: &[u32],
    y: &[u32],
    z: &[i32],
    room: &mut [u16],
    t: usize,
    keys: &mut [u32],
    tops: &mut [u32],
)
    requires { Fit (survey x.now y.now z.now) × MeshOf (survey x.now y.now z.now) (threes t room.old)
        × (work_room (length x.now) ≤ length room.old) × (6129 ≤ length keys.old) × (96 ≤ length tops.old) }
    ensures { map lowest_first (threes t room.new) ≡
        map lowest_first (swaps (survey x.now y.now z.now) (threes t room.old)) }
{
    neighbours::build::lay(room, t, x.len());
    let m = 3 * t;
    let b = (m + 63) / 64;
    swapping::swap::swap_all(x, y, z, room, t, &mut keys[..m], &mut tops[..b]);
}

// The same with scratch of its own, which is no part of its callers' stack: it is not built into them.
#[inline(never)]
pub fn swap_sides(x: &[u32], y: &[u32], z: &[i32], room: &mut [u16], t: usize)
    requires { Fit (survey x.now y.now z.now) × MeshOf (survey x.now y.now z.now) (threes t room.old)
        × (work_room (length x.now) ≤ length room.old) }
    ensures { map lowest_first (threes t room.new) ≡
        map lowest_first (swaps (survey x.now y.now z.now) (threes t room.old)) }
{
    let mut keys = [0u32; MOST_KEYS];
    let mut tops = [0u32; MOST_TOPS];
    swap_with(x, y, z, room, t, &mut keys, &mut tops);
}
