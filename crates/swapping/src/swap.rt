// The swaps in place.
ghost use Rattle.std.specs.Prelude.{◌≡◌, map, ◌+◌, ◌*◌, ◌≤◌, ◌<◌, length};
ghost use Rattle.lists.specs.Table.{table};
ghost use Rattle.survey.specs.Survey.{survey};
ghost use Rattle.tops.specs.Tops.{Tops};
ghost use Rattle.triangles.specs.Chain.{places_of};
ghost use Rattle.triangles.specs.Mesh.{lowest_first};
ghost use Rattle.neighbours.specs.Room.{threes};
ghost use Rattle.fatter.specs.Swap.{swaps};
ghost use Rattle.swapping.specs.Rooms.{corners_of, twins_of, key_in, corners_after, twins_after, twin_in, renew_round, InRanges, After, Prepared};

use crate::half::{corner, twin};
use crate::keys::{NO_KEY, fill_keys, renew_round};
use lists::slice::put;
use neighbours::half::{Half, after, before};
use tops::{fill_tops, lowest_key};

// The swap of the side of the half-sides e and f in the corners.
fn swap_corners(corners: &mut [u16], e: Half, f: Half)
    requires { (e.0 < 32766) × (f.0 < 32766) }
    ensures { corners.new ≡ corners_after corners.old e.0 f.0 }
{
    let l = corner(corners, before(e));
    let r = corner(corners, before(f));
    let h = after(f);
    let g = after(e);
    put(corners, h.0, l.0);
    put(corners, g.0, r.0);
}

// The same in the twins.
fn swap_twins(twins: &mut [u16], e: Half, f: Half)
    requires { (e.0 < 32766) × (f.0 < 32766) }
    ensures { twins.new ≡ twins_after twins.old e.0 f.0 }
{
    let g = after(e);
    let h = after(f);
    let a = twin(twins, h);
    let b = twin(twins, g);
    put(twins, f.0, b);
    put(twins, e.0, a);
    put(twins, b, f.0);
    put(twins, a, e.0);
    put(twins, h.0, g.0);
    put(twins, g.0, h.0);
}

// The keys of the m half-sides of a room.
fn keys_in(room: &[u16], m: usize, x: &[u32], y: &[u32], keys: &mut [u32])
    requires { (length keys.old ≤ 32766) × (m ≤ 32766) × (m + m ≤ length room.now) × InRanges x.now y.now }
    ensures { keys.new ≡ table (key_in (places_of x.now y.now) (corners_of m room.now) (twins_of m room.now))
        (length keys.old) }
{
    let z = m + m;
    fill_keys(&room[..m], &room[m..z], x, y, keys);
}

// The twin of half-side e among the m half-sides of a room.
fn twin_in(room: &[u16], m: usize, e: Half) -> u16
    requires { (m ≤ 32766) × (m + m ≤ length room.now) }
    ensures { result ≡ twin_in (twins_of m room.now) e.0 }
{
    let z = m + m;
    twin(&room[m..z], e)
}

// The keys of the five sides of the triangles of the half-sides e and f, just swapped, among the m half-sides of a room.
fn renew_in(
    room: &[u16],
    m: usize,
    x: &[u32],
    y: &[u32],
    keys: &mut [u32],
    tops: &mut [u32],
    e: Half,
    f: Half,
)
    requires { (e.0 < 32766) × (f.0 < 32766) × (length keys.old ≤ 32766) × (m ≤ 32766) × (m + m ≤ length room.now) × InRanges x.now y.now
        × Tops keys.old tops.old }
    ensures { (keys.new ≡ renew_round (key_in (places_of x.now y.now) (corners_of m room.now) (twins_of m room.now))
        (twins_of m room.now) e.0 f.0 keys.old) × Tops keys.new tops.new }
{
    let z = m + m;
    renew_round(&room[..m], &room[m..z], x, y, keys, tops, e, f);
}

// The swap of the side of half-side e, which has a twin, among the m half-sides of a room, with the keys of the five sides of its two
// triangles told anew.
fn swap_side(
    room: &mut [u16],
    m: usize,
    x: &[u32],
    y: &[u32],
    keys: &mut [u32],
    tops: &mut [u32],
    e: Half,
)
    requires { (e.0 < 32766) × (twin_in (twins_of m room.old) e.0 < 32766) × (length keys.old ≤ 32766) × (m ≤ 32766) × (m + m ≤ length room.old)
        × InRanges x.now y.now × Tops keys.old tops.old }
    ensures { After (places_of x.now y.now) e.0 (corners_of m room.old) (twins_of m room.old) keys.old
        (corners_of m room.new) (twins_of m room.new) keys.new × Tops keys.new tops.new }
{
    let f = twin_in(room, m, e);
    swap_corners(&mut room[..m], e, Half(f));
    let z = m + m;
    swap_twins(&mut room[m..z], e, Half(f));
    renew_in(room, m, x, y, keys, tops, e, Half(f));
}

// All swaps, always of the lowest side that may be swapped, until none is left, among the t triangles of a room with their twins behind
// them. `keys` and `tops` are scratch, and what stands in the room behind the triangles is not said.
pub fn swap_all(
    x: &[u32],
    y: &[u32],
    z: &[i32],
    room: &mut [u16],
    t: usize,
    keys: &mut [u32],
    tops: &mut [u32],
)
    requires { Prepared (survey x.now y.now z.now) t room.old keys.old tops.old }
    ensures { map lowest_first (threes t room.new) ≡
        map lowest_first (swaps (survey x.now y.now z.now) (threes t room.old)) }
{
    let m = 3 * t;
    keys_in(room, m, x, y, keys);
    fill_tops(keys, tops);
    let mut e = lowest_key(keys, tops);
    // Each swap changes which key is the lowest, so there is no range to go over.
    while keys[e] != NO_KEY {
        swap_side(room, m, x, y, keys, tops, Half(e as u16));
        e = lowest_key(keys, tops);
    }
}
