// The keys of half-sides: which sides may be swapped, and which of them is the lowest.
ghost use Rattle.std.specs.Prelude.{◌≡◌, ◌≤◌, ◌<◌, pos, length};
ghost use Rattle.std.specs.Int.Signed.{lt_z};
ghost use Rattle.lists.specs.Table.{table};
ghost use Rattle.circle.specs.Circle.{circle};
ghost use Rattle.tops.specs.Tops.{Tops};
ghost use Rattle.triangles.specs.Chain.{places_of};
ghost use Rattle.swapping.specs.Rooms.{may_swap_in, key_in, renew, renew_side, renew_triangle, renew_round, InRanges};

use crate::half::{coordinate, corner, twin};
use circle::circle_at;
use neighbours::half::{Half, Station, after, before};
use tops::store_key;

// What stands among the keys for a side that may not be swapped: a number past all keys, so that the lowest key is found by size alone.
pub const NO_KEY: u32 = 4294967295;

// Whether station r lies strictly inside the circle through i, j and l, which stand counterclockwise.
fn far_inside(x: &[u32], y: &[u32], i: Station, j: Station, l: Station, r: Station) -> bool
    requires { InRanges x.now y.now }
    ensures { result ≡ lt_z (pos 0) (circle (places_of x.now y.now i.0) (places_of x.now y.now j.0)
        (places_of x.now y.now l.0) (places_of x.now y.now r.0)) }
{
    0 < circle_at(
        coordinate(x, i),
        coordinate(y, i),
        coordinate(x, j),
        coordinate(y, j),
        coordinate(x, l),
        coordinate(y, l),
        coordinate(x, r),
        coordinate(y, r),
    )
}

// Whether the side of half-side h, which runs from its lower to its higher station, may be swapped.
fn may_swap(corners: &[u16], twins: &[u16], x: &[u32], y: &[u32], h: Half) -> bool
    requires { (h.0 < 32766) × (length corners.now ≤ 32766) × InRanges x.now y.now }
    ensures { result ≡ may_swap_in (places_of x.now y.now) corners.now twins.now h.0 }
{
    let i = corner(corners, h);
    let j = corner(corners, after(h));
    let f = twin(twins, h);
    i.0 < j.0
        && usize::from(f) < corners.len()
        && far_inside(
            x,
            y,
            i,
            j,
            corner(corners, before(h)),
            corner(corners, before(Half(f))),
        )
}

// The key of half-side h.
fn key_at(corners: &[u16], twins: &[u16], x: &[u32], y: &[u32], h: Half) -> u32
    requires { (h.0 < 32766) × (length corners.now ≤ 32766) × InRanges x.now y.now }
    ensures { result ≡ key_in (places_of x.now y.now) corners.now twins.now h.0 }
{
    if may_swap(corners, twins, x, y, h) {
        let i = corner(corners, h);
        let j = corner(corners, after(h));
        u32::from(i.0) * 65536 + u32::from(j.0)
    } else {
        NO_KEY
    }
}

// The keys of all half-sides, in their order.
pub fn fill_keys(corners: &[u16], twins: &[u16], x: &[u32], y: &[u32], keys: &mut [u32])
    requires { (length keys.old ≤ 32766) × (length corners.now ≤ 32766) × InRanges x.now y.now }
    ensures { keys.new ≡ table (key_in (places_of x.now y.now) corners.now twins.now)
        (length keys.old) }
{
    for (h, key) in keys.iter_mut().enumerate() {
        *key = key_at(corners, twins, x, y, Half(h as u16));
    }
}

// The key of half-side h told anew, if there is such a half-side.
fn renew_half(
    corners: &[u16],
    twins: &[u16],
    x: &[u32],
    y: &[u32],
    keys: &mut [u32],
    tops: &mut [u32],
    h: u16,
)
    requires { (length keys.old ≤ 32766) × (length corners.now ≤ 32766) × InRanges x.now y.now × Tops keys.old tops.old }
    ensures { (keys.new ≡ renew (key_in (places_of x.now y.now) corners.now twins.now) h
        keys.old) × Tops keys.new tops.new }
{
    let i = h as usize;
    if i < keys.len() {
        let v = key_at(corners, twins, x, y, Half(h));
        store_key(keys, tops, i, v);
    }
}

// The keys of the side of half-side h.
fn renew_side(
    corners: &[u16],
    twins: &[u16],
    x: &[u32],
    y: &[u32],
    keys: &mut [u32],
    tops: &mut [u32],
    h: Half,
)
    requires { (length keys.old ≤ 32766) × (length corners.now ≤ 32766) × InRanges x.now y.now × Tops keys.old tops.old }
    ensures { (keys.new ≡ renew_side (key_in (places_of x.now y.now) corners.now twins.now)
        twins.now h.0 keys.old) × Tops keys.new tops.new }
{
    renew_half(corners, twins, x, y, keys, tops, h.0);
    let f = twin(twins, h);
    renew_half(corners, twins, x, y, keys, tops, f);
}

// The keys of the three sides of the triangle of half-side h.
fn renew_triangle(
    corners: &[u16],
    twins: &[u16],
    x: &[u32],
    y: &[u32],
    keys: &mut [u32],
    tops: &mut [u32],
    h: Half,
)
    requires { (h.0 < 32766) × (length keys.old ≤ 32766) × (length corners.now ≤ 32766) × InRanges x.now y.now × Tops keys.old tops.old }
    ensures { (keys.new ≡ renew_triangle (key_in (places_of x.now y.now) corners.now twins.now)
        twins.now h.0 keys.old) × Tops keys.new tops.new }
{
    renew_side(corners, twins, x, y, keys, tops, h);
    renew_side(corners, twins, x, y, keys, tops, after(h));
    renew_side(corners, twins, x, y, keys, tops, before(h));
}

// The keys of the five sides of the triangles of the half-sides e and f, just swapped.
pub fn renew_round(
    corners: &[u16],
    twins: &[u16],
    x: &[u32],
    y: &[u32],
    keys: &mut [u32],
    tops: &mut [u32],
    e: Half,
    f: Half,
)
    requires { (e.0 < 32766) × (f.0 < 32766) × (length keys.old ≤ 32766) × (length corners.now ≤ 32766) × InRanges x.now y.now × Tops keys.old tops.old }
    ensures { (keys.new ≡ renew_round (key_in (places_of x.now y.now) corners.now twins.now)
        twins.now e.0 f.0 keys.old) × Tops keys.new tops.new }
{
    renew_triangle(corners, twins, x, y, keys, tops, e);
    renew_side(corners, twins, x, y, keys, tops, f);
    renew_side(corners, twins, x, y, keys, tops, before(f));
}
