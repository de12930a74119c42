// What a slice of corners, a slice of twins and a slice of coordinates say of half-sides and stations.
ghost use Rattle.std.specs.Prelude.{◌≡◌, ◌≤◌, get_or};
ghost use Rattle.neighbours.specs.Half.{corner_in};
ghost use Rattle.swapping.specs.Rooms.{twin_in};

use lists::slice::{at, at_or};
use neighbours::half::{Half, NONE, Station};

// The station that a half-side starts from, and 0 where there is no such half-side.
pub fn corner(corners: &[u16], h: Half) -> Station
    ensures { (result.0 ≡ corner_in corners.now h.0) × (result.0 ≤ 65535) }
{
    Station(at(corners, h.0))
}

// The twin of a half-side, or NONE: a swap moves the entries as they stand, and the keys compare them with the count of half-sides.
pub fn twin(twins: &[u16], h: Half) -> u16
    ensures { result ≡ twin_in twins.now h.0 }
{
    at_or(twins, h.0, NONE)
}

// A coordinate of a station.
pub fn coordinate(x: &[u32], k: Station) -> u32
    ensures { result ≡ get_or x.now k.0 0 }
{
    at_or(x, k.0, 0)
}
