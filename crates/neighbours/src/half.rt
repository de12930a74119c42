// Half-sides, and what a room that holds records says of them.
ghost use Rattle.std.specs.Prelude.{◌≡◌, ◌<◌, length};
ghost use Rattle.neighbours.specs.Half.{triangle_of, after, before, corner_in};

// The number of a station, of a triangle, and of a half-side: none can stand for another.
#[derive(Clone, Copy)]
pub struct Station(pub u16);

#[derive(Clone, Copy)]
pub struct Triangle(pub u16);

#[derive(Clone, Copy)]
pub struct Half(pub u16);

// What stands in place of a neighbour at the hull. A neighbour stands in the room as a number of 16 bits, so none is such a number too.
pub const NONE: u16 = 32767;

// The triangle that a half-side is of.
pub fn triangle_of(h: Half) -> Triangle
    ensures { result.0 ≡ triangle_of h.0 }
{
    Triangle(h.0 / 3)
}

// The next half-side of the same triangle.
pub fn after(h: Half) -> Half
    requires { h.0 < 32766 }
    ensures { (result.0 ≡ after h.0) × (result.0 < 32766) }
{
    Half(if h.0 % 3 == 2 { h.0 - 2 } else { h.0 + 1 })
}

// The previous half-side of the same triangle.
pub fn before(h: Half) -> Half
    requires { h.0 < 32766 }
    ensures { (result.0 ≡ before h.0) × (result.0 < 32766) }
{
    Half(if h.0 % 3 == 0 { h.0 + 2 } else { h.0 - 1 })
}

// The station that a half-side starts from, where the corners stand at the front of a room.
pub fn corner(room: &[u16], h: Half) -> Station
    requires { h.0 < length room.now }
    ensures { result.0 ≡ corner_in room.now h.0 }
{
    Station(room[h.0 as usize])
}
