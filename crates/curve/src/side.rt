// A side by its two stations, and whether a level passes between them: document 01, "The four jobs" and "The curve along a side".
ghost use Rattle.std.specs.Prelude.{◌≡◌};
ghost use Rattle.std.specs.Bool.{xor};
ghost use Rattle.curve.specs.Below.{below, is_crossed};

// A station at an end of a side: its place, its height and its slopes.
#[derive(Clone, Copy)]
pub struct End {
    pub x: u32,
    pub y: u32,
    pub z: i32,
    pub p: i32,
    pub q: i32,
    pub r: i32,
    pub s: i32,
    pub t: i32,
}

// Whether one of the two holds and the other does not.
pub fn is_one(a: bool, b: bool) -> bool
    ensures { result ≡ xor a b }
{
    a != b
}

// Whether a station of height z is below the level.
pub fn is_below(level: i32, z: i32) -> bool
    ensures { result ≡ below level z }
{
    z < level
}

// Whether one of two stations is below the level and the other is not.
pub fn is_crossed(level: i32, z1: i32, z2: i32) -> bool
    ensures { result ≡ is_crossed level z1 z2 }
{
    is_below(level, z1) != is_below(level, z2)
}
