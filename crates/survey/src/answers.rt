// What a job gives where it is done and that is more than one number. Where it is not done, it gives its refusal.

// A station's own height, an interpolated height, or a place outside the hull.
#[derive(Clone, Copy)]
pub enum Height {
    Own { z: i32 },
    Between { z: f64 },
    Outside,
}

// How many lines there are, and how many vertices they have in all.
#[derive(Clone, Copy, PartialEq, Eq)]
pub struct Drawn {
    pub lines: usize,
    pub vertices: usize,
}

// Twice the area of the served ground and that of the rest, in squares of a 128th.
#[derive(Clone, Copy, PartialEq, Eq)]
pub struct Figures {
    pub served: u64,
    pub unserved: u64,
}

// The style that a survey's text has, as the number that the door hands over, and how many stations and levels.
#[derive(Clone, Copy, PartialEq, Eq)]
pub struct Read {
    pub style: u32,
    pub stations: usize,
    pub levels: usize,
}
