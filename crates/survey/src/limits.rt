// The ranges of a survey's numbers: document 01, "The four jobs" and "Text"; and the most ground that there can be: document 02, L12.

pub const LEAST_STATIONS: usize = 3;

pub const MOST_STATIONS: usize = 1024;

// A mesh of n stations has at most 2 * n - 5 triangles.
pub const MOST_TRIANGLES: usize = 2 * MOST_STATIONS - 5;

pub const MOST_COORDINATE: u32 = 8191;

pub const MOST_HEIGHT: i32 = 32767;

// Twice the area of a square of side `MOST_COORDINATE`, in squares of a 128th: no hull has more.
pub const MOST_GROUND: u64 = 16384 * (2 * (MOST_COORDINATE * MOST_COORDINATE)) as u64;

pub const MOST_LEVELS: usize = 64;

pub const MOST_TAG: usize = 8;

pub const MOST_TEXT: usize = 65535;
