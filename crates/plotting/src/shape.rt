// The lines of a block: document 01, "Text". A key, like a word, is the number that its letters make in base 256.
use shapes::line::{Kind, Shape};
use survey::limits::MOST_STATIONS;

// The vertices and the records of the largest survey's lines.
pub const MOST_VERTICES: usize = 3 * MOST_STATIONS - 6;

pub const MOST_RECORDS: usize = MOST_VERTICES / 2;

pub const LEVEL_LINE: Shape = Shape {
    key: 0x6c6576656c,
    kind: Kind::Whole(1, 65535),
};

pub const LINES_LINE: Shape = Shape {
    key: 0x6c696e6573,
    kind: Kind::Natural(0, MOST_RECORDS as u64),
};

pub const KIND_LINE: Shape = Shape {
    key: 0x6b696e64,
    kind: Kind::Choice(0x6f70656e, 0x636c6f736564),
};

// The line of an open one that may have them all: the bytes of a number do not show its range.
pub const VERTICES_LINE: Shape = Shape {
    key: 0x7665727469636573,
    kind: Kind::Natural(2, MOST_VERTICES as u64),
};
