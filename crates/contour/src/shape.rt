// The lines of a heading and of a refusal: document 01, "Text". A key, like a word, is the number that its letters make in base 256.
use shapes::line::{Kind, Shape};

pub const CONTOURS_LINE: Shape = Shape {
    key: 0x636f6e746f757273,
    kind: Kind::Natural(1, 1),
};

pub const STYLE_LINE: Shape = Shape {
    key: 0x7374796c65,
    kind: Kind::Choice(0x7374726169676874, 0x736d6f6f7468),
};

pub const REFUSED_LINE: Shape = Shape {
    key: 0x72656675736564,
    kind: Kind::Natural(0, 4294967295),
};

pub const AT_LINE: Shape = Shape {
    key: 0x6174,
    kind: Kind::Natural(0, 4294967295),
};
