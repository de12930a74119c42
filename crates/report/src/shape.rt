// The lines of the served ground, beside those that it shares with contour text: document 02, L12. A key is the number that its letters make
// in base 256.
use shapes::line::{Kind, Shape};
use survey::limits::MOST_GROUND;

pub const SERVED_LINE: Shape = Shape {
    key: 0x736572766564,
    kind: Kind::Natural(1, 1),
};

pub const GROUND_LINE: Shape = Shape {
    key: 0x736572766564,
    kind: Kind::Natural(0, MOST_GROUND),
};

pub const UNSERVED_LINE: Shape = Shape {
    key: 0x756e736572766564,
    kind: Kind::Natural(0, MOST_GROUND),
};
