// A reader of texts that is fed in pieces: a struct by value says where in its form the text is. Each step reads to the end of a line, or of
// the piece, and gives the line's value to the caller.
ghost use Rattle.std.specs.Prelude.{◌≡◌, None, false, List, ℕ, ◌≤◌, ◌<◌, ◌+◌, length, take, drop};
ghost use Rattle.shapes.specs.Line.{fault_number, line_said, line_end};
ghost use Rattle.forms.specs.Form.{fed, feed};
ghost use Rattle.formats.specs.Place.{shape_of, used_of, is_end};
ghost use Rattle.feeding.specs.Marks.{mark_count, Marked};
ghost use Rattle.feeding.specs.Reader.{meant, with_part, with_value, one, Housed};

use crate::tags::{is_taken, keep_tag};
use formats::place::{Place, is_end, next, shape_at};
use shapes::line::{Fault, Part, line_said, run, word_of};

// Where the text is, what its line comes to so far, how many lines and how many tags are read, and, of a text that is not right, the number
// of its refusal. It is a number, since a reader that has failed is handed back as it is, whatever it failed with.
#[derive(Clone, Copy)]
pub struct Reader {
    pub place: Place,
    pub part: Part,
    pub lines: usize,
    pub tags: usize,
    pub fault: Option<u32>,
}

// The reader behind a step, the place in the piece, and the value of a line that ended there and is right.
#[derive(Clone, Copy)]
pub struct Stepped {
    pub reader: Reader,
    pub at: usize,
    pub value: Option<u64>,
}

// The number of a refusal: document 01, "Refusal numbers".
fn number(fault: Fault) -> u32
    ensures { result ≡ fault_number fault }
{
    match fault {
        Fault::Form => 7,
        Fault::TagUsed => 8,
    }
}

// What the line at a place says, whose bytes are all read.
fn line_told(place: Place, part: Part, seen: &[u64], marks: &[u8], n: usize) -> Result<u64, Fault>
    requires { (n ≤ length seen.now) × (length marks.now ≡ mark_count) × Marked (take n seen.now) marks.now }
    ensures { result ≡ line_said (shape_of place.line place.least) (used_of place.line (take n seen.now)) part }
{
    let shape = shape_at(place.line, place.least);
    let used = is_taken(place.line, seen, marks, n, word_of(part));
    line_said(shape.kind, used, part)
}

// A line has ended, which came to a part; `at` is the place behind it.
fn end_line(r: Reader, part: Part, at: usize, seen: &mut [u64], marks: &mut [u8]) -> Stepped
    requires { Housed r seen.old marks.old × (r.fault ≡ None) × (is_end r.place.line ≡ false) }
    ensures by_index { (vs : List ℕ) → meant result.reader (with_value result.value vs) seen.new
        ≡ fed (meant (with_part r part) vs seen.old) line_end }
    ensures at_value { (result.at ≡ at) × (result.reader.lines ≡ r.lines + one result.value) }
    ensures housed { Housed result.reader seen.new marks.new }
{
    let place = r.place;
    match line_told(place, part, seen, marks, r.tags) {
        Err(fault) => Stepped {
            reader: Reader {
                part,
                fault: Some(number(fault)),
                ..r
            },
            at,
            value: None,
        },
        Ok(value) => {
            let tags = keep_tag(place.line, seen, marks, r.tags, value);
            Stepped {
                reader: Reader {
                    place: next(place.line, place.left, place.least, value),
                    part: Part::Key(0),
                    lines: r.lines + 1,
                    tags,
                    fault: None,
                },
                at,
                value: Some(value),
            }
        }
    }
}

// The bytes of a piece from a place on, to the end of a line or of the piece.
pub fn step(r: Reader, piece: &[u8], from: usize, seen: &mut [u64], marks: &mut [u8]) -> Stepped
    requires { Housed r seen.old marks.old × (from < length piece.now) }
    ensures by_index { (vs : List ℕ) → feed (meant result.reader (with_value result.value vs) seen.new) (drop result.at piece.now)
        ≡ feed (meant r vs seen.old) (drop from piece.now) }
    ensures from_lt_at { (from < result.at) × (result.at ≤ length piece.now) }
    ensures lines_value { result.reader.lines ≡ r.lines + one result.value }
    ensures housed { Housed result.reader seen.new marks.new }
{
    if r.fault.is_some() {
        return Stepped {
            reader: r,
            at: piece.len(),
            value: None,
        };
    }
    let place = r.place;
    if is_end(place.line) {
        return Stepped {
            reader: Reader {
                fault: Some(number(Fault::Form)),
                ..r
            },
            at: piece.len(),
            value: None,
        };
    }
    let reached = run(shape_at(place.line, place.least), r.part, piece, from);
    if piece.len() <= reached.at {
        return Stepped {
            reader: Reader {
                part: reached.part,
                ..r
            },
            at: piece.len(),
            value: None,
        };
    }
    end_line(r, reached.part, reached.at + 1, seen, marks)
}
