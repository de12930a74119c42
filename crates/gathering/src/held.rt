// The line reader: a text that is held by reference, and a cursor, which moves from line to line. It is thin: the line at the cursor is read by
// `line_at`, on slice and number. Callers give a plain slice.
ghost use Rattle.std.specs.Prelude.{◌≡◌, ◌≤◌, length, take};
ghost use Rattle.feeding.specs.Reader.{most_lines, meant, Housed};
ghost use Rattle.gathering.specs.Values.{comes_to};

use crate::values::line_at;
use feeding::reader::Reader;

#[derive(Clone, Copy)]
pub struct Lines<'a> {
    pub text: &'a [u8],
    pub at: usize,
}

// Reads the lines of a text, from its first to its last.
pub fn read_lines(
    text: &[u8],
    start: Reader,
    values: &mut [u64],
    seen: &mut [u64],
    marks: &mut [u8],
) -> Reader
    requires { Housed start seen.old marks.old × (most_lines ≤ length values.old) }
    ensures { (meant result (take result.lines values.new) seen.new
        ≡ comes_to text.now 0 start values.old seen.old) × (result.lines ≤ most_lines) }
{
    let mut lines = Lines { text, at: 0 };
    let mut r = start;
    // The cursor moves from line to line, so there is no range of places to go over.
    while lines.at < lines.text.len() {
        let s = line_at(lines.text, lines.at, r, values, seen, marks);
        r = s.reader;
        lines.at = s.at;
    }
    r
}
