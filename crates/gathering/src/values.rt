// The values of a text, one for each line. Its first line says which text is expected.
ghost use Rattle.std.specs.Prelude.{◌≡◌, ◌⊎◌, [], ◌≤◌, ◌<◌, length, take};
ghost use Rattle.std.specs.Option.{ForSome};
ghost use Rattle.shapes.specs.Line.{fault_number};
ghost use Rattle.forms.specs.Form.{ended, read_by};
ghost use Rattle.survey.specs.Limits.{most_stations};
ghost use Rattle.formats.specs.Place.{form_of};
ghost use Rattle.feeding.specs.Marks.{mark_count};
ghost use Rattle.feeding.specs.Reader.{most_lines, meant, started, Housed};
ghost use Rattle.gathering.specs.Values.{collected, kept, LeadsOn};

use crate::held::read_lines;
use feeding::reader::{Reader, Stepped, step};
use feeding::tags::MARKS;
use formats::place::{Line, Place, is_end};
use shapes::line::{Fault, Part};
use survey::limits::{MOST_LEVELS, MOST_STATIONS};

// As many lines has no text more.
pub const MOST_LINES: usize = 4 * MOST_STATIONS + MOST_LEVELS + 4;

// Why a text is not right, and its first line not as expected.
#[derive(Clone, Copy, PartialEq, Eq)]
pub struct Wrong {
    pub fault: Fault,
    pub line: u32,
}

// A reader before the first line.
fn start(first: Line) -> Reader
    ensures { result ≡ started first }
{
    Reader {
        place: Place {
            line: first,
            left: 0,
            least: 0,
        },
        part: Part::Key(0),
        lines: 0,
        tags: 0,
        fault: None,
    }
}

// The refusal of a number.
fn fault_of(number: u32) -> Fault
    requires { (number ≡ 7) ⊎ (number ≡ 8) }
    ensures { fault_number result ≡ number }
{
    match number {
        7 => Fault::Form,
        _ => Fault::TagUsed,
    }
}

// The text ends: how many values were read, or why it is not right.
fn finish(r: Reader, values: &[u64], seen: &[u64]) -> Result<usize, Wrong>
    requires { (r.lines ≤ most_lines) × ForSome r.fault (λ n. (n ≡ 7) ⊎ (n ≡ 8)) }
    ensures values_value { collected result values.now ≡ ended (meant r (take r.lines values.now) seen.now) }
    ensures result_bound { kept result ≤ most_lines }
{
    let line = (r.lines + 1) as u32;
    if let Some(number) = r.fault {
        let fault = fault_of(number);
        return Err(Wrong { fault, line });
    }
    if is_end(r.place.line) {
        Ok(r.lines)
    } else {
        Err(Wrong {
            fault: Fault::Form,
            line,
        })
    }
}

// The line at a place of a text. Its value, if it ends, is kept behind those of the lines before it.
pub fn line_at<'t, 'm>(
    text: &'t [u8],
    at: usize,
    r: Reader,
    values: &'m mut [u64],
    seen: &'m mut [u64],
    marks: &'m mut [u8],
) -> Stepped
    requires { (at < length text.now) × Housed r seen.old marks.old × (most_lines ≤ length values.old) }
    ensures { LeadsOn text.now at r values.old seen.old result
        values.new seen.new marks.new }
{
    let s = step(r, text, at, seen, marks);
    if let Some(value) = s.value {
        values[r.lines] = value;
    }
    s
}

// Reads a text line by line. `seen` keeps the tags, `marks` their marks.
fn collect(
    text: &[u8],
    first: Line,
    values: &mut [u64],
    seen: &mut [u64],
    marks: &mut [u8],
) -> Result<usize, Wrong>
    requires { (most_lines ≤ length values.old) × (most_stations ≤ length seen.old) × (length marks.old ≡ mark_count) }
    ensures values_after { collected result values.new ≡ read_by (form_of first 0 0 []) text.now }
    ensures result_bound { kept result ≤ most_lines }
{
    let r = read_lines(text, start(first), values, seen, marks);
    finish(r, values, seen)
}

// The values of a text, in the first entries of a list, or its first fault.
pub fn values_of(text: &[u8], first: Line, values: &mut [u64]) -> Result<usize, Wrong>
    requires { most_lines ≤ length values.old }
    ensures values_after { collected result values.new ≡ read_by (form_of first 0 0 []) text.now }
    ensures result_bound { kept result ≤ most_lines }
{
    let mut seen = [0u64; MOST_STATIONS];
    let mut marks = [0u8; MARKS];
    collect(text, first, values, &mut seen, &mut marks)
}
