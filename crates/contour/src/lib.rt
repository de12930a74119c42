// The writer of contour text: document 01, "Text". Every test is made before anything is written, so a refusal changes nothing.
// The style is a number, as C hands it over; one that there is not is refusal 5.
#![tactic(auto)]

ghost use Rattle.std.specs.Prelude.{false, List, ℕ, ◌≡◌, ◌++◌, ◌≤◌, length};
ghost use Rattle.shapes.specs.Bytes.{line_bytes};
ghost use Rattle.survey.specs.Limits.{too_far};
ghost use Rattle.plotting.specs.Records.{vertices_in};
ghost use Rattle.formats.specs.Lines.{style_line};
ghost use Rattle.contour.specs.Contour.{heading_of, block_text, block_of, refusal_of};
ghost use Rattle.contour.specs.Writer.{Fitted, Puts, styled, Listed, some_short, is_listed, some_far, is_outside, heading_answer, block_answer, refusal_answer, room_after};

use crate::shape::{AT_LINE, CONTOURS_LINE, REFUSED_LINE, STYLE_LINE};
use formats::told::told_as;
use plotting::shape::{MOST_RECORDS, MOST_VERTICES};
use plotting::{put_block, put_two};
use shapes::line::Shape;
use survey::limits::{MOST_COORDINATE, MOST_HEIGHT};
use survey::refusal::Refusal;

pub mod shape;

// The largest coordinate of a spot, in 128ths.
const MOST_SPOT: u32 = 128 * MOST_COORDINATE;

// Writes what `put` puts at the front of a room. Over no room it is counted.
pub fn write_fitted<F: Fn(&mut [u8]) -> usize>(room: &mut [u8], put: F) -> Result<usize, Refusal>
    requires { F.IsAlwaysCallable put }
    ensures { (text : List ℕ) → Puts F.FnOnce put text → Fitted text room.old result room.new }
{
    let bytes = put(&mut []);
    if room.len() < bytes {
        return Err(Refusal::Room);
    }
    put(room);
    Ok(bytes)
}

// Writes two lines, one behind the other.
pub fn write_two(
    first: Shape,
    v: u64,
    second: Shape,
    w: u64,
    room: &mut [u8],
) -> Result<usize, Refusal>
    ensures { Fitted (line_bytes first v ++ line_bytes second w) room.old result room.new }
{
    write_fitted(room, |out| put_two(out, 0, first, v, second, w))
}

// Writes a heading: a line with the edition of the text, and the style.
pub fn write_heading(
    first: Shape,
    edition: u64,
    style: u32,
    room: &mut [u8],
) -> Result<usize, Refusal>
    ensures value { result ≡ styled (line_bytes first edition ++ line_bytes style_line style) style (length room.old) }
    ensures room_after { room.new ≡ room_after (line_bytes first edition ++ line_bytes style_line style) result room.old }
{
    if 1 < style {
        return Err(Refusal::Number);
    }
    write_two(first, edition, STYLE_LINE, u64::from(style), room)
}

// Writes the heading.
pub fn heading(style: u32, room: &mut [u8]) -> Result<usize, Refusal>
    ensures value { result ≡ heading_answer style (length room.old) }
    ensures room_after { room.new ≡ room_after (heading_of style) result room.old }
{
    write_heading(CONTOURS_LINE, 1, style, room)
}

// How many vertices the records count.
fn vertices_in(records: &[u16]) -> usize
    requires { length records.now ≤ 65536 }
    ensures { result ≡ vertices_in records.now }
{
    records.iter().map(|&r| usize::from(r / 2)).sum()
}

// Whether a line has fewer than two vertices, or a closed one fewer than three. It looks at all of them, several at once.
fn has_short(records: &[u16]) -> bool
    ensures { result ≡ some_short records.now }
{
    let mut short = false;
    for &r in records {
        short |= r / 2 < 2 + r % 2;
    }
    short
}

// Whether the lists are of one length, that which the records count, and of no more than the largest survey's lines, none of them short.
fn is_listed(records: &[u16], x: &[u32], y: &[u32]) -> bool
    ensures { result ≡ is_listed records.now x.now y.now }
{
    records.len() <= MOST_RECORDS
        && x.len() <= MOST_VERTICES
        && y.len() == x.len()
        && vertices_in(records) == x.len()
        && !has_short(records)
}

// Whether a level is out of the range of z.
pub fn is_too_far(level: i32) -> bool
    ensures { result ≡ too_far level }
{
    level < -MOST_HEIGHT || MOST_HEIGHT < level
}

// Whether a coordinate is beyond those of all spots. It looks at all of them, several at once.
fn has_far(list: &[u32]) -> bool
    ensures { result ≡ some_far list.now }
{
    let mut far = false;
    for &v in list {
        far |= MOST_SPOT < v;
    }
    far
}

fn is_outside(level: i32, x: &[u32], y: &[u32]) -> bool
    ensures { result ≡ is_outside level x.now y.now }
{
    is_too_far(level) || has_far(x) || has_far(y)
}

// Writes the block of a level, which is told 32,768 above itself, and of lines that pass the tests. No line takes more than 30 bytes, and none
// of a vertex more than 10; only over a room that is shorter than so many is the block counted.
fn write_block(
    level: u64,
    records: &[u16],
    x: &[u32],
    y: &[u32],
    room: &mut [u8],
) -> Result<usize, Refusal>
    requires { Listed records.now x.now y.now × (some_far x.now ≡ false) × (some_far y.now ≡ false) }
    ensures { Fitted (block_text level records.now x.now y.now) room.old result room.new }
{
    if 60 + 60 * records.len() + 20 * x.len() <= room.len() {
        let bytes = put_block(room, level, records, x, y);
        return Ok(bytes);
    }
    write_fitted(room, |out| put_block(out, level, records, x, y))
}

// Writes the block of a level: its line, and its lines with their vertices.
pub fn block(
    level: i32,
    records: &[u16],
    x: &[u32],
    y: &[u32],
    room: &mut [u8],
) -> Result<usize, Refusal>
    ensures value { result ≡ block_answer level records.now x.now y.now (length room.old) }
    ensures room_after { room.new ≡ room_after (block_of level records.now x.now y.now) result room.old }
{
    if !is_listed(records, x, y) {
        return Err(Refusal::Count);
    }
    if is_outside(level, x, y) {
        return Err(Refusal::Number);
    }
    write_block(told_as(level), records, x, y, room)
}

// Writes why a survey is refused.
pub fn refusal(number: u32, carried: u32, room: &mut [u8]) -> Result<usize, Refusal>
    ensures value { result ≡ refusal_answer number carried (length room.old) }
    ensures room_after { room.new ≡ room_after (refusal_of number carried) result room.old }
{
    write_two(
        REFUSED_LINE,
        u64::from(number),
        AT_LINE,
        u64::from(carried),
        room,
    )
}
