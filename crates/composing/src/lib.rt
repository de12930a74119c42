// Survey text put into a lent room: document 01, "Text". Over an empty room it is counted.
// The style is a number here, as in `filed`.
#![tactic(auto)]

ghost use Rattle.std.specs.Prelude.{◌≡◌, ℕ, ◌+◌, ◌*◌, ◌≤◌, ◌<◌, pos, length, get_or};
ghost use Rattle.whole.specs.Range.{Within};
ghost use Rattle.survey.specs.Limits.{most_height};
ghost use Rattle.lists.specs.Rows.{rows};
ghost use Rattle.shapes.specs.Bytes.{line_bytes};
ghost use Rattle.formats.specs.Lines.{least_height};
ghost use Rattle.formats.specs.Place.{shape_of};
ghost use Rattle.pouring.specs.Poured.{poured};
ghost use Rattle.rendering.specs.Filed.{filed};
ghost use Rattle.rendering.specs.Rendering.{rendered};
ghost use Rattle.rendering.specs.Form.{InForm};
ghost use Rattle.rendering.specs.Lines.{station_text, level_text};

use formats::place::{Line, shape_at};
use formats::told::told_as;
use printing::put_line;
use tags::tag_number;

// A line, as much of it as has room. Here as below the answer is the place behind what is put, and no text comes near the bounds on `at`.
fn put(text: &mut [u8], at: usize, line: Line, v: u64) -> usize
    requires { at ≤ 4611686018427387904 }
    ensures value { (result ≡ at + length (line_bytes (shape_of line least_height) v))
        × (text.new ≡ poured text.old at (line_bytes (shape_of line least_height) v)) }
    ensures upper_bound { result ≤ at + 32 }
{
    put_line(text, at, shape_at(line, 1), v)
}

// The lines of station i.
fn put_station(
    text: &mut [u8],
    at: usize,
    tags: &[u8],
    x: &[u32],
    y: &[u32],
    z: &[i32],
    i: usize,
) -> usize
    requires { (at ≤ 1073741824) × (i < length x.now) × (i < length y.now) × (i < length z.now) × (8 * i + 8 ≤ length tags.now)
        × Within most_height (get_or z.now i (pos 0)) }
    ensures value { (result ≡ at + length (station_text tags.now x.now y.now z.now i))
        × (text.new ≡ poured text.old at (station_text tags.now x.now y.now z.now i)) }
    ensures upper_bound { result ≤ at + 128 }
{
    let x_line = put(text, at, Line::Tag, tag_number(tags, i));
    let y_line = put(text, x_line, Line::X, u64::from(x[i]));
    let z_line = put(text, y_line, Line::Y, u64::from(y[i]));
    put(text, z_line, Line::Z, told_as(z[i]))
}

// The lines of all stations.
fn put_stations(text: &mut [u8], at: usize, tags: &[u8], x: &[u32], y: &[u32], z: &[i32]) -> usize
    requires at_bound { (at ≤ 65536) × (length x.now ≤ 65536) × (length y.now ≡ length x.now) × (length z.now ≡ length x.now)
        × (8 * length x.now ≤ length tags.now) }
    requires by_index { (i : ℕ) → i < length x.now → Within most_height (get_or z.now i (pos 0)) }
    ensures value { (result ≡ at + length (rows (station_text tags.now x.now y.now z.now) (length x.now)))
        × (text.new ≡ poured text.old at
        (rows (station_text tags.now x.now y.now z.now) (length x.now))) }
    ensures upper_bound { result ≤ 1073741824 }
{
    let mut next = at;
    for i in 0..x.len() {
        next = put_station(text, next, tags, x, y, z, i);
    }
    next
}

// The level lines.
fn put_levels(text: &mut [u8], at: usize, levels: &[i32]) -> usize
    requires { (at ≤ 2147483648) × (length levels.now ≤ 65536)
        × ((k : ℕ) → k < length levels.now → Within most_height (get_or levels.now k (pos 0))) }
    ensures { (result ≡ at + length (rows (level_text levels.now) (length levels.now)))
        × (text.new ≡ poured text.old at (rows (level_text levels.now) (length levels.now))) }
{
    let mut next = at;
    for &level in levels {
        next = put(text, next, Line::Level, told_as(level));
    }
    next
}

// The whole text, as much of it as has room: over an empty room its bytes are counted.
pub fn put_text(
    style: u32,
    tags: &[u8],
    x: &[u32],
    y: &[u32],
    z: &[i32],
    levels: &[i32],
    text: &mut [u8],
) -> usize
    requires { InForm (filed style tags.now x.now y.now z.now levels.now) }
    ensures { (result ≡ length (rendered (filed style tags.now x.now y.now z.now levels.now)))
        × (text.new ≡ poured text.old 0
        (rendered (filed style tags.now x.now y.now z.now levels.now))) }
{
    let style_line = put(text, 0, Line::Survey, 1);
    let points = put(text, style_line, Line::Style, u64::from(style));
    let station = put(text, points, Line::Points, x.len() as u64);
    let m = put_stations(text, station, tags, x, y, z);
    let level = put(text, m, Line::Levels, levels.len() as u64);
    put_levels(text, level, levels)
}
