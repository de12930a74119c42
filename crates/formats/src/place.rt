// Where in its form a text is.
ghost use Rattle.std.specs.Prelude.{◌≡◌};
ghost use Rattle.formats.specs.Lines.{number, height};
ghost use Rattle.formats.specs.Surveys.{above};
ghost use Rattle.formats.specs.Place.{placed, shape_of, to_stations, to_levels, next_of, is_end, is_tag};

use shapes::line::{Kind, Shape};
use survey::limits::{LEAST_STATIONS, MOST_COORDINATE, MOST_LEVELS, MOST_STATIONS};

// The line that is expected.
#[derive(Clone, Copy)]
pub enum Line {
    End,
    Survey,
    Style,
    Points,
    Tag,
    X,
    Y,
    Z,
    Levels,
    Level,
}

// The line, how many stations or levels are left behind this one, and the least level.
#[derive(Clone, Copy)]
pub struct Place {
    pub line: Line,
    pub left: u64,
    pub least: u64,
}

fn number_line(key: u64, least: u64, most: u64) -> Shape
    ensures { result ≡ number key least most }
{
    Shape {
        key,
        kind: Kind::Natural(least, most),
    }
}

fn height_line(key: u64, least: u64) -> Shape
    ensures { result ≡ height key least }
{
    Shape {
        key,
        kind: Kind::Whole(least, 65535),
    }
}

// The shape of a line; that of the end is never asked for.
pub fn shape_at(line: Line, least: u64) -> Shape
    ensures { result ≡ shape_of line least }
{
    match line {
        Line::End | Line::Tag => Shape {
            key: 0x746167,
            kind: Kind::Tag,
        },
        Line::Survey => number_line(0x737572766579, 1, 1),
        Line::Style => Shape {
            key: 0x7374796c65,
            kind: Kind::Choice(0x7374726169676874, 0x736d6f6f7468),
        },
        Line::Points => number_line(0x706f696e7473, LEAST_STATIONS as u64, MOST_STATIONS as u64),
        Line::X => number_line(0x78, 0, MOST_COORDINATE as u64),
        Line::Y => number_line(0x79, 0, MOST_COORDINATE as u64),
        Line::Z => height_line(0x7a, 1),
        Line::Levels => number_line(0x6c6576656c73, 1, MOST_LEVELS as u64),
        Line::Level => height_line(0x6c6576656c, least),
    }
}

fn least_above(v: u64) -> u64
    ensures { result ≡ above v }
{
    if v < 65536 { v + 1 } else { 65536 }
}

fn placed_at(line: Line, left: u64, least: u64) -> Place
    ensures { result ≡ placed line left least }
{
    Place { line, left, least }
}

// Before the next of n stations, or behind the last.
fn to_stations(n: u64, least: u64) -> Place
    ensures { result ≡ to_stations n least }
{
    if n < 1 {
        placed_at(Line::Levels, 0, least)
    } else {
        placed_at(Line::Tag, n - 1, least)
    }
}

// Before the next of n levels, or behind the last.
fn to_levels(n: u64, least: u64) -> Place
    ensures { result ≡ to_levels n least }
{
    if n < 1 {
        placed_at(Line::End, 0, least)
    } else {
        placed_at(Line::Level, n - 1, least)
    }
}

// The place behind a line whose value is v.
pub fn next(line: Line, left: u64, least: u64, v: u64) -> Place
    ensures { result ≡ next_of line left least v }
{
    match line {
        Line::End => placed_at(Line::End, left, least),
        Line::Survey => placed_at(Line::Style, left, least),
        Line::Style => placed_at(Line::Points, left, least),
        Line::Points => to_stations(v, least),
        Line::Tag => placed_at(Line::X, left, least),
        Line::X => placed_at(Line::Y, left, least),
        Line::Y => placed_at(Line::Z, left, least),
        Line::Z => to_stations(left, least),
        Line::Levels => to_levels(v, 1),
        Line::Level => to_levels(left, least_above(v)),
    }
}

pub fn is_end(line: Line) -> bool
    ensures { result ≡ is_end line }
{
    matches!(line, Line::End)
}

pub fn is_tag(line: Line) -> bool
    ensures { result ≡ is_tag line }
{
    matches!(line, Line::Tag)
}
