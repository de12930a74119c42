// A line, key=value, that is read byte by byte: document 01, "Text".
ghost use Rattle.std.specs.Prelude.{◌≡◌, ◌+◌, ◌-◌, ◌*◌, cond, Some, None, length, drop};
ghost use Rattle.shapes.specs.Line.{is_word_byte, grows, goes_on, begun, key_on, begun_on, hyphen_on, word_on, read, zero_at, ranged, said_natural, said_minus, said_whole, word_of, said_tag, said_choice, said, line_in};
ghost use Rattle.shapes.specs.Bytes.{part_of};

// What a value is: a number from 0 up or a whole number in a range, a tag, or one of two words.
#[derive(Clone, Copy)]
pub enum Kind {
    Natural(u64, u64),
    Whole(u64, u64),
    Tag,
    Choice(u64, u64),
}

// The line that is expected: its key, as one number in base 256, and what its value is.
#[derive(Clone, Copy)]
pub struct Shape {
    pub key: u64,
    pub kind: Kind,
}

// The bytes of a line so far: in its key; behind the =; behind a hyphen; in a number from 0 up, or below 0; in a word; or no more as
// expected.
#[derive(Clone, Copy)]
pub enum Part {
    Key(u64),
    Begun,
    Hyphen,
    Plain(u64),
    Minus(u64),
    Word(u64),
    Wrong,
}

// The refusal of a line: it is not of the stated form, or its tag is used before.
#[derive(Clone, Copy, PartialEq, Eq)]
pub enum Fault {
    Form,
    TagUsed,
}

// An ASCII letter, digit or hyphen.
pub fn is_word_byte(b: u8) -> bool
    ensures { result ≡ is_word_byte b }
{
    b.is_ascii_alphanumeric() || b == b'-'
}

// Whether b goes on with a word, of at most eight bytes.
fn word_grows(word: u64, b: u8) -> bool
    ensures { result ≡ grows word b }
{
    is_word_byte(b) && word < 72057594037927936
}

// Whether b goes on with the digits of v.
fn number_goes_on(v: u64, b: u8) -> bool
    ensures { result ≡ goes_on v b }
{
    b.is_ascii_digit() && 1 <= v && v < 1000000000000000000
}

// The value of a line, behind its =.
fn begun_as(kind: Kind) -> Part
    ensures { result ≡ begun kind }
{
    match kind {
        Kind::Natural(_, _) | Kind::Whole(_, _) => Part::Begun,
        Kind::Tag | Kind::Choice(_, _) => Part::Word(0),
    }
}

fn key_on(shape: Shape, key: u64, b: u8) -> Part
    ensures { result ≡ key_on shape key b }
{
    if b == b'=' {
        if key == shape.key {
            begun_as(shape.kind)
        } else {
            Part::Wrong
        }
    } else if word_grows(key, b) {
        Part::Key(256 * key + b as u64)
    } else {
        Part::Wrong
    }
}

fn begun_on(b: u8) -> Part
    ensures { result ≡ begun_on b }
{
    match b {
        b'0'..=b'9' => Part::Plain((b - b'0') as u64),
        b'-' => Part::Hyphen,
        _ => Part::Wrong,
    }
}

fn hyphen_on(b: u8) -> Part
    ensures { result ≡ hyphen_on b }
{
    match b {
        b'1'..=b'9' => Part::Minus((b - b'0') as u64),
        _ => Part::Wrong,
    }
}

// The number of the digits of v and b, where b goes on with them.
fn number_on(v: u64, b: u8) -> Option<u64>
    ensures { result ≡ cond (goes_on v b) (Some (10 * v + (b - 48))) None }
{
    if number_goes_on(v, b) {
        Some(10 * v + (b - b'0') as u64)
    } else {
        None
    }
}

fn word_on(word: u64, b: u8) -> Part
    ensures { result ≡ word_on word b }
{
    if word_grows(word, b) {
        Part::Word(256 * word + b as u64)
    } else {
        Part::Wrong
    }
}

// One byte more of a line.
#[tactic(auto, unfolding(crate::specs::Line::read))]
pub fn line_on(shape: Shape, part: Part, b: u8) -> Part
    ensures { result ≡ read shape part b }
{
    match part {
        Part::Key(key) => key_on(shape, key, b),
        Part::Begun => begun_on(b),
        Part::Hyphen => hyphen_on(b),
        Part::Plain(v) => number_on(v, b).map_or(Part::Wrong, |more| Part::Plain(more)),
        Part::Minus(v) => number_on(v, b).map_or(Part::Wrong, |more| Part::Minus(more)),
        Part::Word(word) => word_on(word, b),
        Part::Wrong => Part::Wrong,
    }
}

fn ranged_as(least: u64, most: u64, v: u64) -> Result<u64, Fault>
    ensures { result ≡ ranged least most v }
{
    if least <= v && v <= most {
        Ok(v)
    } else {
        Err(Fault::Form)
    }
}

fn natural_said(least: u64, most: u64, part: Part) -> Result<u64, Fault>
    ensures { result ≡ said_natural least most part }
{
    match part {
        Part::Plain(v) => ranged_as(least, most, v),
        _ => Err(Fault::Form),
    }
}

// A whole number is told 32,768 above itself; one that is told beyond 64 bits is beyond every range.
fn whole_said(least: u64, most: u64, part: Part) -> Result<u64, Fault>
    ensures { result ≡ said_whole least most part }
{
    let told = match part {
        Part::Plain(v) => v.checked_add(32768),
        Part::Minus(v) => 32768u64.checked_sub(v),
        _ => None,
    };
    ranged_as(least, most, told.ok_or(Fault::Form)?)
}

// The word of a line; 0 where it has none.
pub fn word_of(part: Part) -> u64
    ensures { result ≡ word_of part }
{
    match part {
        Part::Word(word) => word,
        _ => 0,
    }
}

fn tag_said(used: bool, word: u64) -> Result<u64, Fault>
    ensures { result ≡ said_tag used word }
{
    if word < 1 {
        Err(Fault::Form)
    } else if used {
        Err(Fault::TagUsed)
    } else {
        Ok(word)
    }
}

fn choice_said(a: u64, b: u64, word: u64) -> Result<u64, Fault>
    ensures { result ≡ said_choice a b word }
{
    if word < 1 {
        Err(Fault::Form)
    } else if word == a {
        Ok(0)
    } else if word == b {
        Ok(1)
    } else {
        Err(Fault::Form)
    }
}

// What a line says, whose bytes are all read: its value, or its refusal. `used` says whether its tag is.
#[tactic(auto, unfolding(crate::specs::Line::said))]
pub fn line_said(kind: Kind, used: bool, part: Part) -> Result<u64, Fault>
    ensures { result ≡ said kind used part }
{
    match kind {
        Kind::Natural(least, most) => natural_said(least, most, part),
        Kind::Whole(least, most) => whole_said(least, most, part),
        Kind::Tag => tag_said(used, word_of(part)),
        Kind::Choice(a, b) => choice_said(a, b, word_of(part)),
    }
}

// What a line comes to, and the place behind the bytes that were read.
#[derive(Clone, Copy)]
pub struct Reached {
    pub part: Part,
    pub at: usize,
}

// The bytes of a piece from a place on, up to an LF or to its end.
pub fn run(shape: Shape, start: Part, piece: &[u8], from: usize) -> Reached
    ensures part_value { result.part ≡ part_of shape start (line_in (drop from piece.now)) }
    ensures at_value { result.at ≡ from + length (line_in (drop from piece.now)) }
{
    let mut part = start;
    for at in from..piece.len() {
        if piece[at] == b'\n' {
            return Reached { part, at };
        }
        part = line_on(shape, part, piece[at]);
    }
    Reached {
        part,
        at: from.max(piece.len()),
    }
}
