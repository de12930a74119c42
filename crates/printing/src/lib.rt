// A line, key=value and LF, put into a room: document 01, "Text". Every answer is the place behind it.
#![tactic(auto)]

ghost use Rattle.std.specs.Prelude.{◌≡◌, [], ◌∷◌, ◌++◌, ◌+◌, ◌≤◌, length};
ghost use Rattle.shapes.specs.Line.{line_end, equals};
ghost use Rattle.shapes.specs.Bytes.{digits, whole_bytes, word_bytes, chosen_of, value_bytes, line_bytes};
ghost use Rattle.pouring.specs.Poured.{poured};

use pouring::digits::{digit_count, put_digits, put_word};
use shapes::line::{Kind, Shape};

// A whole number, told 32,768 above itself.
fn put_whole(out: &mut [u8], at: usize, v: u64) -> usize
    requires { at + 20 ≤ length out.old }
    ensures { (result ≡ at + length (whole_bytes v)) × (out.new ≡ poured out.old at (whole_bytes v)) }
{
    if v < 32768 {
        out[at] = b'-';
        return put_digits(out, at + 1, 32768 - v);
    }
    put_digits(out, at, v - 32768)
}

fn chosen(a: u64, b: u64, v: u64) -> u64
    ensures { result ≡ chosen_of a b v }
{
    if v == 0 { a } else { b }
}

// The value of a line.
fn put_value(out: &mut [u8], at: usize, kind: Kind, v: u64) -> usize
    requires { at + 20 ≤ length out.old }
    ensures { (result ≡ at + length (value_bytes kind v)) × (out.new ≡ poured out.old at (value_bytes kind v)) }
{
    match kind {
        Kind::Natural(_, _) => put_digits(out, at, v),
        Kind::Whole(_, _) => put_whole(out, at, v),
        Kind::Tag => put_word(out, at, v),
        Kind::Choice(a, b) => put_word(out, at, chosen(a, b, v)),
    }
}

// A line, where the room suffices for any.
fn write_line(out: &mut [u8], at: usize, shape: Shape, v: u64) -> usize
    requires { at + 30 ≤ length out.old }
    ensures { (result ≡ at + length (line_bytes shape v)) × (out.new ≡ poured out.old at (line_bytes shape v)) }
{
    let equals = put_word(out, at, shape.key);
    out[equals] = b'=';
    let kind = shape.kind;
    let end = put_value(out, equals + 1, kind, v);
    out[end] = b'\n';
    end + 1
}

// Bytes, as many as have room.
fn put_bytes(out: &mut [u8], at: usize, bytes: &[u8])
    requires { (at ≤ 4611686018427387904) × (length bytes.now ≤ 32) }
    ensures { out.new ≡ poured out.old at bytes.now }
{
    for (j, &byte) in bytes.iter().enumerate() {
        if out.len() <= at + j {
            return;
        }
        out[at + j] = byte;
    }
}

// A line, as much of it as has room. Where it may not have, it is written apart and then put byte by byte.
pub fn put_line(out: &mut [u8], at: usize, shape: Shape, v: u64) -> usize
    requires { at ≤ 4611686018427387904 }
    ensures { (result ≡ at + length (line_bytes shape v)) × (out.new ≡ poured out.old at (line_bytes shape v)) }
{
    if at + 32 <= out.len() {
        return write_line(out, at, shape, v);
    }
    let mut line = [0; 32];
    let n = write_line(&mut line, 0, shape, v);
    put_bytes(out, at, &line[..n]);
    at + n
}

// The line of a number whose key has one letter, as much of it as has room. Where none has, it is only counted.
pub fn put_number(out: &mut [u8], at: usize, key: u8, v: u64) -> usize
    requires { at ≤ 4611686018427387904 }
    ensures { (result ≡ at + length (word_bytes key ++ (equals ∷ (digits v ++ (line_end ∷ [])))))
        × (out.new ≡ poured out.old at (word_bytes key ++ (equals ∷ (digits v ++ (line_end ∷ []))))) }
{
    if at + 32 <= out.len() {
        let second = at + 1;
        out[at] = key;
        out[second] = b'=';
        let end = put_digits(out, second + 1, v);
        out[end] = b'\n';
        return end + 1;
    }
    if out.len() <= at {
        return at + 3 + digit_count(v, 10, 19);
    }
    let kind = Kind::Natural(0, v);
    let shape = Shape {
        key: u64::from(key),
        kind,
    };
    put_line(out, at, shape, v)
}
