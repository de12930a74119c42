// Contour text put into a lent room: document 01, "Text". Over an empty room it is counted. The answers are the places behind what is put.
#![tactic(auto)]

ghost use Rattle.std.specs.Prelude.{◌≡◌, ◌++◌, ◌+◌, ◌/◌, ◌≤◌, length};
ghost use Rattle.shapes.specs.Bytes.{line_bytes};
ghost use Rattle.pouring.specs.Poured.{poured};
ghost use Rattle.plotting.specs.Records.{vertices_in};
ghost use Rattle.plotting.specs.Bytes.{vertices_bytes, drawn_bytes, lines_bytes, block_bytes};

use crate::shape::{KIND_LINE, LEVEL_LINE, LINES_LINE, VERTICES_LINE};
use printing::{put_line, put_number};
use shapes::line::Shape;

pub mod shape;

// Two lines, one behind the other.
pub fn put_two(out: &mut [u8], at: usize, first: Shape, v: u64, second: Shape, w: u64) -> usize
    requires { at ≤ 4294967296 }
    ensures value { (result ≡ at + length (line_bytes first v ++ line_bytes second w))
        × (out.new ≡ poured out.old at (line_bytes first v ++ line_bytes second w)) }
    ensures upper_bound { result ≤ at + 60 }
{
    let next = put_line(out, at, first, v);
    put_line(out, next, second, w)
}

// The vertices of one line, each x and then y.
fn put_vertices(out: &mut [u8], at: usize, x: &[u32], y: &[u32]) -> usize
    requires { (at ≤ 4294967296) × (length x.now ≤ 65535) × (length y.now ≡ length x.now) }
    ensures { (result ≡ at + length (vertices_bytes x.now y.now 0 (length x.now)))
        × (out.new ≡ poured out.old at (vertices_bytes x.now y.now 0 (length x.now))) }
{
    let mut next = at;
    for (&x, &y) in x.iter().zip(y) {
        let second = put_number(out, next, b'x', u64::from(x));
        next = put_number(out, second, b'y', u64::from(y));
    }
    next
}

// The line of record r, whose vertices are all of x and y.
fn put_drawn(out: &mut [u8], at: usize, r: u16, x: &[u32], y: &[u32]) -> usize
    requires { (at ≤ 8388608) × (length x.now ≡ r / 2) × (length y.now ≡ r / 2) }
    ensures { (result ≡ at + length (drawn_bytes x.now y.now 0 r))
        × (out.new ≡ poured out.old at (drawn_bytes x.now y.now 0 r)) }
{
    let first = put_two(
        out,
        at,
        KIND_LINE,
        u64::from(r % 2),
        VERTICES_LINE,
        u64::from(r / 2),
    );
    put_vertices(out, first, x, y)
}

// All lines.
fn put_lines(out: &mut [u8], at: usize, records: &[u16], x: &[u32], y: &[u32]) -> usize
    requires { (at ≤ 60) × (length records.now ≤ 65536) × (length x.now ≤ 65536) × (vertices_in records.now ≤ length x.now)
        × (vertices_in records.now ≤ length y.now) }
    ensures { (result ≡ at + length (lines_bytes records.now x.now y.now (length records.now)))
        × (out.new ≡ poured out.old at (lines_bytes records.now x.now y.now (length records.now))) }
{
    let mut next = at;
    let mut from = 0;
    for &r in records {
        let end = from + usize::from(r / 2);
        next = put_drawn(out, next, r, &x[from..end], &y[from..end]);
        from = end;
    }
    next
}

// The block of a level, which is told 32,768 above itself.
pub fn put_block(out: &mut [u8], level: u64, records: &[u16], x: &[u32], y: &[u32]) -> usize
    requires { (length records.now ≤ 65536) × (length x.now ≤ 65536) × (vertices_in records.now ≤ length x.now)
        × (vertices_in records.now ≤ length y.now) }
    ensures { (result ≡ length (block_bytes level records.now x.now y.now))
        × (out.new ≡ poured out.old 0 (block_bytes level records.now x.now y.now)) }
{
    let first = put_two(out, 0, LEVEL_LINE, level, LINES_LINE, records.len() as u64);
    put_lines(out, first, records, x, y)
}
