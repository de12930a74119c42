// The writer of the served ground: document 02, L12. Every test is made before anything is written, so a refusal changes nothing.
// The style is a number, as C hands it over; one that there is not is refusal 5.
#![tactic(auto)]

ghost use Rattle.std.specs.Prelude.{◌≡◌, length};
ghost use Rattle.pouring.specs.Poured.{poured};
ghost use Rattle.contour.specs.Writer.{room_after};
ghost use Rattle.report.specs.Report.{heading_of, block_text, block_of};
ghost use Rattle.report.specs.Writer.{is_outside, heading_answer, block_answer};

use crate::shape::{GROUND_LINE, SERVED_LINE, UNSERVED_LINE};
use contour::{is_too_far, write_fitted, write_heading};
use formats::told::told_as;
use plotting::put_two;
use plotting::shape::LEVEL_LINE;
use printing::put_line;
use survey::limits::MOST_GROUND;
use survey::refusal::Refusal;

mod shape;

// Writes the heading.
pub fn heading(style: u32, room: &mut [u8]) -> Result<usize, Refusal>
    ensures value { result ≡ heading_answer style (length room.old) }
    ensures room_after { room.new ≡ room_after (heading_of style) result room.old }
{
    write_heading(SERVED_LINE, 1, style, room)
}

// Whether a level or a figure is out of its range.
fn is_outside(level: i32, served: u64, unserved: u64) -> bool
    ensures { result ≡ is_outside level served unserved }
{
    is_too_far(level) || MOST_GROUND < served || MOST_GROUND < unserved
}

// The block of a level, which is told 32,768 above itself, as much of it as has room, and its bytes.
fn put_block(out: &mut [u8], level: u64, served: u64, unserved: u64) -> usize
    ensures { (result ≡ length (block_text level served unserved))
        × (out.new ≡ poured out.old 0 (block_text level served unserved)) }
{
    let next = put_line(out, 0, LEVEL_LINE, level);
    put_two(out, next, GROUND_LINE, served, UNSERVED_LINE, unserved)
}

// Writes the block of a level: its line, and its two figures.
pub fn block(level: i32, served: u64, unserved: u64, room: &mut [u8]) -> Result<usize, Refusal>
    ensures value { result ≡ block_answer level served unserved (length room.old) }
    ensures room_after { room.new ≡ room_after (block_of level served unserved) result room.old }
{
    if is_outside(level, served, unserved) {
        return Err(Refusal::Number);
    }
    let told = told_as(level);
    write_fitted(room, |out| put_block(out, told, served, unserved))
}
