// The reader of survey text: document 01, "Text". Every line is read before anything is written, so a refusal changes nothing.
ghost use Rattle.std.specs.Prelude.{◌≡◌, ◌+◌, ◌*◌, ◌≤◌, length};
ghost use Rattle.shapes.specs.Line.{fault_number};
ghost use Rattle.rendering.specs.Values.{points_in, levels_in, filed_by};
ghost use Rattle.rendering.specs.Scan.{Right, fault_by};
ghost use Rattle.filling.specs.Fill.{Laid};
ghost use Rattle.text.specs.Reader.{has_room, housed, read_of, x_held, y_held, z_held, tags_held, levels_held, x_room, y_room, z_room, tags_room, levels_room};

use filling::fill::fill_rooms;
use formats::place::Line;
use gathering::values::{MOST_LINES, Wrong, values_of};
use shapes::line::Fault;
use survey::answers::Read;
use survey::limits::MOST_TEXT;
use survey::refusal::Refusal;
use survey::rooms::tag_room;

// The refusal of a text that is not right, at its line.
fn fault_at(wrong: Wrong) -> Refusal
    ensures { result ≡ fault_by (fault_number wrong.fault) wrong.line }
{
    match wrong.fault {
        Fault::Form => Refusal::Form { at: wrong.line },
        Fault::TagUsed => Refusal::TagUsed { at: wrong.line },
    }
}

// Whether each room is as long as n stations and m levels need.
fn has_room(n: usize, m: usize, xs: usize, ys: usize, zs: usize, tags: usize, levels: usize) -> bool
    requires { n ≤ 65535 }
    ensures { result ≡ has_room n m xs ys zs tags levels }
{
    n <= xs && n <= ys && n <= zs && tag_room(n) <= tags && m <= levels
}

// Hands the values of a right text over to the rooms, where they suffice.
fn hand_over(
    values: &[u64],
    x: &mut [u32],
    y: &mut [u32],
    z: &mut [i32],
    tags: &mut [u8],
    levels: &mut [i32],
) -> Result<Read, Refusal>
    requires { Laid values.now (points_in values.now) (levels_in values.now) }
    ensures value { result ≡ housed (length x.old) (length y.old) (length z.old) (length tags.old) (length levels.old)
        (Right (filed_by values.now)) }
    ensures x_after { x.new ≡ x_held (filed_by values.now) result x.old }
    ensures y_after { y.new ≡ y_held (filed_by values.now) result y.old }
    ensures z_after { z.new ≡ z_held (filed_by values.now) result z.old }
    ensures tags_after { tags.new ≡ tags_held (filed_by values.now) result tags.old }
    ensures levels_after { levels.new ≡ levels_held (filed_by values.now) result levels.old }
{
    let n = values[2] as usize;
    let m = values[3 + 4 * n] as usize;
    if has_room(n, m, x.len(), y.len(), z.len(), tags.len(), levels.len()) {
        fill_rooms(values, n, m, x, y, z, tags, levels);
        Ok(Read {
            style: values[1] as u32,
            stations: n,
            levels: m,
        })
    } else {
        Err(Refusal::Room)
    }
}

// Reads a survey's text into the lent rooms.
pub fn read(
    text: &[u8],
    x: &mut [u32],
    y: &mut [u32],
    z: &mut [i32],
    tags: &mut [u8],
    levels: &mut [i32],
) -> Result<Read, Refusal>
    ensures value { result ≡ read_of text.now (length x.old) (length y.old) (length z.old) (length tags.old) (length levels.old) }
    ensures x_after { x.new ≡ x_room text.now result x.old }
    ensures y_after { y.new ≡ y_room text.now result y.old }
    ensures z_after { z.new ≡ z_room text.now result z.old }
    ensures tags_after { tags.new ≡ tags_room text.now result tags.old }
    ensures levels_after { levels.new ≡ levels_room text.now result levels.old }
{
    if MOST_TEXT < text.len() {
        return Err(Refusal::Form { at: 0 });
    }
    let mut values = [0u64; MOST_LINES];
    match values_of(text, Line::Survey, &mut values) {
        Err(wrong) => Err(fault_at(wrong)),
        Ok(n) => hand_over(&values[..n], x, y, z, tags, levels),
    }
}
