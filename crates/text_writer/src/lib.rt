// The writer of survey text: document 01, "Text". Every test is made before anything is written, so a refusal changes nothing.
// The style is a number, as C hands it over; one that there is not is refusal 5.
#![tactic(auto)]

ghost use Rattle.std.specs.Prelude.{◌≡◌, length};
ghost use Rattle.rendering.specs.Filed.{filed};
ghost use Rattle.rendering.specs.Writer.{write_of, text_room};

use composing::put_text;
use levels::is_level_list;
use survey::check::{is_counted, lowest_out_of_range};
use survey::refusal::Refusal;
use survey::rooms::tag_room;
use tags::{lowest_used_tag, lowest_wrong_tag};

// Writes a survey's text into the lent room.
pub fn write(
    style: u32,
    tags: &[u8],
    x: &[u32],
    y: &[u32],
    z: &[i32],
    levels: &[i32],
    text: &mut [u8],
) -> Result<usize, Refusal>
    ensures value { result ≡ write_of (filed style tags.now x.now y.now z.now levels.now) (length text.old) }
    ensures text_after { text.new ≡ text_room (filed style tags.now x.now y.now z.now levels.now) result text.old }
{
    let n = x.len();
    if !is_counted(x, y, z) || tags.len() != tag_room(n) {
        return Err(Refusal::Count);
    }
    if let Some(k) = lowest_out_of_range(x, y, z) {
        return Err(Refusal::Range { station: k as u32 });
    }
    if let Some(k) = lowest_wrong_tag(tags, n) {
        return Err(Refusal::Form { at: k as u32 });
    }
    if let Some(k) = lowest_used_tag(tags, n) {
        return Err(Refusal::TagUsed { at: k as u32 });
    }
    if 1 < style || !is_level_list(levels) {
        return Err(Refusal::Number);
    }
    // `write_fitted` is of the writer of contour text, of which this one is no part; a call of it with its closure is no shorter.
    let bytes = put_text(style, tags, x, y, z, levels, &mut []);
    if text.len() < bytes {
        return Err(Refusal::Room);
    }
    put_text(style, tags, x, y, z, levels, text);
    Ok(bytes)
}
