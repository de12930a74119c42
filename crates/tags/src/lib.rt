// The writer's tests of the tags: document 01, "Text".
#![tactic(auto)]

ghost use Rattle.std.specs.Prelude.{◌≡◌, cond, not, ◌+◌, ◌*◌, ◌≤◌, ◌<◌, eqb, ltb, length};
ghost use Rattle.lists.specs.Lowest.{found};
ghost use Rattle.survey.specs.Limits.{most_stations};
ghost use Rattle.shapes.specs.Line.{is_word_byte};
ghost use Rattle.feeding.specs.Marks.{mark_count};
ghost use Rattle.rendering.specs.Filed.{tag_byte_of, tag_size, tag_number};
ghost use Rattle.rendering.specs.Writer.{is_wrong_tag, is_used_tag};

use feeding::tags::{MARKS, is_known, keep};
use shapes::line::is_word_byte;
use survey::limits::{MOST_STATIONS, MOST_TAG};

// Byte j of the tag of station i.
fn byte_of(tags: &[u8], i: usize, j: usize) -> u8
    requires { (8 * i + 8 ≤ length tags.now) × (j < 8) }
    ensures { result ≡ tag_byte_of tags.now i j }
{
    tags[8 * i + j]
}

// How many bytes of the tag of station i come before the first zero.
fn tag_size(tags: &[u8], i: usize) -> usize
    requires { 8 * i + 8 ≤ length tags.now }
    ensures { result ≡ tag_size tags.now i }
{
    (0..MOST_TAG)
        .find(|&j| byte_of(tags, i, j) == 0)
        .unwrap_or(MOST_TAG)
}

// Whether byte j of a tag of this size is wrong.
fn is_wrong_byte(b: u8, size: usize, j: usize) -> bool
    ensures { result ≡ cond (ltb j size) (not (is_word_byte b)) (not (eqb b 0)) }
{
    if j < size { !is_word_byte(b) } else { b != 0 }
}

// Whether the tag of station i is not of the stated form.
fn is_wrong_tag(tags: &[u8], i: usize) -> bool
    requires { 8 * i + 8 ≤ length tags.now }
    ensures { result ≡ is_wrong_tag tags.now i }
{
    let size = tag_size(tags, i);
    size < 1 || (0..MOST_TAG).any(|j| is_wrong_byte(byte_of(tags, i, j), size, j))
}

// The lowest station whose tag is not of the stated form, if one is not.
pub fn lowest_wrong_tag(tags: &[u8], n: usize) -> Option<usize>
    requires { 8 * n ≤ length tags.now }
    ensures { result ≡ found (is_wrong_tag tags.now) n }
{
    (0..n).find(|&i| is_wrong_tag(tags, i))
}

// The tag of station i as one number.
pub fn tag_number(tags: &[u8], i: usize) -> u64
    requires { 8 * i + 8 ≤ length tags.now }
    ensures { result ≡ tag_number tags.now i }
{
    let size = tag_size(tags, i);
    let mut number: u64 = 0;
    for j in 0..size {
        number = 256 * number + u64::from(byte_of(tags, i, j));
    }
    number
}

// The lowest station whose tag an earlier one has, if one does. `seen` keeps the tags, `marks` their marks.
fn lowest_used_from(tags: &[u8], n: usize, seen: &mut [u64], marks: &mut [u8]) -> Option<usize>
    requires { (8 * n ≤ length tags.now) × (n ≤ length seen.old) × (length marks.old ≡ mark_count) }
    ensures { result ≡ found (is_used_tag tags.now) n }
{
    for i in 0..n {
        let tag = tag_number(tags, i);
        if is_known(seen, marks, i, tag) {
            return Some(i);
        }
        keep(seen, marks, i, tag);
    }
    None
}

// The lowest station whose tag an earlier one has, if one does.
pub fn lowest_used_tag(tags: &[u8], n: usize) -> Option<usize>
    requires { (8 * n ≤ length tags.now) × (n ≤ most_stations) }
    ensures { result ≡ found (is_used_tag tags.now) n }
{
    let mut seen = [0u64; MOST_STATIONS];
    let mut marks = [0u8; MARKS];
    lowest_used_from(tags, n, &mut seen, &mut marks)
}
