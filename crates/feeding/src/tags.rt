// The tags of a text: which are used, and the marks that they leave.
ghost use Rattle.std.specs.Prelude.{◌≡◌, [], ◌∷◌, ◌++◌, ◌≤◌, ◌<◌, ◌+◌, length, take};
ghost use Rattle.shapes.specs.Line.{is_used};
ghost use Rattle.formats.specs.Place.{used_of, tags_of, tag_one};
ghost use Rattle.feeding.specs.Marks.{mark_count, Marked};

use formats::place::{Line, is_tag};

// How many marks there are. Any count serves; this one is prime, so that tags that differ in a few digits leave different marks mostly.
pub const MARKS: usize = 6133;

// Whether a tag is among the first n. It looks at all of them, several at once, where the library's search for so wide a number looks at one at
// a time.
pub fn is_used(seen: &[u64], n: usize, tag: u64) -> bool
    requires { n ≤ length seen.now }
    ensures { result ≡ is_used (take n seen.now) tag }
{
    let mut used = false;
    for &word in &seen[..n] {
        used |= word == tag;
    }
    used
}

// Whether a tag is among the first n. A tag that finds no mark at its place is new; only one that finds a mark is looked for.
pub fn is_known(seen: &[u64], marks: &[u8], n: usize, tag: u64) -> bool
    requires { (n ≤ length seen.now) × (length marks.now ≡ mark_count) × Marked (take n seen.now) marks.now }
    ensures { result ≡ is_used (take n seen.now) tag }
{
    marks[tag as usize % MARKS] != 0 && is_used(seen, n, tag)
}

// Keeps a tag behind the first n, and leaves its mark.
pub fn keep(seen: &mut [u64], marks: &mut [u8], n: usize, tag: u64)
    requires { (n < length seen.old) × (length marks.old ≡ mark_count) × Marked (take n seen.old) marks.old }
    ensures seen_after { take (n + 1) seen.new ≡ take n seen.old ++ (tag ∷ []) }
    ensures marked { Marked (take (n + 1) seen.new) marks.new }
{
    seen[n] = tag;
    marks[tag as usize % MARKS] = 1;
}

// Whether the tag of a line is used; a line of another kind has none.
pub fn is_taken(line: Line, seen: &[u64], marks: &[u8], n: usize, word: u64) -> bool
    requires { (n ≤ length seen.now) × (length marks.now ≡ mark_count) × Marked (take n seen.now) marks.now }
    ensures { result ≡ is_used (used_of line (take n seen.now)) word }
{
    is_tag(line) && is_known(seen, marks, n, word)
}

// Keeps the tag of a tag line.
pub fn keep_tag(line: Line, seen: &mut [u64], marks: &mut [u8], n: usize, v: u64) -> usize
    requires { (n + tag_one line ≤ length seen.old) × (length marks.old ≡ mark_count) × Marked (take n seen.old) marks.old }
    ensures seen_after { take result seen.new ≡ tags_of line (take n seen.old) v }
    ensures value { result ≡ n + tag_one line }
    ensures marked { Marked (take result seen.new) marks.new }
{
    if is_tag(line) {
        keep(seen, marks, n, v);
        n + 1
    } else {
        n
    }
}
