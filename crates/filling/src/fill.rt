// The rooms of a survey, filled from the values of its text: three values stand before the first station, and each station has four.
ghost use Rattle.std.specs.Prelude.{◌≡◌, ◌++◌, ℕ, ◌+◌, ◌*◌, ◌≤◌, ◌<◌, length, drop};
ghost use Rattle.std.specs.List.{HoldsAt};
ghost use Rattle.lists.specs.Table.{table};
ghost use Rattle.lists.specs.Rows.{rows};
ghost use Rattle.survey.specs.Rooms.{tag_room};
ghost use Rattle.pouring.specs.Poured.{poured};
ghost use Rattle.rendering.specs.Values.{untold, x_in, y_in, z_in, tag_row, tag_in};
ghost use Rattle.filling.specs.Fill.{every, Laid, Rooms};

use pouring::digits::put_word;

// A whole number by what is told of it.
fn whole(told: u64) -> i32
    requires { told < 65536 }
    ensures { result ≡ untold told }
{
    told as i32 - 32768
}

// The first n places of a room: at each what `entry` gives for its number.
fn fill_by<T: Copy, F: Fn(usize) -> T>(room: &mut [T], n: usize, entry: F)
    requires room { n ≤ length room.old }
    requires callable { (i : ℕ) → i < n → F.pre entry i }
    ensures front { (i : ℕ) → i < n → HoldsAt (λ v. F.post entry i v) room.new i }
    ensures rest { drop n room.new ≡ drop n room.old }
{
    for i in 0..n {
        room[i] = entry(i);
    }
}

// The eight bytes of a tag, the unused end zero.
fn put_tag(word: u64, room: &mut [u8], to: usize)
    requires { to + 8 ≤ length room.old }
    ensures { room.new ≡ poured room.old to (tag_row word) }
{
    let next = put_word(room, to, word);
    room[next..to + 8].fill(0);
}

// The tags of n stations.
fn fill_tags(values: &[u64], n: usize, room: &mut [u8])
    requires { (tag_room n ≤ length room.old) × (4 * n ≤ length values.now) × (n ≤ 65536) }
    ensures { room.new ≡ rows (λ i. tag_row (tag_in values.now i)) n ++ drop (tag_room n) room.old }
{
    for i in 0..n {
        put_tag(values[3 + 4 * i], room, 8 * i);
    }
}

// Fills rooms that suffice, from the values of n stations and m levels.
pub fn fill_rooms(
    values: &[u64],
    n: usize,
    m: usize,
    x: &mut [u32],
    y: &mut [u32],
    z: &mut [i32],
    tags: &mut [u8],
    levels: &mut [i32],
)
    requires laid { Laid values.now n m }
    requires rooms { Rooms n m (length x.old) (length y.old) (length z.old) (length tags.old) (length levels.old) }
    ensures x_after { x.new ≡ table (x_in values.now) n ++ drop n x.old }
    ensures y_after { y.new ≡ table (y_in values.now) n ++ drop n y.old }
    ensures z_after { z.new ≡ table (z_in values.now) n ++ drop n z.old }
    ensures tags_after { tags.new ≡ rows (λ i. tag_row (tag_in values.now i)) n ++ drop (tag_room n) tags.old }
    ensures levels_after { levels.new ≡ table (λ k. untold (every values.now (4 + 4 * n) 1 k)) m ++ drop m levels.old }
{
    fill_by(x, n, |i| values[4 + 4 * i] as u32);
    fill_by(y, n, |i| values[5 + 4 * i] as u32);
    fill_by(z, n, |i| whole(values[6 + 4 * i]));
    fill_tags(values, n, tags);
    let first = 4 + 4 * n;
    fill_by(levels, m, |k| whole(values[first + k]));
}
