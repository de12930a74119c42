// The static library of the door: what C and Rust programs link. Each function is that of `thawpebble` under the same name, with its clauses.
// Kind and style are numbers, as C hands them over; one that there is not is refusal 5.
#![tactic(auto)]

ghost use Rattle.std.specs.Prelude.{◌≡◌, length};
ghost use Rattle.survey.specs.Answers.{checked_gives, meshed_gives, sloped_gives, reading_gives, writing_gives, drawn_gives, counted_gives, height_gives};
ghost use Rattle.whole.specs.Place.{place};
ghost use Rattle.survey.specs.Survey.{survey};
ghost use Rattle.survey.specs.Checks.{checked};
ghost use Rattle.mesh.specs.Kinds.{triangles_of};
ghost use Rattle.mesh.specs.Job.{meshed, triangles_in, work_in};
ghost use Rattle.slopes.specs.Job.{sloped, room_after};
ghost use Rattle.text.specs.Reader.{read_of, x_room, y_room, z_room, tags_room, levels_room};
ghost use Rattle.rendering.specs.Filed.{filed};
ghost use Rattle.rendering.specs.Writer.{write_of, text_room};
ghost use Rattle.thawpebble.specs.Door.{number, carried, stations_after, levels_after, vertices_after, served_after, unserved_after, own_after, between_after};
ghost use Rattle.height.specs.Job.{heighted, slopes_after, work_after};
ghost use Rattle.lines.specs.Job.{lengths, drawn, x_in, y_in, records_in, slopes_in, work_in as lines_work_in};
ghost use Rattle.served.specs.Job.{counted, slopes_in as counted_slopes_in, work_in as counted_work_in};

pub mod over;

// Refusals 1 to 4 of a survey: the number, and in `at` what it carries.
#[unsafe(no_mangle)]
pub extern "C" fn thawpebble_check(x: &[u32], y: &[u32], z: &[i32], at: &mut u32) -> u32
    ensures { (result ≡ number (checked_gives (checked (survey x.now y.now z.now))))
        × (at.new ≡ carried (checked_gives (checked (survey x.now y.now z.now)))) }
{
    thawpebble::thawpebble_check(x, y, z, at)
}

// The mesh job: three stations to a triangle of the kind, and in `at` the count of triangles.
#[unsafe(no_mangle)]
pub extern "C" fn thawpebble_mesh(
    x: &[u32],
    y: &[u32],
    z: &[i32],
    kind: u32,
    triangles: &mut [u16],
    work: &mut [u16],
    at: &mut u32,
) -> u32
    ensures { (result ≡ number (meshed_gives
        (meshed (survey x.now y.now z.now) kind (length triangles.old) (length work.old))))
        × (at.new ≡ carried (meshed_gives
        (meshed (survey x.now y.now z.now) kind (length triangles.old) (length work.old))))
        × (triangles.new ≡ triangles_in
        (meshed (survey x.now y.now z.now) kind (length triangles.old) (length work.old))
        (survey x.now y.now z.now) kind triangles.old)
        × (work.new ≡ work_in
        (meshed (survey x.now y.now z.now) kind (length triangles.old) (length work.old))
        (survey x.now y.now z.now) work.old) }
{
    thawpebble::thawpebble_mesh(x, y, z, kind, triangles, work, at)
}

// The slopes job: p, q, r, s, t of station i at 5i to 5i + 4 of the room.
#[unsafe(no_mangle)]
pub extern "C" fn thawpebble_slopes(
    x: &[u32],
    y: &[u32],
    z: &[i32],
    room: &mut [i32],
    at: &mut u32,
) -> u32
    ensures { (result ≡ number (sloped_gives (sloped (survey x.now y.now z.now) (length room.old))))
        × (at.new ≡ carried (sloped_gives (sloped (survey x.now y.now z.now) (length room.old))))
        × (room.new ≡ room_after (survey x.now y.now z.now)
        (sloped (survey x.now y.now z.now) (length room.old)) room.old) }
{
    thawpebble::thawpebble_slopes(x, y, z, room, at)
}

// The reader of survey text. Done, `at` holds the style, `n` the count of stations and `m` that of levels; refused, `at` holds what the
// refusal carries.
#[unsafe(no_mangle)]
pub extern "C" fn thawpebble_read(
    text: &[u8],
    x: &mut [u32],
    y: &mut [u32],
    z: &mut [i32],
    tags: &mut [u8],
    levels: &mut [i32],
    at: &mut u32,
    n: &mut u32,
    m: &mut u32,
) -> u32
    ensures { let a = read_of text.now (length x.old) (length y.old) (length z.old)
        (length tags.old) (length levels.old) in
        (result ≡ number (reading_gives a))
        × (at.new ≡ carried (reading_gives a))
        × (n.new ≡ stations_after a n.old)
        × (m.new ≡ levels_after a m.old)
        × (x.new ≡ x_room text.now a x.old)
        × (y.new ≡ y_room text.now a y.old)
        × (z.new ≡ z_room text.now a z.old)
        × (tags.new ≡ tags_room text.now a tags.old)
        × (levels.new ≡ levels_room text.now a levels.old) }
{
    thawpebble::thawpebble_read(text, x, y, z, tags, levels, at, n, m)
}

// The writer of survey text: in `at` the count of bytes written.
#[unsafe(no_mangle)]
pub extern "C" fn thawpebble_write(
    style: u32,
    tags: &[u8],
    x: &[u32],
    y: &[u32],
    z: &[i32],
    levels: &[i32],
    text: &mut [u8],
    at: &mut u32,
) -> u32
    ensures { let s = filed style tags.now x.now y.now z.now levels.now in
        (result ≡ number (writing_gives (write_of s (length text.old))))
        × (at.new ≡ carried (writing_gives (write_of s (length text.old))))
        × (text.new ≡ text_room s (write_of s (length text.old)) text.old) }
{
    thawpebble::thawpebble_write(style, tags, x, y, z, levels, text, at)
}

// The lines job. Done, `at` holds the count of lines and `n` that of vertices; refused, `at` holds what the refusal carries.
#[unsafe(no_mangle)]
pub extern "C" fn thawpebble_lines(
    x: &[u32],
    y: &[u32],
    z: &[i32],
    kind: u32,
    level: i32,
    style: u32,
    vx: &mut [u32],
    vy: &mut [u32],
    records: &mut [u16],
    slopes: &mut [i32],
    work: &mut [u16],
    at: &mut u32,
    n: &mut u32,
) -> u32
    ensures { let s = survey x.now y.now z.now in
        let ts = triangles_of kind s in
        let a = drawn s kind level style (lengths (length vx.old) (length vy.old) (length records.old)
        (length slopes.old) (length work.old)) in
        (result ≡ number (drawn_gives a))
        × (at.new ≡ carried (drawn_gives a))
        × (n.new ≡ vertices_after a n.old)
        × (vx.new ≡ x_in a s ts level style vx.old)
        × (vy.new ≡ y_in a s ts level style vy.old)
        × (records.new ≡ records_in a s ts level records.old)
        × (slopes.new ≡ slopes_in a s slopes.old)
        × (work.new ≡ lines_work_in a s work.old) }
{
    thawpebble::thawpebble_lines(
        x, y, z, kind, level, style, vx, vy, records, slopes, work, at, n,
    )
}

// The served ground of a level and the rest. Done, `at` holds 0, and `served` and `unserved` hold both figures; refused, `at` holds what the
// refusal carries.
#[unsafe(no_mangle)]
pub extern "C" fn thawpebble_served(
    x: &[u32],
    y: &[u32],
    z: &[i32],
    kind: u32,
    level: i32,
    style: u32,
    slopes: &mut [i32],
    work: &mut [u16],
    at: &mut u32,
    served: &mut u64,
    unserved: &mut u64,
) -> u32
    ensures { let s = survey x.now y.now z.now in
        let a = counted s kind level style (length slopes.old) (length work.old) in
        (result ≡ number (counted_gives a))
        × (at.new ≡ carried (counted_gives a))
        × (served.new ≡ served_after a served.old)
        × (unserved.new ≡ unserved_after a unserved.old)
        × (slopes.new ≡ counted_slopes_in a s slopes.old)
        × (work.new ≡ counted_work_in a s work.old) }
{
    thawpebble::thawpebble_served(
        x, y, z, kind, level, style, slopes, work, at, served, unserved,
    )
}

// The height job. Done, `at` says which of the three heights it is: 0 a station's own, then in `own`; 1 an interpolated one, then in `between`;
// 2 outside the hull; what of `own` and `between` is not given holds 0. Refused, `at` holds what the refusal carries.
#[unsafe(no_mangle)]
pub extern "C" fn thawpebble_height(
    x: &[u32],
    y: &[u32],
    z: &[i32],
    kind: u32,
    px: u32,
    py: u32,
    slopes: &mut [i32],
    work: &mut [u16],
    at: &mut u32,
    own: &mut i32,
    between: &mut f64,
) -> u32
    ensures { let s = survey x.now y.now z.now in
        let a = heighted s kind (place px py) (length slopes.old) (length work.old) in
        (result ≡ number (height_gives a))
        × (at.new ≡ carried (height_gives a))
        × (own.new ≡ own_after a own.old)
        × (between.new ≡ between_after a between.old)
        × (slopes.new ≡ slopes_after a s slopes.old)
        × (work.new ≡ work_after a s work.old) }
{
    thawpebble::thawpebble_height(x, y, z, kind, px, py, slopes, work, at, own, between)
}
