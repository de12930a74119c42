// The work of the programs: a survey's text is opened once, which gives the heading or the refusal, and then each level gives a block. The
// rooms are of the largest survey's size, and `block` asks for what `open` leaves in them: this stands below the public door, as
// `lines::draw` does.
// Kind and style are numbers here, as in the definitions. The flag `report` is theirs too (`heading_by`, `any_opening_by`): they tell both texts by
// one rule.
#![tactic(auto)]

ghost use Rattle.std.specs.Prelude.{Bool, ◌≡◌, ◌++◌, ℕ, ◌<◌, ◌≤◌, length, drop, Ok, Err};
ghost use Rattle.whole.specs.Range.{Within};
ghost use Rattle.survey.specs.Checks.{checked};
ghost use Rattle.survey.specs.Fit.{Fit};
ghost use Rattle.survey.specs.Limits.{most_stations, most_height};
ghost use Rattle.survey.specs.Rooms.{slope_room, work_room};
ghost use Rattle.survey.specs.Survey.{Survey, survey};
ghost use Rattle.text.specs.Reader.{survey_of, x_room, y_room, z_room, tags_room, levels_room};
ghost use Rattle.rendering.specs.Filed.{stations as stations_of};
ghost use Rattle.neighbours.specs.Room.{order, threes};
ghost use Rattle.spots.specs.Prepared.{Prepared};
ghost use Rattle.contour.specs.Writer.{room_after};
ghost use Rattle.program.specs.Program.{level_text, level_answer, judged, refused_text, heading_by, opening, any_opening_by, any_opening, block_at};
ghost use Rattle.program.specs.Opened.{bytes_of, reading_of, opened_of, any_opened_by, any_opened_of, Worked, slopes_room, AnyReady};

use lines::Recorded;
use survey::check::check;
use survey::limits::{MOST_LEVELS, MOST_STATIONS, MOST_TAG};
use survey::refusal::Refusal;

// The bytes that suffice for the opening and for the block of every level.
pub const TEXT_ROOM: usize = 153360;

// The work room of the largest survey.
pub const WORK_ROOM: usize = 16 * MOST_STATIONS;

// The bytes of the opening, and of a survey that passed the checks its style and how many stations, triangles, sides and levels there are.
#[derive(Clone, Copy)]
pub struct Opened {
    pub bytes: usize,
    pub style: u32,
    pub stations: usize,
    pub triangles: usize,
    pub sides: usize,
    pub levels: usize,
}

// The bytes of a written text.
pub fn bytes_of(w: Result<usize, Refusal>) -> usize
    ensures { result ≡ bytes_of w }
{
    w.unwrap_or(0)
}

// The text of a level over any mesh, in the lent room. The work room is as it was.
fn level_text(
    x: &[u32],
    y: &[u32],
    z: &[i32],
    recorded: Recorded,
    work: &mut [u16],
    slopes: &[i32],
    level: i32,
    style: u32,
    room: &mut [u8],
) -> Result<usize, Refusal>
    requires { Prepared (survey x.now y.now z.now) (threes recorded.triangles work.old) style work.old slopes.now
        × (recorded.sides ≡ length (order (threes recorded.triangles work.old) (length x.now))) × Within most_height level }
    ensures value { result ≡ level_answer (survey x.now y.now z.now) (threes recorded.triangles work.old) style level
        (length room.old) }
    ensures room_after { room.new
        ≡ room_after (level_text (survey x.now y.now z.now) (threes recorded.triangles work.old) style level) result
        room.old }
    ensures work_unchanged { work.new ≡ work.old }
{
    let mut vx = [0u32; 3 * MOST_STATIONS];
    let mut vy = [0u32; 3 * MOST_STATIONS];
    let mut records = [0u16; 3 * MOST_STATIONS];
    let traced = lines::draw(
        x,
        y,
        z,
        recorded,
        work,
        slopes,
        level,
        style,
        &mut vx,
        &mut vy,
        &mut records,
    );
    contour::block(
        level,
        &records[..traced.lines],
        &vx[..traced.vertices],
        &vy[..traced.vertices],
        room,
    )
}

// The two lines of a refusal, in the lent room. No line has more than 30 bytes.
fn refuse(why: Refusal, room: &mut [u8]) -> Opened
    requires { 60 ≤ length room.old }
    ensures by_index { (kind : ℕ) (report : Bool) (s : Survey) (style levels : ℕ) → result ≡ any_opened_by kind report s style levels (Err why) }
    ensures room_after { room.new ≡ refused_text why ++ drop result.bytes room.old }
{
    let number = survey::refusal::number(why);
    let carried = survey::refusal::carried(why);
    let w = contour::refusal(number, carried, room);
    Opened {
        bytes: bytes_of(w),
        style: 0,
        stations: 0,
        triangles: 0,
        sides: 0,
        levels: 0,
    }
}

// The heading of a report or of contour text, in the lent room.
fn put_heading(report: bool, style: u32, room: &mut [u8]) -> usize
    requires { (style ≤ 1) × (60 ≤ length room.old) }
    ensures value { result ≡ length (heading_by report style) }
    ensures room_after { room.new ≡ heading_by report style ++ drop result room.old }
{
    if report {
        return bytes_of(report::heading(style, room));
    }
    bytes_of(contour::heading(style, room))
}

// Prepares a survey that passed the checks, once for all levels, with the heading in the lent room.
fn prepare(
    x: &[u32],
    y: &[u32],
    z: &[i32],
    kind: u32,
    report: bool,
    style: u32,
    levels: usize,
    work: &mut [u16],
    slopes: &mut [i32],
    room: &mut [u8],
) -> Opened
    requires { Fit (survey x.now y.now z.now) × (style ≤ 1) × (work_room (length x.now) ≤ length work.old)
        × (slope_room (length x.now) ≤ length slopes.old) × (60 ≤ length room.old) }
    ensures value { result ≡ any_opened_by kind report (survey x.now y.now z.now) style levels (Ok tt) }
    ensures worked { Worked kind (survey x.now y.now z.now) (Ok tt) work.old work.new }
    ensures slopes_after { slopes.new ≡ slopes_room (survey x.now y.now z.now) style (Ok tt) slopes.old }
    ensures room_after { room.new ≡ heading_by report style ++ drop result.bytes room.old }
{
    let recorded = lines::put_records(x, y, z, kind, work);
    lines::put_slopes(x, y, z, style, slopes);
    let bytes = put_heading(report, style, room);
    Opened {
        bytes,
        style,
        stations: x.len(),
        triangles: recorded.triangles,
        sides: recorded.sides,
        levels,
    }
}

// Checks a survey before it is prepared.
fn judge(
    x: &[u32],
    y: &[u32],
    z: &[i32],
    kind: u32,
    report: bool,
    style: u32,
    levels: usize,
    work: &mut [u16],
    slopes: &mut [i32],
    room: &mut [u8],
) -> Opened
    requires { (style ≤ 1) × (work_room most_stations ≤ length work.old) × (slope_room most_stations ≤ length slopes.old)
        × (60 ≤ length room.old) }
    ensures value { result ≡ any_opened_by kind report (survey x.now y.now z.now) style levels
        (checked (survey x.now y.now z.now)) }
    ensures worked { Worked kind (survey x.now y.now z.now)
        (checked (survey x.now y.now z.now)) work.old work.new }
    ensures slopes_after { slopes.new ≡ slopes_room (survey x.now y.now z.now) style
        (checked (survey x.now y.now z.now)) slopes.old }
    ensures room_after { room.new ≡ any_opening_by report style (checked (survey x.now y.now z.now))
        ++ drop result.bytes room.old }
{
    match check(x, y, z) {
        Err(why) => refuse(why, room),
        Ok(()) => prepare(x, y, z, kind, report, style, levels, work, slopes, room),
    }
}

// Reads and checks a survey's text and prepares its survey over the mesh of a kind. The opening, which is the heading of a report or of
// contour text or the two lines of a refusal, stands at the front of the room.
pub fn open_any(
    text: &[u8],
    kind: u32,
    report: bool,
    x: &mut [u32; MOST_STATIONS],
    y: &mut [u32; MOST_STATIONS],
    z: &mut [i32; MOST_STATIONS],
    tags: &mut [u8; MOST_TAG * MOST_STATIONS],
    levels: &mut [i32; MOST_LEVELS],
    work: &mut [u16; WORK_ROOM],
    slopes: &mut [i32; 5 * MOST_STATIONS],
    room: &mut [u8; TEXT_ROOM],
) -> Opened
    ensures opened { result ≡ any_opened_of kind report text.now }
    ensures of_room { room.new ≡ any_opening report text.now ++ drop result.bytes room.old }
    ensures of_work { Worked kind (stations_of (survey_of text.now)) (judged text.now) work.old work.new }
    ensures of_slopes { slopes.new ≡ slopes_room (stations_of (survey_of text.now)) (survey_of text.now).style
        (judged text.now) slopes.old }
    ensures of_x { x.new ≡ x_room text.now (reading_of text.now) x.old }
    ensures of_y { y.new ≡ y_room text.now (reading_of text.now) y.old }
    ensures of_z { z.new ≡ z_room text.now (reading_of text.now) z.old }
    ensures of_tags { tags.new ≡ tags_room text.now (reading_of text.now) tags.old }
    ensures of_levels { levels.new ≡ levels_room text.now (reading_of text.now) levels.old }
{
    match text::reader::read(text, x, y, z, tags, levels) {
        Err(why) => refuse(why, room),
        Ok(read) => {
            let n = read.stations;
            let xs: &[u32] = x;
            let ys: &[u32] = y;
            let zs: &[i32] = z;
            judge(
                &xs[..n],
                &ys[..n],
                &zs[..n],
                kind,
                report,
                read.style,
                read.levels,
                work,
                slopes,
                room,
            )
        }
    }
}

// The same for contour text: the opening is its heading or the two lines of a refusal.
pub fn open(
    text: &[u8],
    kind: u32,
    x: &mut [u32; MOST_STATIONS],
    y: &mut [u32; MOST_STATIONS],
    z: &mut [i32; MOST_STATIONS],
    tags: &mut [u8; MOST_TAG * MOST_STATIONS],
    levels: &mut [i32; MOST_LEVELS],
    work: &mut [u16; WORK_ROOM],
    slopes: &mut [i32; 5 * MOST_STATIONS],
    room: &mut [u8; TEXT_ROOM],
) -> Opened
    ensures opened { result ≡ opened_of kind text.now }
    ensures of_room { room.new ≡ opening text.now ++ drop result.bytes room.old }
    ensures of_work { Worked kind (stations_of (survey_of text.now)) (judged text.now) work.old work.new }
    ensures of_slopes { slopes.new ≡ slopes_room (stations_of (survey_of text.now)) (survey_of text.now).style
        (judged text.now) slopes.old }
    ensures of_x { x.new ≡ x_room text.now (reading_of text.now) x.old }
    ensures of_y { y.new ≡ y_room text.now (reading_of text.now) y.old }
    ensures of_z { z.new ≡ z_room text.now (reading_of text.now) z.old }
    ensures of_tags { tags.new ≡ tags_room text.now (reading_of text.now) tags.old }
    ensures of_levels { levels.new ≡ levels_room text.now (reading_of text.now) levels.old }
{
    open_any(text, kind, false, x, y, z, tags, levels, work, slopes, room)
}

// The text of level k of an opened text, at the front of the room, and its bytes. The work room is as it was. The text and the kind are
// there so that the contract can say whose block it is.
pub fn block(
    text: &[u8],
    kind: u32,
    opened: Opened,
    x: &[u32; MOST_STATIONS],
    y: &[u32; MOST_STATIONS],
    z: &[i32; MOST_STATIONS],
    levels: &[i32; MOST_LEVELS],
    work: &mut [u16; WORK_ROOM],
    slopes: &[i32; 5 * MOST_STATIONS],
    k: usize,
    room: &mut [u8; TEXT_ROOM],
) -> usize
    requires { AnyReady kind text.now opened x.now y.now z.now levels.now work.old slopes.now × (k < opened.levels) }
    ensures value { result ≡ length (block_at kind text.now k) }
    ensures room_after { room.new ≡ block_at kind text.now k ++ drop result room.old }
    ensures work_unchanged { work.new ≡ work.old }
{
    let n = opened.stations;
    let recorded = Recorded {
        triangles: opened.triangles,
        sides: opened.sides,
    };
    let xs: &[u32] = x;
    let ys: &[u32] = y;
    let zs: &[i32] = z;
    let w = level_text(
        &xs[..n],
        &ys[..n],
        &zs[..n],
        recorded,
        work,
        slopes,
        levels[k],
        opened.style,
        room,
    );
    bytes_of(w)
}
