// From standard input to standard output: survey text in, contour text or the report of the served ground out, over the mesh of a kind.
// Nothing here but moves bytes: what they are is said in `program` and `reporting`.
// Kind and style are numbers here, as in the definitions. The flag `report` is theirs too (`heading_by`, `any_opening_by`): they tell both texts by
// one rule.
#![tactic(auto)]

ghost use Rattle.std.specs.Prelude.{cond, ◌++◌, ◌≡◌, ◌≤◌, ◌<◌, length, drop};
ghost use Rattle.program.specs.Opened.{AnyReady};
ghost use Rattle.program.specs.Program.{block_at};
ghost use Rattle.reporting.specs.Reporting.{figures_at};

use program::{Opened, TEXT_ROOM, WORK_ROOM};
use std::io::Read;
use survey::limits::{MOST_LEVELS, MOST_STATIONS, MOST_TAG, MOST_TEXT};

// Begins a message on standard error with the name of the program of kind 0 that writes the same text. Where standard error does not take
// it, there is nowhere to tell.
fn begin_message(rt: &impl Eprint, report: bool) {
    if report {
        let _ = rt.eprint("served");
        return;
    }
    let _ = rt.eprint("contour");
}

// Writes the first bytes of the room, and tells on standard error where they are not taken.
fn say(rt: &(impl Print + Eprint), report: bool, room: &[u8; TEXT_ROOM], bytes: usize) -> bool
    requires { bytes ≤ length room.now }
{
    if rt.write_all(&room[..bytes]).is_ok() {
        return true;
    }
    begin_message(rt, report);
    let _ = rt.eprint(": standard output is closed or full\n");
    false
}

// The figures or the lines of level k of an opened text, at the front of the room, and their bytes. The work room is as it was.
fn put_level(
    report: bool,
    text: &[u8],
    kind: u32,
    opened: Opened,
    x: &[u32; MOST_STATIONS],
    y: &[u32; MOST_STATIONS],
    z: &[i32; MOST_STATIONS],
    levels: &[i32; MOST_LEVELS],
    work: &mut [u16; WORK_ROOM],
    slopes: &[i32; 5 * MOST_STATIONS],
    k: usize,
    room: &mut [u8; TEXT_ROOM],
) -> usize
    requires { AnyReady kind text.now opened x.now y.now z.now levels.now work.old slopes.now × (k < opened.levels) }
    ensures value { result ≡ length (cond report (figures_at kind text.now k) (block_at kind text.now k)) }
    ensures room_after { room.new
        ≡ cond report (figures_at kind text.now k) (block_at kind text.now k) ++ drop result room.old }
    ensures work_unchanged { work.new ≡ work.old }
{
    if report {
        return reporting::figures(text, kind, opened, x, y, z, levels, work, slopes, k, room);
    }
    program::block(text, kind, opened, x, y, z, levels, work, slopes, k, room)
}

// Writes the opening of a text, and then what it says of each level, as long as they are taken.
fn answer(rt: &(impl Print + Eprint), text: &[u8], kind: u32, report: bool) {
    let mut x = [0u32; MOST_STATIONS];
    let mut y = [0u32; MOST_STATIONS];
    let mut z = [0i32; MOST_STATIONS];
    let mut tags = [0u8; MOST_TAG * MOST_STATIONS];
    let mut levels = [0i32; MOST_LEVELS];
    let mut work = [0u16; WORK_ROOM];
    let mut slopes = [0i32; 5 * MOST_STATIONS];
    let mut room = [0u8; TEXT_ROOM];
    let opened = program::open_any(
        text,
        kind,
        report,
        &mut x,
        &mut y,
        &mut z,
        &mut tags,
        &mut levels,
        &mut work,
        &mut slopes,
        &mut room,
    );
    if !say(rt, report, &room, opened.bytes) {
        return;
    }
    for k in 0..opened.levels {
        let bytes = put_level(
            report, text, kind, opened, &x, &y, &z, &levels, &mut work, &slopes, k, &mut room,
        );
        if !say(rt, report, &room, bytes) {
            return;
        }
    }
}

// Reads until the room is full, the input ends or a read fails, and says how many bytes stand at its front.
fn read_full(input: &mut impl Read, room: &mut [u8]) -> usize
    ensures { result ≤ length room.new }
{
    let mut n = 0;
    // A read says how many bytes it gave, so there is no range to go over.
    while n < room.len() {
        match input.read(&mut room[n..]) {
            Ok(0) | Err(_) => break,
            Ok(more) => n += more,
        }
    }
    n
}

// All of a program of a kind, which writes the report or contour text. One byte more than the limit shows that the text is too long. It gives
// nothing back and is lent the runtime alone; which bytes are read and written the library's functions do not say, so neither does it.
fn run_any(rt: &(impl Input + Print + Eprint), kind: u32, report: bool) {
    let mut text = [0u8; MOST_TEXT + 1];
    let n = read_full(&mut rt.reader(), &mut text);
    answer(rt, &text[..n], kind, report);
}

// The program that writes contour text.
pub fn run(rt: &(impl Input + Print + Eprint), kind: u32) {
    run_any(rt, kind, false);
}

// The program that writes the report.
pub fn run_report(rt: &(impl Input + Print + Eprint), kind: u32) {
    run_any(rt, kind, true);
}
