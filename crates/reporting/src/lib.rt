// The work of the report programs: of a survey's text that `program` has opened, each level gives its figures.
// The kind is a number here, as in the definitions.
#![tactic(auto)]

ghost use Rattle.std.specs.Prelude.{◌≡◌, ◌++◌, ◌<◌, length, drop};
ghost use Rattle.program.specs.Opened.{AnyReady};
ghost use Rattle.reporting.specs.Reporting.{figures_at};

use program::{Opened, TEXT_ROOM, WORK_ROOM};
use survey::limits::{MOST_LEVELS, MOST_STATIONS};

// The figures of level k of an opened text, at the front of the room, and their bytes. The text and the kind are there so that the contract
// can say whose figures they are.
pub fn figures(
    text: &[u8],
    kind: u32,
    opened: Opened,
    x: &[u32; MOST_STATIONS],
    y: &[u32; MOST_STATIONS],
    z: &[i32; MOST_STATIONS],
    levels: &[i32; MOST_LEVELS],
    work: &[u16; WORK_ROOM],
    slopes: &[i32; 5 * MOST_STATIONS],
    k: usize,
    room: &mut [u8; TEXT_ROOM],
) -> usize
    requires { AnyReady kind text.now opened x.now y.now z.now levels.now work.now slopes.now × (k < opened.levels) }
    ensures value { result ≡ length (figures_at kind text.now k) }
    ensures room_after { room.new ≡ figures_at kind text.now k ++ drop result room.old }
{
    let n = opened.stations;
    let xs: &[u32] = x;
    let ys: &[u32] = y;
    let zs: &[i32] = z;
    let level = levels[k];
    let counted = served::count(
        &xs[..n],
        &ys[..n],
        &zs[..n],
        work,
        opened.triangles,
        slopes,
        level,
        opened.style,
    );
    let w = report::block(level, counted.served, counted.unserved, room);
    program::bytes_of(w)
}
