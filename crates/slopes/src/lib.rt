// The slopes job: p, q, r, s, t at every station.
#![tactic(auto)]

ghost use Rattle.std.specs.Prelude.{◌≡◌, ◌++◌, ◌≤◌, pos, length, drop, replicate};
ghost use Rattle.survey.specs.Fit.{Fit};
ghost use Rattle.survey.specs.Rooms.{slope_room};
ghost use Rattle.survey.specs.Survey.{survey};
ghost use Rattle.slopes.specs.Job.{sloped, slopes_of, room_after};

use crate::slope::{fill_first, fill_rows};
use nearest::fill_near;
use survey::check::check;
use survey::limits::MOST_STATIONS;
use survey::refusal::Refusal;
use survey::rooms::slope_room;

pub mod slope;

// The slopes of a survey that passed the checks. r, s and t of a station lean on p and q of its neighbours, so p and q of all come first.
pub fn fill(x: &[u32], y: &[u32], z: &[i32], room: &mut [i32])
    requires { Fit (survey x.now y.now z.now) × (slope_room (length x.now) ≤ length room.old) }
    ensures { room.new
        ≡ slopes_of (survey x.now y.now z.now)
        ++ drop (slope_room (length x.now)) room.old }
{
    let mut near = [0u16; 4 * MOST_STATIONS];
    let mut p = [0i32; MOST_STATIONS];
    let mut q = [0i32; MOST_STATIONS];
    fill_near(x, y, &mut near);
    fill_first(x, y, z, &near, &mut p, &mut q);
    fill_rows(x, y, &near, &p, &q, room);
}

// Zero in the first n numbers of a slope room.
pub fn clear(room: &mut [i32], n: usize)
    requires { n ≤ length room.old }
    ensures { room.new ≡ replicate n (pos 0) ++ drop n room.old }
{
    room[..n].fill(0);
}

// The job: refusals 1, 2, 3, 4, 6, or the slopes of every station.
pub fn slopes(x: &[u32], y: &[u32], z: &[i32], room: &mut [i32]) -> Result<(), Refusal>
    ensures { (result ≡ sloped (survey x.now y.now z.now) (length room.old))
        × (room.new ≡ room_after (survey x.now y.now z.now) result room.old) }
{
    check(x, y, z)?;
    if room.len() < slope_room(x.len()) {
        return Err(Refusal::Room);
    }
    fill(x, y, z, room);
    Ok(())
}
