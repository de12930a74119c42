// What the door says of an answer: the number of document 01, and in `at` what it carries. A refusal writes `at` and nothing else.
ghost use Rattle.std.specs.Prelude.{◌≡◌, ◌^◌, ◌<◌, IfOk};
ghost use Rattle.survey.specs.Answers.{checked_gives, meshed_gives, drawn_gives, height_gives};
ghost use Rattle.survey.specs.Refusals.{number_of, carried_by};
ghost use Rattle.thawpebble.specs.Door.{number, carried, vertices_after, own_after, between_after};

use survey::answers::{Drawn, Height};
use survey::refusal::{Refusal, carried, number};

// A refusal.
pub fn refuse(why: Refusal, at: &mut u32) -> u32
    ensures { (result ≡ number_of why) × (at.new ≡ carried_by why) }
{
    *at = carried(why);
    number(why)
}

// That a job is done.
pub fn tell_done(answer: Result<(), Refusal>, at: &mut u32) -> u32
    ensures { (result ≡ number (checked_gives answer)) × (at.new ≡ carried (checked_gives answer)) }
{
    match answer {
        Ok(()) => {
            *at = 0;
            0
        }
        Err(why) => refuse(why, at),
    }
}

// A count.
pub fn tell_count(answer: Result<usize, Refusal>, at: &mut u32) -> u32
    requires { IfOk answer (λ n. n < 2 ^ 32) }
    ensures { (result ≡ number (meshed_gives answer)) × (at.new ≡ carried (meshed_gives answer)) }
{
    match answer {
        Ok(count) => {
            *at = count as u32;
            0
        }
        Err(why) => refuse(why, at),
    }
}

// The counts of lines and of their vertices, which go into `at` and n.
pub fn tell_lines(answer: Result<Drawn, Refusal>, at: &mut u32, n: &mut u32) -> u32
    requires { IfOk answer (λ d. (d.lines < 2 ^ 32) × (d.vertices < 2 ^ 32)) }
    ensures { (result ≡ number (drawn_gives answer)) × (at.new ≡ carried (drawn_gives answer))
        × (n.new ≡ vertices_after answer n.old) }
{
    match answer {
        Ok(drawn) => {
            *at = drawn.lines as u32;
            *n = drawn.vertices as u32;
            0
        }
        Err(why) => refuse(why, at),
    }
}

// Which of the three heights it is, in `at`, and the height in `own` or in `between`.
pub fn tell_height(
    answer: Result<Height, Refusal>,
    at: &mut u32,
    own: &mut i32,
    between: &mut f64,
) -> u32
    ensures { (result ≡ number (height_gives answer)) × (at.new ≡ carried (height_gives answer))
        × (own.new ≡ own_after answer own.old) × (between.new ≡ between_after answer between.old) }
{
    match answer {
        Ok(Height::Own { z }) => {
            *at = 0;
            *own = z;
            *between = 0.0;
            0
        }
        Ok(Height::Between { z }) => {
            *at = 1;
            *own = 0;
            *between = z;
            0
        }
        Ok(Height::Outside) => {
            *at = 2;
            *own = 0;
            *between = 0.0;
            0
        }
        Err(why) => refuse(why, at),
    }
}
