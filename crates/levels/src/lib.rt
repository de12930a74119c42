// The writer's test of the levels: document 01, "Text".
#![tactic(auto)]

ghost use Rattle.std.specs.Prelude.{◌≡◌, not, ◌||◌, pos};
ghost use Rattle.std.specs.Int.Signed.{lt_z};
ghost use Rattle.survey.specs.Limits.{most_height};
ghost use Rattle.rendering.specs.Writer.{is_level_list};

use survey::limits::{MOST_HEIGHT, MOST_LEVELS};

// Whether a level is not above the one before, or beyond the range.
fn is_wrong_level(before: i32, level: i32) -> bool
    ensures { result ≡ (not (lt_z before level) || lt_z (pos most_height) level) }
{
    level <= before || MOST_HEIGHT < level
}

// Whether the levels are 1 to 64 of the range, strictly rising.
pub fn is_level_list(levels: &[i32]) -> bool
    ensures { result ≡ is_level_list levels.now }
{
    if !(1..=MOST_LEVELS).contains(&levels.len()) {
        return false;
    }
    // Each level is held against the one before, which the loop keeps.
    let mut last = -MOST_HEIGHT - 1;
    for &level in levels {
        if is_wrong_level(last, level) {
            return false;
        }
        last = level;
    }
    true
}
