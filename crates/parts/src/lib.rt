// Doors to the rules below the jobs, so that each can be held against an independent program. They are no part of the library.
#![tactic(auto)]

pub mod blocks;
pub mod bracket;
pub mod quick;

ghost use Rattle.std.specs.Prelude.{◌≡◌, cond};
ghost use Rattle.whole.specs.Rounding.{rounded};
ghost use Rattle.whole.specs.Cut.{cut};
ghost use Rattle.whole.specs.Place.{place};
ghost use Rattle.whole.specs.Turn.{turn};
ghost use Rattle.parts.specs.Parts.{flag, can_round, can_cut, can_turn};

// Whether the quotient can be asked.
fn can_round(n: i64, d: u64) -> bool
    ensures { result ≡ can_round n d }
{
    -1152921504606846976 <= n && n <= 1152921504606846976 && 1 <= d && d <= 1152921504606846976
}

// n / d rounded, into r.
#[unsafe(no_mangle)]
pub extern "C" fn parts_rounded(n: i64, d: u64, r: &mut i64) -> u32
    ensures { (result ≡ flag (can_round n d)) × (r.new ≡ cond (can_round n d) (rounded n d) r.old) }
{
    if can_round(n, d) {
        *r = whole::rounding::round_div(n, d);
        return 1;
    }
    0
}

// v cut to the bound, into r.
#[unsafe(no_mangle)]
pub extern "C" fn parts_cut(v: i64, bound: u64, r: &mut i64) -> u32
    ensures { (result ≡ flag (can_cut bound)) × (r.new ≡ cond (can_cut bound) (cut bound v) r.old) }
{
    if bound <= 4611686018427387904 {
        *r = whole::cut::cut_to(bound, v);
        return 1;
    }
    0
}

// Whether the turn can be asked.
fn can_turn(ax: u32, ay: u32, bx: u32, by: u32, cx: u32, cy: u32) -> bool
    ensures { result ≡ can_turn ax ay bx by cx cy }
{
    ax <= 1073741823
        && ay <= 1073741823
        && bx <= 1073741823
        && by <= 1073741823
        && cx <= 1073741823
        && cy <= 1073741823
}

// Twice the signed area of a, b, c, into r.
#[unsafe(no_mangle)]
pub extern "C" fn parts_turn(
    ax: u32,
    ay: u32,
    bx: u32,
    by: u32,
    cx: u32,
    cy: u32,
    r: &mut i64,
) -> u32
    ensures { (result ≡ flag (can_turn ax ay bx by cx cy))
        × (r.new ≡ cond (can_turn ax ay bx by cx cy) (turn (place ax ay) (place bx by) (place cx cy)) r.old) }
{
    if can_turn(ax, ay, bx, by, cx, cy) {
        *r = whole::turn::turn_at(ax, ay, bx, by, cx, cy);
        return 1;
    }
    0
}
