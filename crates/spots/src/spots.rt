// The spots of crossed sides.
// The style is a number here, as in the definitions: the curve is defined for every one.
ghost use Rattle.std.specs.Prelude.{◌≡◌, ◌++◌, ℕ, ◌/◌, ◌%◌, ◌≤◌, ◌<◌, length, get_or, drop};
ghost use Rattle.lists.specs.Table.{table};
ghost use Rattle.whole.specs.Range.{Within};
ghost use Rattle.survey.specs.Limits.{most_height};
ghost use Rattle.survey.specs.Survey.{survey};
ghost use Rattle.spots.specs.Lines.{end_at, spot_between, spot_at};
ghost use Rattle.spots.specs.Prepared.{Listed, Crossing};

use curve::side::End;
use curve::spot::Spot;

// Station k at an end of a side.
fn end_at(x: &[u32], y: &[u32], z: &[i32], slopes: &[i32], k: usize) -> End
    requires { Listed (survey x.now y.now z.now) slopes.now × (k < length x.now) × (k ≤ 65535) }
    ensures { result ≡ end_at (survey x.now y.now z.now) slopes.now k }
{
    End {
        x: x[k],
        y: y[k],
        z: z[k],
        p: slopes[5 * k],
        q: slopes[5 * k + 1],
        r: slopes[5 * k + 2],
        s: slopes[5 * k + 3],
        t: slopes[5 * k + 4],
    }
}

// The spot on the crossed side from station i to station j.
pub fn spot_between(
    x: &[u32],
    y: &[u32],
    z: &[i32],
    slopes: &[i32],
    level: i32,
    style: u32,
    i: usize,
    j: usize,
) -> Spot
    requires { Listed (survey x.now y.now z.now) slopes.now × Within most_height level
        × Crossing (survey x.now y.now z.now) slopes.now level i j }
    ensures { result ≡ spot_between (survey x.now y.now z.now) slopes.now style level i j }
{
    let low = end_at(x, y, z, slopes, i);
    let high = end_at(x, y, z, slopes, j);
    let k = curve::bracket::bracket(low, high, level, style);
    curve::spot::spot_of(low, high, k)
}

// The lower station of the side that a number stands for, and the higher one.
fn low_of(side: u32) -> usize
    ensures { result ≡ side / 65536 }
{
    (side / 65536) as usize
}

fn high_of(side: u32) -> usize
    ensures { result ≡ side % 65536 }
{
    (side % 65536) as usize
}

// The spots of v sides, whose numbers stand at the front of `vx`: their coordinates from the front of the two rooms.
pub fn fill_spots(
    x: &[u32],
    y: &[u32],
    z: &[i32],
    slopes: &[i32],
    level: i32,
    style: u32,
    v: usize,
    vx: &mut [u32],
    vy: &mut [u32],
)
    requires { Listed (survey x.now y.now z.now) slopes.now × Within most_height level
        × ((k : ℕ) → k < v → Crossing (survey x.now y.now z.now) slopes.now level (get_or vx.old k 0 / 65536) (get_or vx.old k 0 % 65536))
        × (v ≤ length vx.old) × (v ≤ length vy.old) }
    ensures of_x { vx.new
        ≡ table (λ k. (spot_at (survey x.now y.now z.now) slopes.now style level (get_or vx.old k 0)).x) v
        ++ drop v vx.old }
    ensures of_y { vy.new
        ≡ table (λ k. (spot_at (survey x.now y.now z.now) slopes.now style level (get_or vx.old k 0)).y) v
        ++ drop v vy.old }
{
    for k in 0..v {
        let side = vx[k];
        let spot = spot_between(x, y, z, slopes, level, style, low_of(side), high_of(side));
        vx[k] = spot.x;
        vy[k] = spot.y;
    }
}
