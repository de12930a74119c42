// The stations that a station's slopes lean on: document 01, "Slopes".
#![tactic(auto)]

ghost use Rattle.std.specs.Prelude.{ℕ, Bool, ◌≡◌, [], ◌∷◌, ◌++◌, ◌+◌, ◌*◌, ◌≤◌, ◌<◌, length, drop};
ghost use Rattle.std.proofs.lemmas.List.Edits.{sets};
ghost use Rattle.whole.specs.Place.{place};
ghost use Rattle.survey.specs.Checks.{is_turn};
ghost use Rattle.survey.specs.Limits.{most_coordinate};
ghost use Rattle.nearest.specs.Places.{places, Placed};
ghost use Rattle.nearest.specs.Nearest.{gap, squared_distance, distance_from, is_other, neighbours};
ghost use Rattle.nearest.specs.Four.{put_four, put_where, four_where, Tests, Rising, near_of, has_off_line, near_row};
ghost use Rattle.lists.specs.Rows.{rows};

// Farther than any two places are: a station that is missing stands so far off, so that any other comes before it by size alone.
const FAR: u32 = u32::MAX;

// A station and its squared distance.
#[derive(Clone, Copy)]
pub struct Taken {
    pub distance: u32,
    pub station: usize,
}

// Up to four stations, the nearest first.
#[derive(Clone, Copy)]
pub struct Four {
    pub a: Taken,
    pub b: Taken,
    pub c: Taken,
    pub d: Taken,
}

// The four stations that a station's slopes lean on. The station itself stands for one that is missing: its step is nothing, so that a
// pair with it is skipped. Each has a name of its own, as in the row that is kept of it and in the definition of the row.
#[derive(Clone, Copy)]
pub struct Near {
    pub a: usize,
    pub b: usize,
    pub c: usize,
    pub d: usize,
}

// The squared distance of two places.
fn squared_distance(ax: u32, ay: u32, bx: u32, by: u32) -> u32
    requires { (ax ≤ most_coordinate) × (ay ≤ most_coordinate) × (bx ≤ most_coordinate) × (by ≤ most_coordinate) }
    ensures { result ≡ squared_distance (place ax ay) (place bx by) }
{
    let dx = ax.abs_diff(bx);
    let dy = ay.abs_diff(by);
    dx * dx + dy * dy
}

// Station k at a distance, put among four: before the first that is farther. Most are farther than the fourth, so it is looked at first.
fn put_four(f: Four, distance: u32, k: usize) -> Four
    requires { Rising f }
    ensures { (result ≡ put_four f distance k) × Rising result }
{
    let taken = Taken {
        distance,
        station: k,
    };
    if f.d.distance <= distance {
        f
    } else if distance < f.a.distance {
        Four {
            a: taken,
            b: f.a,
            c: f.b,
            d: f.c,
        }
    } else if distance < f.b.distance {
        Four {
            b: taken,
            c: f.b,
            d: f.c,
            ..f
        }
    } else if distance < f.c.distance {
        Four {
            c: taken,
            d: f.c,
            ..f
        }
    } else {
        Four { d: taken, ..f }
    }
}

// The squared distance of stations i and k.
fn distance_of(x: &[u32], y: &[u32], i: usize, k: usize) -> u32
    requires { Placed x.now y.now × (i < length x.now) × (k < length x.now) }
    ensures { result ≡ distance_from (places x.now y.now) i k }
{
    squared_distance(x[i], y[i], x[k], y[k])
}

// The nearest to station i of the stations that pass a test.
fn nearest_where<F: Fn(usize) -> bool>(x: &[u32], y: &[u32], i: usize, passes: F) -> Four
    requires placed { Placed x.now y.now × (i < length x.now) }
    requires callable { (k : ℕ) → k < length x.now → F.pre passes k }
    ensures { (p : ℕ → Bool) → Tests (F.post passes) (length x.now) p → result ≡ four_where (places x.now y.now) i p }
{
    let none = Taken {
        distance: FAR,
        station: i,
    };
    let mut f = Four {
        a: none,
        b: none,
        c: none,
        d: none,
    };
    for k in 0..x.len() {
        if passes(k) {
            f = put_four(f, distance_of(x, y, i, k), k);
        }
    }
    f
}

// The nearest others of station i.
fn nearest_others(x: &[u32], y: &[u32], i: usize) -> Four
    requires { Placed x.now y.now × (i < length x.now) }
    ensures { result ≡ four_where (places x.now y.now) i (is_other (places x.now y.now) i) }
{
    nearest_where(x, y, i, |k| k != i)
}

// Whether station k is off the line of stations i and a.
fn is_off_line(x: &[u32], y: &[u32], i: usize, a: usize, k: usize) -> bool
    requires { Placed x.now y.now × (i < length x.now) × (a < length x.now) × (k < length x.now) }
    ensures { result ≡ is_turn (places x.now y.now) i a k }
{
    whole::turn::turn_at(x[i], y[i], x[a], y[a], x[k], y[k]) != 0
}

// The nearest to station i off its line with station a.
fn nearest_off_line(x: &[u32], y: &[u32], i: usize, a: usize) -> Four
    requires { Placed x.now y.now × (i < length x.now) × (a < length x.now) }
    ensures { result ≡ four_where (places x.now y.now) i (is_turn (places x.now y.now) i a) }
{
    nearest_where(x, y, i, |k| is_off_line(x, y, i, a, k))
}

// Whether one of stations b, c, d is off the line of stations i and a.
fn has_off_line(x: &[u32], y: &[u32], i: usize, f: Near) -> bool
    requires { Placed x.now y.now × (i < length x.now) × (f.a < length x.now) × (f.b < length x.now)
        × (f.c < length x.now) × (f.d < length x.now) }
    ensures { result ≡ has_off_line (places x.now y.now) i f }
{
    is_off_line(x, y, i, f.a, f.b)
        || is_off_line(x, y, i, f.a, f.c)
        || is_off_line(x, y, i, f.a, f.d)
}

// The stations that station i's slopes lean on.
pub fn neighbours_of(x: &[u32], y: &[u32], i: usize) -> Near
    requires { Placed x.now y.now × (i < length x.now) }
    ensures { result ≡ near_of i (neighbours (places x.now y.now) i) }
{
    let f = nearest_others(x, y, i);
    let taken = Near {
        a: f.a.station,
        b: f.b.station,
        c: f.c.station,
        d: f.d.station,
    };
    if has_off_line(x, y, i, taken) {
        return taken;
    }
    let off = nearest_off_line(x, y, i, taken.a);
    Near {
        d: off.a.station,
        ..taken
    }
}

// The four of station i, kept as its row.
fn put_near(near: &mut [u16], i: usize, f: Near)
    requires { (i ≤ 65535) × (4 * i + 4 ≤ length near.old) × (f.a ≤ 65535) × (f.b ≤ 65535) × (f.c ≤ 65535) × (f.d ≤ 65535) }
    ensures { near.new ≡ sets near.old (4 * i) (f.a ∷ f.b ∷ f.c ∷ f.d ∷ []) }
{
    near[4 * i..4 * i + 4].copy_from_slice(&[f.a as u16, f.b as u16, f.c as u16, f.d as u16]);
}

// The neighbours of every station.
pub fn fill_near(x: &[u32], y: &[u32], near: &mut [u16])
    requires { Placed x.now y.now × (4 * length x.now ≤ length near.old) }
    ensures { near.new
        ≡ rows (near_row (places x.now y.now)) (length x.now)
        ++ drop (4 * length x.now) near.old }
{
    for i in 0..x.len() {
        put_near(near, i, neighbours_of(x, y, i));
    }
}
