// The rounding rule of document 01, "Slopes", as document 02 has it, for slopes, second slopes, D and E alike.
ghost use Rattle.std.specs.Prelude.{◌≡◌, ◌≤◌, ◌<◌};
ghost use Rattle.whole.specs.Range.{Within};
ghost use Rattle.whole.specs.Rounding.{rounded};

// n / d rounded to the nearest whole number, a half going away from zero. The machine's division goes toward zero, so that it is given a
// half more in size.
pub fn round_div(n: i64, d: u64) -> i64
    requires { Within 1152921504606846976 n × (0 < d) × (d ≤ 1152921504606846976) }
    ensures { result ≡ rounded n d }
{
    let e = d as i64;
    if n < 0 {
        (2 * n - e) / (2 * e)
    } else {
        (2 * n + e) / (2 * e)
    }
}
