// The cut to a bound of document 01, "Slopes" and "The curve along a side".
ghost use Rattle.std.specs.Prelude.{◌≡◌, ◌≤◌};
ghost use Rattle.whole.specs.Cut.{cut};

// v, or the bound on its side if v is beyond it.
pub fn cut_to(bound: u64, v: i64) -> i64
    requires { bound ≤ 4611686018427387904 }
    ensures { result ≡ cut bound v }
{
    let b = bound as i64;
    v.clamp(-b, b)
}
