// The checks of a dilution's numbers, each with the test that it answers.
ghost use Rattle.std.specs.Prelude.{◌≡◌, not, ◌||◌};
ghost use Rattle.std.specs.Float.Ieee.Scale.{finite};
ghost use Rattle.refusals.specs.Request.{oversized};

fn is_finite(x: f64) -> bool
    ensures { result ≡ finite x }
{
    (-(1.0 / 0.0) < x) & (x < 1.0 / 0.0)
}

fn is_oversized(x: f64) -> bool
    ensures { result ≡ oversized x }
{
    !((-1024.0 <= x) & (x <= 1024.0))
}

// 17. Keep isn't finite, or a magnitude bound isn't finite or its size is above 1,024.
pub(crate) fn bad_dilution(keep: f64, low: f64, high: f64) -> bool
    ensures { result ≡ (not (finite keep) || oversized low || oversized high) }
{
    !is_finite(keep) | is_oversized(low) | is_oversized(high)
}
