// The factors that a caller lends.
ghost use Rattle.std.specs.Prelude.{◌≡◌};
ghost use Rattle.refusals.specs.Request.{passes as passes_test, bad_factor_list};

// Finite and above zero.
pub fn passes(x: f64) -> bool
    ensures { result ≡ passes_test x }
{
    (0.0 < x) & (x < 1.0 / 0.0)
}

// 10. The factor list has another length, or an entry isn't finite and above zero.
pub fn bad_factors(factors: &[f64], count: usize) -> bool
    ensures { result ≡ bad_factor_list factors.now count }
{
    if factors.len() != count {
        return true;
    }
    for x in factors {
        if !passes(*x) {
            return true;
        }
    }
    false
}
