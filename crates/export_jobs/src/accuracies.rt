// How far the answers can be from the exact ones.
ghost use Rattle.std.specs.Prelude.{◌≡◌, true, false, []};
ghost use Rattle.error_bound.specs.Bound.{error_bound_of};
ghost use Rattle.error_bound.specs.Cases.{number_of, known_in, bound_in};

use c_answers::tell_found;

// As `error_bound::error_bound`: `known` tells whether a bound is known, and `bound` is then it. Where none is `bound` keeps what it held,
// and where the call is refused both do.
#[unsafe(no_mangle)]
pub extern "C" fn copperhook_error_bound(
    n: usize,
    floor: usize,
    a: &[usize],
    b: &[usize],
    m: &[f64],
    factors: &[f64],
    known: &mut bool,
    bound: &mut f64,
) -> usize
    ensures value { result ≡ number_of (error_bound_of n floor a.now b.now m.now [] factors.now false) }
    ensures known_after { known.new
        ≡ known_in (error_bound_of n floor a.now b.now m.now [] factors.now false) known.old }
    ensures bound_after { bound.new
        ≡ bound_in (error_bound_of n floor a.now b.now m.now [] factors.now false) bound.old }
{
    let answer = error_bound::error_bound(n, floor, a, b, m, factors);
    tell_found(answer, known, bound)
}

// As `error_bound::totals_error_bound`, told in the same way.
#[unsafe(no_mangle)]
pub extern "C" fn copperhook_totals_error_bound(
    n: usize,
    floor: usize,
    a: &[usize],
    b: &[usize],
    m: &[f64],
    betas: &[f64],
    factors: &[f64],
    known: &mut bool,
    bound: &mut f64,
) -> usize
    ensures value { result
        ≡ number_of (error_bound_of n floor a.now b.now m.now betas.now factors.now true) }
    ensures known_after { known.new
        ≡ known_in (error_bound_of n floor a.now b.now m.now betas.now factors.now true) known.old }
    ensures bound_after { bound.new
        ≡ bound_in (error_bound_of n floor a.now b.now m.now betas.now factors.now true) bound.old }
{
    let answer = error_bound::totals_error_bound(n, floor, a, b, m, betas, factors);
    tell_found(answer, known, bound)
}
