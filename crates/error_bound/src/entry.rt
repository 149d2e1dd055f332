// How far the answers for a graph can be from the exact ones, for callers.
ghost use Rattle.std.specs.Prelude.{◌≡◌, true, false, cond, [], ◌≤◌};
ghost use Rattle.limits.specs.Limits.{most_betas, most_edges};
ghost use Rattle.transfer_matrix.specs.Job.{too_many_near};
ghost use Rattle.transfer_matrix.specs.Configuration.{numbered};
ghost use Rattle.refusals.specs.Numbers.{by_number};
ghost use Rattle.refusals.specs.Request.{bad_factor_list};
ghost use Rattle.plan_steps.specs.Edges.{Edges};
ghost use Rattle.error_bound.specs.Bound.{bound_of, most_near, factor_count, error_bound_of};

use crate::bound::{bound_of, most_bits, near_one};
use crate::near::most_near;
use buffer_checks::bad_factors;
use job_checks::check_with_betas;
use limits::{Caller, EDGES};
use refusals::Refusal;

// Check 10, and the bound of a graph that 1 to 7 pass.
fn bound_kept(
    n: usize,
    w: usize,
    early: &[usize],
    late: &[usize],
    factors: &[f64],
    count: usize,
) -> Result<Option<f64>, Refusal>
    requires { Edges early.now late.now n w × (too_many_near n w (numbered early.now late.now) ≡ false) }
    ensures { by_number result ≡ bound_of (cond (bad_factor_list factors.now count) 10 0) n w
        (most_near n w (numbered early.now late.now)) factors.now }
{
    if bad_factors(factors, count) {
        return Err(Refusal::Factors);
    }
    let near = most_near(n, w, early, late);
    if near_one(factors, most_bits(w, near)) {
        return Ok(Some(bound_of(n, w, near)));
    }
    Ok(None)
}

// How many factors there should be: one for each kept edge or, signed, two for each beta and kept edge.
fn factor_count(betas: usize, edges: usize, signed: bool) -> usize
    requires { (betas ≤ most_betas) × (edges ≤ most_edges) }
    ensures { result ≡ factor_count signed betas edges }
{
    if signed {
        return 2 * (betas * edges);
    }
    edges
}

fn bound_job(
    n: usize,
    floor: usize,
    a: &[usize],
    b: &[usize],
    m: &[f64],
    betas: &[f64],
    factors: &[f64],
    signed: bool,
) -> Result<Option<f64>, Refusal>
    ensures { by_number result ≡ error_bound_of n floor a.now b.now m.now betas.now factors.now signed }
{
    let mut early = [0usize; EDGES];
    let mut late = [0usize; EDGES];
    let mut mag = [0.0f64; EDGES];
    let job = check_with_betas(
        Caller::Desk,
        n,
        floor,
        a,
        b,
        m,
        &a[..0],
        &a[..0],
        betas,
        &mut early,
        &mut late,
        &mut mag,
    )?;
    let w = job.window;
    let edges = job.edges;
    let count = factor_count(betas.len(), edges, signed);
    bound_kept(n, w, &early[..edges], &late[..edges], factors, count)
}

// How far each result of `correlations` can be from the exact correlation, for the same graph, floor and factors; none where no bound is proved, the
// factors being too far from one.
pub fn error_bound(
    n: usize,
    floor: usize,
    a: &[usize],
    b: &[usize],
    m: &[f64],
    factors: &[f64],
) -> Result<Option<f64>, Refusal>
    ensures { by_number result ≡ error_bound_of n floor a.now b.now m.now [] factors.now false }
{
    bound_job(n, floor, a, b, m, &m[..0], factors, false)
}

// The same of each correlation that `exhaustive` and `sample` sum and `exhaustive_c` stores: two factors for each beta and kept edge.
pub fn totals_error_bound(
    n: usize,
    floor: usize,
    a: &[usize],
    b: &[usize],
    m: &[f64],
    betas: &[f64],
    factors: &[f64],
) -> Result<Option<f64>, Refusal>
    ensures { by_number result ≡ error_bound_of n floor a.now b.now m.now betas.now factors.now true }
{
    bound_job(n, floor, a, b, m, betas, factors, true)
}
