// The couplings of a graph, which the host turns into factors.
#![tactic(auto)]

ghost use Rattle.std.specs.Prelude.{◌≡◌, ◌+◌, ◌*◌, ◌≤◌, length, get_or};
ghost use Rattle.std.specs.Float.{nan, binary64};
ghost use Rattle.std.specs.Float.Ieee.{mul};
ghost use Rattle.limits.specs.Limits.{most_betas, most_edges};
ghost use Rattle.list_laws.specs.Part.{put};
ghost use Rattle.list_laws.specs.Tabulate.{tabulate};
ghost use Rattle.refusals.specs.Numbers.{refused};
ghost use Rattle.couplings.specs.Couplings.{all_couplings, Coupled};

use graph_build::check_graph;
use limits::EDGES;
use refusals::Refusal;

// The couplings of one beta to the results, from `at` on.
fn couple_at(results: &mut [f64], at: usize, beta: f64, mag: &[f64])
    requires { at + length mag.now ≤ length results.old }
    ensures { results.new
        ≡ put results.old at (tabulate (λ e. mul binary64 beta (get_or mag.now e nan)) (length mag.now)) }
{
    for (e, m) in mag.iter().enumerate() {
        results[at + e] = beta * *m;
    }
}

// The couplings of all betas, one beta after another.
fn couple(results: &mut [f64], betas: &[f64], mag: &[f64])
    requires { (length results.old ≡ length betas.now * length mag.now) × (length results.old ≤ most_betas * most_edges) }
    ensures { results.new ≡ all_couplings betas.now mag.now }
{
    for (b, beta) in betas.iter().enumerate() {
        couple_at(results, b * mag.len(), *beta, mag);
    }
}

// Writes beta times magnitude to `results`, for each beta and kept edge.
pub fn couplings(
    n: usize,
    a: &[usize],
    b: &[usize],
    m: &[f64],
    betas: &[f64],
    results: &mut [f64],
) -> Result<(), Refusal>
    ensures { Coupled n a.now b.now m.now betas.now (refused result)
        results.old results.new }
{
    let mut early = [0usize; EDGES];
    let mut late = [0usize; EDGES];
    let mut mag = [0.0f64; EDGES];
    let none = &a[..0];
    let edges = check_graph(
        n, a, b, m, none, none, betas, &mut early, &mut late, &mut mag,
    )?;
    if results.len() != betas.len() * edges {
        return Err(Refusal::Buffer);
    }
    couple(results, betas, &mag[..edges]);
    Ok(())
}
