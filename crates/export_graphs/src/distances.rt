// The distance of two vertices, and whether there is one.
ghost use Rattle.std.specs.Prelude.{◌≡◌};
ghost use Rattle.refusals.specs.Edges.{kept_early, kept_late};
ghost use Rattle.refusals.specs.Request.{distance_request};
ghost use Rattle.refusals.specs.Refusal.{refusal, of_distance};
ghost use Rattle.export_graphs.specs.Distances.{Told};

use c_answers::tell_found;

// As `graph::distance`: `joined` tells whether a walk leads from u to v, and `edges` the least number of its edges. Where the call is
// refused both keep what they held, and where no walk leads there `edges` does.
#[unsafe(no_mangle)]
pub extern "C" fn copperhook_distance(
    n: usize,
    a: &[usize],
    b: &[usize],
    m: &[f64],
    u: usize,
    v: usize,
    joined: &mut bool,
    edges: &mut usize,
) -> usize
    ensures { Told (refusal of_distance (distance_request n a.now b.now m.now u v))
        (kept_early a.now b.now m.now) (kept_late a.now b.now m.now)
        u v result joined.old joined.new edges.old edges.new }
{
    let answer = graph::distance(n, a, b, m, u, v);
    tell_found(answer, joined, edges)
}
