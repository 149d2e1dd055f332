// The edges of a strip, whole or diluted, and their number through a reference.
ghost use Rattle.std.specs.Prelude.{◌≡◌, length};
ghost use Rattle.strip_dilution.specs.Diluted.{dilution, diluted_refusal, magnitudes};
ghost use Rattle.strip_edges.specs.RawEdges.{raw_refusal};
ghost use Rattle.strip_bonds.specs.Edges.{edges as edges_of, unit_magnitudes};
ghost use Rattle.c_values.specs.Kinds.{strip_numbered};
ghost use Rattle.export_strips.specs.Strips.{StripEdges};

use c_answers::tell_number;
use c_values::strip_numbered;

// As `strip_edges::raw_edges`, how many there are in `edges`; where the call is refused, that keeps what it held.
#[unsafe(no_mangle)]
pub extern "C" fn copperhook_raw_edges(
    kind: usize,
    w: usize,
    l: usize,
    periodic: bool,
    early: &mut [usize],
    late: &mut [usize],
    mag: &mut [f64],
    edges: &mut usize,
) -> usize
    ensures { StripEdges (raw_refusal (strip_numbered kind w l periodic) early.old late.old mag.old)
        (strip_numbered kind w l periodic) (unit_magnitudes (edges_of (strip_numbered kind w l periodic))) result early.old early.new
        late.old late.new mag.old mag.new edges.old edges.new }
{
    let answer = strip_edges::raw_edges(strip_numbered(kind, w, l, periodic), early, late, mag);
    tell_number(answer, edges)
}

// As `strip_dilution::diluted`, how many edges there are in `edges`; where the call is refused, that keeps what it held.
#[unsafe(no_mangle)]
pub extern "C" fn copperhook_diluted(
    kind: usize,
    w: usize,
    l: usize,
    periodic: bool,
    keep: f64,
    low: f64,
    high: f64,
    seed: u64,
    early: &mut [usize],
    late: &mut [usize],
    mag: &mut [f64],
    edges: &mut usize,
) -> usize
    ensures { StripEdges (diluted_refusal (strip_numbered kind w l periodic) (dilution keep low high) early.old late.old mag.old)
        (strip_numbered kind w l periodic) (magnitudes (dilution keep low high) seed (length (edges_of (strip_numbered kind w l periodic)))) result
        early.old early.new late.old late.new mag.old mag.new
        edges.old edges.new }
{
    let answer = strip_dilution::diluted(
        strip_numbered(kind, w, l, periodic),
        keep,
        low,
        high,
        seed,
        early,
        late,
        mag,
    );
    tell_number(answer, edges)
}
