// The standard pair set of a strip, and how many pairs it has through a reference.
ghost use Rattle.std.specs.Prelude.{◌≡◌};
ghost use Rattle.strip_pairs.specs.PairSet.{pair_set, pairs_refusal};
ghost use Rattle.c_values.specs.Kinds.{strip_numbered};
ghost use Rattle.export_strips.specs.PairSets.{Paired};

use c_answers::tell_number;
use c_values::strip_numbered;

// As `strip_pairs::pairs`, how many there are in `pairs`; where the call is refused, that keeps what it held.
#[unsafe(no_mangle)]
pub extern "C" fn copperhook_pairs(
    kind: usize,
    w: usize,
    l: usize,
    periodic: bool,
    us: &mut [usize],
    vs: &mut [usize],
    labels: &mut [u8],
    pairs: &mut usize,
) -> usize
    ensures { Paired (pairs_refusal (strip_numbered kind w l periodic) us.old vs.old labels.old)
        (pair_set (strip_numbered kind w l periodic)) result us.old us.new vs.old vs.new
        labels.old labels.new pairs.old pairs.new }
{
    let answer = strip_pairs::pairs(strip_numbered(kind, w, l, periodic), us, vs, labels);
    tell_number(answer, pairs)
}
