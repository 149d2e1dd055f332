// Which manner a caller asks for.
ghost use Rattle.std.specs.Prelude.{◌≡◌, cond};
ghost use Rattle.transfer_matrix.specs.Job.{block, per_element};
ghost use Rattle.entry_correlations.specs.Correlations.{manner_of};

use crate::Manner;

// Is the sweep rescaled at every step?
pub fn is_elementwise(manner: Manner) -> bool
    ensures { cond result per_element block ≡ manner_of manner }
{
    manner == Manner::PerElement
}
