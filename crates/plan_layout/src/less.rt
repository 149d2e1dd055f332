// Which arrangement a caller asks for.
ghost use Rattle.std.specs.Prelude.{◌≡◌};
ghost use Rattle.transfer_matrix.specs.Room.{arranged};
ghost use Rattle.plan_layout.specs.Arrangements.{arrangement_of};

use crate::Arrangement;

// Returns whether less room is taken.
pub fn takes_less(arrangement: Arrangement) -> bool
    ensures { arranged result ≡ arrangement_of arrangement }
{
    arrangement == Arrangement::LessRoom
}
