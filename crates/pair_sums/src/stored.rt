// The largest entry of a vector of which a place holds the lower half, and when it is taken.
ghost use Rattle.std.specs.Prelude.{◌≡◌, ◌-◌, ◌^◌, length};
ghost use Rattle.list_laws.specs.Tabulate.{tabulate};
ghost use Rattle.transfer_matrix.specs.Rounded.{ieee};
ghost use Rattle.transfer_matrix.specs.Sweep as S;
ghost use Rattle.step_tables.specs.Place.{Place};
ghost use Rattle.pair_sums.specs.Stored.{due, most_if};
ghost use Rattle.pair_sums.specs.Terms.{half_at};

use largest_entry::largest_from;
use step_tables::pow2;

// The largest entry of the half at place p. It is the whole vector's (`largest-symmetric` of crate half_vectors).
pub fn half_largest_at(room: &[f64], p: usize, w: usize) -> f64
    requires { Place (length room.now) w p }
    ensures { result ≡ S.largest ieee ieee.𝟘 (tabulate (half_at room.now w p) (2 ^ (w - 1))) }
{
    largest_from(room, p * pow2(w), w - 1)
}

// Whether the largest entry is taken after the step at t. `elementwise` is the per-element manner: after every step. In the block manner it is
// taken where t % 4 is r.
pub fn is_due(elementwise: bool, r: usize, t: usize) -> bool
    ensures { result ≡ due elementwise r t }
{
    if elementwise {
        return true;
    }
    t % 4 == r
}

// What is stored of the half at place p: its largest entry where that is due, else 1.0. It is the whole vector's (`stored-symmetric`).
pub fn half_stored(room: &[f64], p: usize, w: usize, taken: bool) -> f64
    requires { Place (length room.now) w p }
    ensures { result ≡ most_if taken (tabulate (half_at room.now w p) (2 ^ (w - 1))) }
{
    if taken {
        return half_largest_at(room, p, w);
    }
    1.0
}
