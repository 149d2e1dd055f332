// The places that a sweep writes.
#![tactic(auto)]

ghost use Rattle.std.specs.Prelude.{◌≡◌, ◌-◌, ◌^◌, length};
ghost use Rattle.list_laws.specs.Tabulate.{tabulate};
ghost use Rattle.transfer_matrix.specs.Rounded.{ieee};
ghost use Rattle.step_tables.specs.Place.{Place, hold};
ghost use Rattle.sweep_places.specs.Target.{Target};

use step_tables::{fill, pow2};

// The place that a step writes: the kept one, or the moving one that is not the source. So no vector is copied.
pub fn place_for(kept: usize, src: usize) -> usize
    ensures { Target kept src result }
{
    if kept > 0 {
        return kept;
    }
    if src == 0 { 1 } else { 0 }
}

// The half of a sweep's start at place p: all 1.0.
pub fn start_at(room: &mut [f64], w: usize, p: usize)
    requires { Place (length room.old) w p }
    ensures { room.new ≡ hold room.old w p (tabulate (λ _. ieee.𝟙) (2 ^ (w - 1))) }
{
    let size = pow2(w);
    fill(room, p * size, size / 2, 1.0);
}
