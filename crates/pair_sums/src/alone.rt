// The sums of one pair that has none beside it: two chains take less time than four.
ghost use Rattle.std.specs.Prelude.{◌-◌, ◌^◌, ◌≤◌, length};
ghost use Rattle.limits.specs.Limits.{most_window};
ghost use Rattle.pair_sums.specs.Pair.{Within, Summed, Sourced, SumsOf};

use crate::sums::{Source, Sums, begins, sums_of_one, terms_back, terms_there};
use step_tables::pow2;

// The sums over halves of two entries and more, two an iteration.
fn alone_there_and_back(v: &[f64], x: Source, w: usize) -> Sums
    requires { (2 ≤ w) × (w ≤ most_window) × Within (length v.now) (2 ^ (w - 1)) x }
    ensures { Summed v.now x w (2 ^ w) result }
{
    let mut s = Sums { z: 0.0, n: 0.0 };
    let n = pow2(w - 2);
    for k in 0..n {
        s = terms_there(v, x, 2 * k, s);
    }
    for k in (0..n).rev() {
        s = terms_back(v, x, 2 * k, s);
    }
    s
}

// The sums of a pair, by the places of its halves.
pub fn half_sums(room: &[f64], w: usize, at: Source) -> Sums
    requires { Sourced (length room.now) w at }
    ensures { SumsOf room.now w at result }
{
    let x = begins(room, w, at);
    if w == 1 {
        return sums_of_one(room, x);
    }
    alone_there_and_back(room, x, w)
}
