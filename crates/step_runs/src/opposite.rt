// The runs of two steps of a half vector: a run goes with its opposite, which lies as far from the end of the half's first part as the run
// from its front.
ghost use Rattle.std.specs.Prelude.{◌+◌, ◌<◌};
ghost use Rattle.step_runs.specs.OpposedRule.{Opposed};

use crate::runs::Four;

// The table at an even place of a run and at the place opposite to it, and the same at the next: the run's pattern is m, its opposite's
// t, and `one` is the pattern of 1.
pub fn opposed(table: &[f64; 16], m: usize, t: usize, one: usize) -> Four
    requires { (m + one < 16) × (t + one < 16) }
    ensures { Opposed table.now m t one result }
{
    Four {
        first: table[m],
        second: table[t + one],
        third: table[m + one],
        fourth: table[t],
    }
}
