// What the steps of lower halves share: the halves of the windows 1 and 2, which have no pair, and a half with its odd entries negated. The
// half at place p of a room with window w has the first 2 ^ (w - 1) numbers of the place.
#![tactic(auto)]

mod alternate;
mod few;
mod opposite;
mod runs;

pub use alternate::half_alternate;
pub use few::store_few;
pub use opposite::opposed;
pub use runs::{Four, StepRuns, TwoStepRuns, four_at, run_bit, runs_of, step_runs, two_step_runs};
