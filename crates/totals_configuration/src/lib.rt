// The sums of a chunk: squares and fourth powers of the correlations of its configurations, for every beta and pair.
#![tactic(auto)]

mod configuration;

pub use configuration::{add_beta, add_configuration, answer_signed};

// The numbers of a planned job: its vertices, its window, where the scales lie, whether steps go element by element, whether it has less room, and
// its betas.
#[derive(Clone, Copy)]
pub struct JobShape {
    pub n: usize,
    pub w: usize,
    pub scales: usize,
    pub elementwise: bool,
    pub less: bool,
    pub betas: usize,
}
