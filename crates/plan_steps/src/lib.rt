// From the kept edges of a job to the steps in the plan that the sweeps read.
#![tactic(auto)]

mod edges;
mod layout;
mod near;

pub use edges::{plan_edges, too_many_near};
pub use layout::{
    BACKWARD_PLACE, FORWARD_PLACE, NUMBERS, backward_place, forward_place, left_edge, near_bit,
    near_count, near_edge,
};
