// The layout of the work memory, by how a call is arranged; a whole plan.
#![tactic(auto)]

mod less;
mod work;

pub use less::takes_less;
pub use work::{Work, make_plan, room_needed};

// How a call is arranged: every pair is answered from kept vectors, or direct pairs as the backward sweep passes, which takes less room.
#[derive(Clone, Copy, Debug, PartialEq, Eq)]
pub enum Arrangement {
    KeepAll,
    LessRoom,
}
