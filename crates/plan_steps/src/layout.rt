// The plan's numbers by name: where each stands among those of its vertex, and a function that reads it.
ghost use Rattle.std.specs.Prelude.{◌≡◌, ◌+◌, ◌*◌, ◌<◌};
ghost use Rattle.plan_steps.specs.Layout.{Holds, left_edge, near_count, near_edge, near_bit, forward_place, backward_place};

// Numbers of a vertex, of which at most four near edges.
pub const NUMBERS: usize = 12;

pub const MOST_NEAR: usize = 4;

pub const LEFT_EDGE: usize = 0;

pub const NEAR_COUNT: usize = 1;

pub const NEAR_EDGES: usize = 2;

pub const NEAR_BITS: usize = 6;

pub const FORWARD_PLACE: usize = 10;

pub const BACKWARD_PLACE: usize = 11;

// The left edge of t and one, or 0.
pub fn left_edge(plan: &[usize], t: usize) -> usize
    requires { Holds plan.now (t + 1) }
    ensures { result ≡ left_edge plan.now t }
{
    plan[NUMBERS * t + LEFT_EDGE]
}

// How many edges of t are shorter than the window.
pub fn near_count(plan: &[usize], t: usize) -> usize
    requires { Holds plan.now (t + 1) }
    ensures { result ≡ near_count plan.now t }
{
    plan[NUMBERS * t + NEAR_COUNT]
}

// Edge i of these, shortest first.
pub fn near_edge(plan: &[usize], t: usize, i: usize) -> usize
    requires { Holds plan.now (t + 1) × (i < 4) }
    ensures { result ≡ near_edge plan.now t i }
{
    plan[NUMBERS * t + (NEAR_EDGES + i)]
}

// The bit that it reads: its distance less one.
pub fn near_bit(plan: &[usize], t: usize, i: usize) -> usize
    requires { Holds plan.now (t + 1) × (i < 4) }
    ensures { result ≡ near_bit plan.now t i }
{
    plan[NUMBERS * t + (NEAR_BITS + i)]
}

// The place that keeps the forward vector of t, or 0.
pub fn forward_place(plan: &[usize], t: usize) -> usize
    requires { Holds plan.now (t + 1) }
    ensures { result ≡ forward_place plan.now t }
{
    plan[NUMBERS * t + FORWARD_PLACE]
}

// The place that keeps the backward vector of t, or 0.
pub fn backward_place(plan: &[usize], t: usize) -> usize
    requires { Holds plan.now (t + 1) }
    ensures { result ≡ backward_place plan.now t }
{
    plan[NUMBERS * t + BACKWARD_PLACE]
}
