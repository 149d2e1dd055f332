// The tables of the step at a vertex.
ghost use Rattle.std.specs.Prelude.{◌≡◌, ℕ, ◌-◌, ◌<◌, ◌≤◌, length, get_or, drop};
ghost use Rattle.std.specs.Float.{nan, binary64};
ghost use Rattle.std.specs.Float.Ieee.{div};
ghost use Rattle.plan_steps.specs.Layout.{step_in, near_count, near_edge, near_bit};
ghost use Rattle.step_tables.specs.Step.{Rising, tables, Tabled};
ghost use Rattle.transfer_matrix.specs.Rounded.{ieee};
ghost use Rattle.vertex_step.specs.Ready.{Readable};

use plan_steps::{left_edge, near_bit, near_count, near_edge};
use step_tables::{fill_tables, left_factor};

// The factors of t's near edges, shortest first, and the bits that they read.
fn near_edges(
    room: &[f64],
    factors: usize,
    plan: &[usize],
    w: usize,
    t: usize,
    x: &mut [f64],
    bits: &mut [usize],
)
    requires { Readable plan.now (length room.now) w factors t × (4 ≤ length x.old) × (4 ≤ length bits.old) }
    ensures by_index { (i : ℕ) → i < near_count plan.now t
        → get_or x.new i nan ≡ get_or (drop factors room.now) (near_edge plan.now t i) nan }
    ensures by_index_2 { (i : ℕ) → i < near_count plan.now t → get_or bits.new i 0 ≡ near_bit plan.now t i }
{
    let count = near_count(plan, t);
    for i in 0..count {
        let e = near_edge(plan, t, i);
        x[i] = room[factors + e];
        bits[i] = near_bit(plan, t, i);
    }
}

// The factor of the edge that k names, k being an edge and one; 1.0 for none.
fn factor_of(room: &[f64], factors: usize, k: usize) -> f64
    requires { (factors ≤ length room.now) × (k ≤ length room.now - factors) }
    ensures { (k ≡ 0 → ⊥) → result ≡ get_or (drop factors room.now) (k - 1) nan }
{
    if k == 0 {
        return 1.0;
    }
    room[factors + (k - 1)]
}

// The tables of the step at t with the scale, written where the step reads them. Returns the left edge's factor, 1.0 where there is none.
pub fn tables_at(
    room: &[f64],
    factors: usize,
    plan: &[usize],
    w: usize,
    t: usize,
    scale: f64,
    bits: &mut [usize],
    up: &mut [f64],
    down: &mut [f64],
) -> f64
    requires { Readable plan.now (length room.now) w factors t × (4 ≤ length bits.old) × (16 ≤ length up.old) × (16 ≤ length down.old) }
    ensures tabled { Tabled (step_in plan.now (drop factors room.now) t) scale
        (tables (near_count plan.now t) result (div binary64 ieee.𝟙 result) bits.new up.new down.new) }
    ensures rising { Rising bits.new (near_count plan.now t) (w - 1) }
{
    let mut x = [1.0; 4];
    near_edges(room, factors, plan, w, t, &mut x, bits);
    fill_tables(&x, near_count(plan, t), scale, up, down);
    let k = left_edge(plan, t);
    left_factor(k != 0, factor_of(room, factors, k))
}
