// From which vertex on the kept backward vectors stand when the next configuration comes.
#![tactic(auto)]

ghost use Rattle.std.specs.Prelude.{◌≡◌, false, ◌+◌, ◌-◌, ◌<◌, ◌≤◌, length};
ghost use Rattle.plan_steps.specs.Layout.{left_edge};
ghost use Rattle.sweep_places.specs.Reuse.{Reads};
ghost use Rattle.totals_reuse.specs.Settled.{Settled, EdgesIn, SettledAbove, StandingFrom};

use edge_bits::has_bit;
use plan_steps::{left_edge, near_count, near_edge};

// An edge without a bit, and one past `last`, kept its sign.
fn may_change(bits: &[usize], e: usize, last: usize) -> bool
    requires { e < length bits.now }
    ensures { result ≡ false → Settled bits.now last e }
{
    if e > last {
        return false;
    }
    has_bit(bits[e])
}

fn left_may_change(plan: &[usize], t: usize, bits: &[usize], last: usize) -> bool
    requires { EdgesIn plan.now (length bits.now) (t + 1) }
    ensures { result ≡ false → 0 < left_edge plan.now t → Settled bits.now last (left_edge plan.now t - 1) }
{
    let k = left_edge(plan, t);
    if k == 0 {
        return false;
    }
    may_change(bits, k - 1, last)
}

fn step_may_change(plan: &[usize], t: usize, bits: &[usize], last: usize) -> bool
    requires { EdgesIn plan.now (length bits.now) (t + 1) }
    ensures { result ≡ false → Reads plan.now t (Settled bits.now last) }
{
    if left_may_change(plan, t, bits, last) {
        return true;
    }
    let near = near_count(plan, t);
    for i in 0..near {
        if may_change(bits, near_edge(plan, t, i), last) {
            return true;
        }
    }
    false
}

// The last vertex whose step may have changed, `last` being the last edge that changed its sign; 0 where there is none.
fn changed_vertex(plan: &[usize], n: usize, bits: &[usize], last: usize) -> usize
    requires { (1 ≤ n) × EdgesIn plan.now (length bits.now) n }
    ensures { SettledAbove plan.now bits.now last n result }
{
    for t in (1..n).rev() {
        if step_may_change(plan, t, bits, last) {
            return t;
        }
    }
    0
}

// The vectors of the configuration before configuration j of a run stand from here on. Before the first the room holds others: none stands.
pub fn standing_from(plan: &[usize], n: usize, bits: &[usize], last: usize, j: usize) -> usize
    requires { (1 ≤ n) × EdgesIn plan.now (length bits.now) n }
    ensures { StandingFrom plan.now bits.now last n j result }
{
    if j == 0 {
        return n;
    }
    changed_vertex(plan, n, bits, last)
}
