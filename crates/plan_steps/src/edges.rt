// The back edges of every vertex in the plan, and check 7, which finds a vertex with too many of them.
ghost use Rattle.std.specs.Prelude.{◌≡◌, false, ℕ, ◌+◌, ◌<◌, ◌≤◌};
ghost use Rattle.transfer_matrix.specs.Job.{too_many_near};
ghost use Rattle.transfer_matrix.specs.Configuration.{numbered};
ghost use Rattle.plan_steps.specs.Layout.{Holds, left_edge, near_count};
ghost use Rattle.plan_steps.specs.Edges.{Edges, Steps};
ghost use Rattle.plan_steps.specs.Rows.{near_row, Rising, Entered, Counts};

use crate::layout::{LEFT_EDGE, MOST_NEAR, NEAR_COUNT, NUMBERS};
use crate::near::insert_near;
use limits::{PLAN, VERTICES};

// No vertex has an edge.
fn clear_rows(plan: &mut [usize], n: usize)
    requires { Holds plan.old n }
    ensures { (t : ℕ) → t < n → (left_edge plan.new t ≡ 0) × (near_count plan.new t ≡ 0) }
{
    for t in 0..n {
        plan[NUMBERS * t + LEFT_EDGE] = 0;
        plan[NUMBERS * t + NEAR_COUNT] = 0;
    }
}

// Enters edge k - 1, which goes back from t by d: as the left edge where d is the window, unless one is there. Is there room for it?
fn enter(plan: &mut [usize], w: usize, t: usize, d: usize, k: usize) -> bool
    requires { Holds plan.old (t + 1) × (near_count plan.old t ≤ 4) × Rising 1 (near_row plan.old t) × (1 ≤ d) × (1 ≤ k) }
    ensures { Entered plan.old plan.new w t d k result }
{
    if d != w {
        return insert_near(plan, t, k - 1, d - 1);
    }
    if plan[NUMBERS * t + LEFT_EDGE] == 0 {
        plan[NUMBERS * t + LEFT_EDGE] = k;
    }
    true
}

// Enters every edge at its later vertex. Has some vertex over four back edges shorter than the window?
fn enter_all(plan: &mut [usize], n: usize, w: usize, early: &[usize], late: &[usize]) -> bool
    requires { Edges early.now late.now n w × Holds plan.old n }
    ensures { (result ≡ too_many_near n w (numbered early.now late.now))
        × (result ≡ false → Steps plan.new early.now late.now n w) }
{
    clear_rows(plan, n);
    for e in 0..early.len() {
        let t = late[e];
        let d = t - early[e];
        if !enter(plan, w, t, d, e + 1) {
            return true;
        }
    }
    false
}

// Counts the near edges of every vertex, up to four. Is there a fifth? Of parallel edges each counts, though they are one in a row.
fn count_near(counts: &mut [usize], n: usize, w: usize, early: &[usize], late: &[usize]) -> bool
    requires { Edges early.now late.now n w × Counts counts.old early.now late.now n w 0 }
    ensures { result ≡ false → too_many_near n w (numbered early.now late.now) ≡ false }
{
    for e in 0..early.len() {
        let t = late[e];
        let d = t - early[e];
        if d < w {
            let c = counts[t];
            if c == MOST_NEAR {
                return true;
            }
            counts[t] = c + 1;
        }
    }
    false
}

// Is there a fifth near edge of some vertex, parallel edges counted?
fn is_crowded(n: usize, w: usize, early: &[usize], late: &[usize]) -> bool
    requires { Edges early.now late.now n w }
    ensures { result ≡ false → too_many_near n w (numbered early.now late.now) ≡ false }
{
    let mut counts = [0usize; VERTICES];
    count_near(&mut counts, n, w, early, late)
}

// Check 7: has some vertex over four back edges shorter than the window? Counting is quick, and enough unless it finds five.
pub fn too_many_near(n: usize, w: usize, early: &[usize], late: &[usize]) -> bool
    requires { Edges early.now late.now n w }
    ensures { result ≡ too_many_near n w (numbered early.now late.now) }
{
    if !is_crowded(n, w, early, late) {
        return false;
    }
    let mut plan = [0usize; PLAN];
    enter_all(&mut plan, n, w, early, late)
}

// The steps of the job in the plan: for every vertex what the definition's step reads there.
pub fn plan_edges(plan: &mut [usize], n: usize, w: usize, early: &[usize], late: &[usize])
    requires { Edges early.now late.now n w × Holds plan.old n × (too_many_near n w (numbered early.now late.now) ≡ false) }
    ensures { Steps plan.new early.now late.now n w }
{
    enter_all(plan, n, w, early, late);
}
