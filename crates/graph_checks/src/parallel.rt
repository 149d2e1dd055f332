// Check 5: two kept edges join the same vertices. Edges are looked up by their later end.
ghost use Rattle.std.specs.Prelude.{◌≡◌, ℕ, ◌≤◌, ◌<◌, length, get_or};
ghost use Rattle.list_laws.specs.Search.{some};
ghost use Rattle.limits.specs.Limits.{most_vertices, most_edges};
ghost use Rattle.refusals.specs.Request.{same_ends, joined_twice};
ghost use Rattle.graph_checks.specs.Chains.{LastAt, Chain, Heads};

use limits::{EDGES, VERTICES};

// Whether an edge before e joins the same vertices. Only the edges with e's later end are looked at, from the last of them on.
fn joined_before(early: &[usize], late: &[usize], next: &[usize], e: usize, last: usize) -> bool
    requires { (length late.now ≡ length early.now) × (e < length early.now) × (e ≤ length next.now) × Chain late.now next.now e × LastAt late.now e (get_or late.now e 0) last }
    ensures { result ≡ some (same_ends early.now late.now e) e }
{
    let x = early[e];
    let mut k = last;
    while k > 0 {
        if early[k - 1] == x {
            return true;
        }
        k = next[k - 1];
    }
    false
}

// `heads` and `next` are made here.
fn find_twice(early: &[usize], late: &[usize], heads: &mut [usize], next: &mut [usize]) -> bool
    requires late_len { (length late.now ≡ length early.now) × (length early.now ≤ length next.old) × Heads late.now heads.old 0 }
    requires by_index { (e : ℕ) → e < length late.now → get_or late.now e 0 < length heads.old }
    ensures { result ≡ joined_twice early.now late.now }
{
    for e in 0..early.len() {
        let v = late[e];
        let last = heads[v];
        if joined_before(early, late, next, e, last) {
            return true;
        }
        next[e] = last;
        heads[v] = e + 1;
    }
    false
}

// 5. Two kept edges join the same vertices.
pub fn joined_twice(early: &[usize], late: &[usize]) -> bool
    requires late_len { (length late.now ≡ length early.now) × (length early.now ≤ most_edges) }
    requires by_index { (e : ℕ) → e < length late.now → get_or late.now e 0 < most_vertices }
    ensures { result ≡ joined_twice early.now late.now }
{
    let mut heads = [0usize; VERTICES];
    let mut next = [0usize; EDGES];
    find_twice(early, late, &mut heads, &mut next)
}
