// The window: the largest of 1, the caller's floor, and the longest kept edge.
ghost use Rattle.std.specs.Prelude.{◌≡◌, length};
ghost use Rattle.transfer_matrix.specs.Job.{longest, window_of};
ghost use Rattle.kept_edges.specs.Keep.{Ordered};

use crate::keep::larger;

fn longest(early: &[usize], late: &[usize]) -> usize
    requires { Ordered early.now late.now }
    ensures { result ≡ longest early.now late.now }
{
    let mut most: usize = 0;
    for e in 0..early.len() {
        most = larger(most, late[e] - early[e]);
    }
    most
}

pub fn window_of(floor: usize, early: &[usize], late: &[usize]) -> usize
    requires { Ordered early.now late.now }
    ensures { result ≡ window_of floor early.now late.now }
{
    larger(1, larger(floor, longest(early, late)))
}
