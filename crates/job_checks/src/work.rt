// The work memory that a caller is to lend.
ghost use Rattle.std.specs.Prelude.{length};
ghost use Rattle.transfer_matrix.specs.Room.{room as room_of};
ghost use Rattle.refusals.specs.Edges.{kept, window_from};
ghost use Rattle.refusals.specs.Request.{room_request};
ghost use Rattle.refusals.specs.Refusal.{refusal, of_room};
ghost use Rattle.refusals.specs.Answers.{Answered};
ghost use Rattle.plan_layout.specs.Arrangements.{arrangement_of};

use crate::job::check_job;
use limits::{Caller, EDGES};
use plan_layout::{Arrangement, room_needed, takes_less};
use refusals::Refusal;

// The doubles of work memory that a job's pairs need, whoever calls: no limit of the tester's is asked.
pub fn room(
    n: usize,
    floor: usize,
    a: &[usize],
    b: &[usize],
    m: &[f64],
    us: &[usize],
    vs: &[usize],
    arrangement: Arrangement,
) -> Result<usize, Refusal>
    ensures { Answered
        (refusal of_room (room_request n floor a.now b.now m.now us.now vs.now))
        (room_of (arrangement_of arrangement) n (window_from floor a.now b.now m.now)
        (length (kept a.now b.now m.now)) us.now vs.now) result }
{
    let mut early = [0usize; EDGES];
    let mut late = [0usize; EDGES];
    let mut mag = [0.0f64; EDGES];
    let job = check_job(
        Caller::Desk,
        n,
        floor,
        a,
        b,
        m,
        us,
        vs,
        &mut early,
        &mut late,
        &mut mag,
    )?;
    let less = takes_less(arrangement);
    Ok(room_needed(less, n, job.window, job.edges, us, vs))
}
