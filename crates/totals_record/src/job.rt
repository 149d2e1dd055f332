// A job that is written as a run record.
ghost use Rattle.std.specs.Prelude.{◌≡◌, ◌≤◌, length};
ghost use Rattle.transfer_matrix.specs.Room.{arranged};
ghost use Rattle.run_record.specs.Records.{record_length};
ghost use Rattle.totals_call.specs.Finished.{Passed, stepping};
ghost use Rattle.totals_record.specs.Written.{RecordIs};

use crate::bytes::clear_bytes;
use crate::chunks::write_chunks;
use job_run::clear;
use plan_layout::room_needed;
use run_record::Head;
use run_record_put::put_head;
use totals_call::SUMS;

// Writes the record of a run, with the room at +0.0 after. Returns whether every Z was finite and above zero; where one is not, all bytes are 0.
pub fn record_job(
    n: usize,
    w: usize,
    elementwise: bool,
    less: bool,
    early: &[usize],
    late: &[usize],
    us: &[usize],
    vs: &[usize],
    factors: &[f64],
    head: Head,
    bytes: &mut [u8],
    work: &mut [f64],
) -> bool
    requires { Passed (arranged less) n w early.now late.now us.now vs.now (length factors.now) head.betas (length work.old)
        × (head.pairs ≡ length us.now) × (head.start ≤ head.end) × (length bytes.old ≡ record_length head) }
    ensures { RecordIs n w early.now late.now factors.now (stepping elementwise) us.now vs.now head
        (arranged less) (length early.now) result bytes.new work.old work.new }
{
    let mut squares = [0.0f64; SUMS];
    let mut fourths = [0.0f64; SUMS];
    let sums = head.betas * head.pairs;
    put_head(bytes, head);
    let sound = write_chunks(
        n,
        w,
        elementwise,
        less,
        early,
        late,
        us,
        vs,
        factors,
        head,
        &mut squares[..sums],
        &mut fourths[..sums],
        bytes,
        work,
    );
    let end = room_needed(less, n, w, early.len(), us, vs);
    clear(&mut work[..end]);
    if !sound {
        clear_bytes(bytes);
    }
    sound
}
