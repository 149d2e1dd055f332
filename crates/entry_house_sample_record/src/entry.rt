// A run of samples written as a record with house factors, for callers.
ghost use Rattle.refusals.specs.Numbers.{refused};
ghost use Rattle.record_call.specs.Calls.{HouseRecorded};

use entry_correlations::{Manner, is_elementwise};
use job_checks::check_with_betas;
use limits::{Caller, EDGES};
use plan_layout::{Arrangement, takes_less};
use record_checks::check_house_recording;
use refusals::Refusal;
use run_record::Head;
use totals_house_record::record_house_job;

// Writes the record of the chunks from `from` up to, and without, `to`: a head, and for each chunk, beta and pair a row with the sums of squares and of
// fourth powers over that chunk alone. The factors are the house table's at beta times magnitude.
pub fn house_sample_record(
    n: usize,
    floor: usize,
    a: &[usize],
    b: &[usize],
    m: &[f64],
    us: &[usize],
    vs: &[usize],
    betas: &[f64],
    manner: Manner,
    arrangement: Arrangement,
    seed: u64,
    from: u64,
    to: u64,
    samples: usize,
    bytes: &mut [u8],
    work: &mut [f64],
) -> Result<(), Refusal>
    ensures { HouseRecorded n floor a.now b.now m.now us.now vs.now betas.now
        manner arrangement seed from to samples (refused result) bytes.old bytes.new work.old work.new }
{
    let less = takes_less(arrangement);
    let mut early = [0usize; EDGES];
    let mut late = [0usize; EDGES];
    let mut mag = [0.0f64; EDGES];
    let job = check_with_betas(
        Caller::Desk,
        n,
        floor,
        a,
        b,
        m,
        us,
        vs,
        betas,
        &mut early,
        &mut late,
        &mut mag,
    )?;
    let w = job.window;
    let edges = job.edges;
    let head = Head {
        seed,
        start: from,
        end: to,
        samples,
        betas: betas.len(),
        pairs: us.len(),
    };
    check_house_recording(
        less,
        n,
        w,
        us,
        vs,
        betas,
        &mag[..edges],
        head,
        bytes.len(),
        work.len(),
    )?;
    let elementwise = is_elementwise(manner);
    if record_house_job(
        n,
        w,
        elementwise,
        less,
        &early[..edges],
        &late[..edges],
        &mag[..edges],
        us,
        vs,
        betas,
        head,
        bytes,
        work,
    ) {
        return Ok(());
    }
    Err(Refusal::PartitionSum)
}
