// The sheet of a job, written by an entry: a job that the checks 1 to 8 pass, to a buffer that is long enough.
#![tactic(auto)]

ghost use Rattle.job_sheet_writer.specs.Writes.{Wrote};

use job_checks::check_with_betas;
use job_sheet_put::put_sheet;
use limits::{Caller, EDGES};
use refusals::Refusal;

// The length of the sheet. What lies behind the sheet stays.
pub fn sheet_write(
    n: usize,
    floor: usize,
    a: &[usize],
    b: &[usize],
    m: &[f64],
    us: &[usize],
    vs: &[usize],
    betas: &[f64],
    sheet: &mut [u8],
) -> Result<usize, Refusal>
    ensures { Wrote n floor a.now b.now m.now us.now vs.now betas.now
        result sheet.old sheet.new }
{
    let mut early = [0usize; EDGES];
    let mut late = [0usize; EDGES];
    let mut mag = [0.0f64; EDGES];
    check_with_betas(
        Caller::Desk,
        n,
        floor,
        a,
        b,
        m,
        us,
        vs,
        betas,
        &mut early,
        &mut late,
        &mut mag,
    )?;
    let long = 5 + 13 * a.len() + 9 * betas.len() + 5 * us.len();
    if sheet.len() < long {
        return Err(Refusal::Buffer);
    }
    put_sheet(sheet, n, floor, a, b, m, us, vs, betas);
    Ok(long)
}
