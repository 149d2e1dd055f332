// A whole sheet read into lists.
ghost use Rattle.export_sheets.specs.Jobs.{TellsJob, Told};

use job_sheet_lists::{SheetJob, sheet_job};
use refusals::Refusal;

// The numbers of a sheet through references; where it is refused, all keep what they held.
fn tell_job(
    answer: Result<SheetJob, Refusal>,
    n: &mut usize,
    floor: &mut usize,
    edges: &mut usize,
    pairs: &mut usize,
    n_betas: &mut usize,
) -> usize
    ensures { TellsJob answer result n.old n.new floor.old floor.new edges.old edges.new
        pairs.old pairs.new n_betas.old n_betas.new }
{
    match answer {
        Ok(job) => {
            *n = job.n;
            *floor = job.floor;
            *edges = job.edges;
            *pairs = job.pairs;
            *n_betas = job.betas;
            0
        }
        Err(refusal) => refusal.number(),
    }
}

// As `job_sheet_lists::sheet_job`, its numbers through references, which keep what they held where the call is refused.
#[unsafe(no_mangle)]
pub extern "C" fn copperhook_sheet_job(
    sheet: &[u8],
    n: &mut usize,
    floor: &mut usize,
    a: &mut [usize],
    b: &mut [usize],
    m: &mut [u64],
    us: &mut [usize],
    vs: &mut [usize],
    betas: &mut [u64],
    edges: &mut usize,
    pairs: &mut usize,
    n_betas: &mut usize,
) -> usize
    ensures { Told sheet.now result n.old n.new floor.old floor.new
        a.old a.new b.old b.new m.old m.new us.old us.new
        vs.old vs.new betas.old betas.new edges.old edges.new
        pairs.old pairs.new n_betas.old n_betas.new }
{
    let job = sheet_job(sheet, a, b, m, betas, us, vs);
    tell_job(job, n, floor, edges, pairs, n_betas)
}
