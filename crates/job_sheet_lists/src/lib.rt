// A whole sheet read into lent lists: 19, 20, then 12 where a list is too short, and none of the checks of a job.
#![tactic(auto)]

ghost use Rattle.job_sheet_lists.specs.Lists.{ReadJob};

mod answer;
mod fields;

pub use answer::SheetJob;
use answer::too_short;
use fields::{load_numbers, load_words};
use job_sheet::{count_records, number_at};
use refusals::Refusal;

// The numbers of an accepted sheet; its records at the fronts of the lists, doubles by their bits. What lies behind them stays.
pub fn sheet_job(
    sheet: &[u8],
    a: &mut [usize],
    b: &mut [usize],
    m: &mut [u64],
    betas: &mut [u64],
    us: &mut [usize],
    vs: &mut [usize],
) -> Result<SheetJob, Refusal>
    ensures { ReadJob sheet.now result a.old a.new b.old b.new m.old m.new
        betas.old betas.new us.old us.new vs.old vs.new }
{
    let counts = count_records(sheet)?;
    let edges = counts.edges;
    let n_betas = counts.betas;
    let pairs = counts.pairs;
    if too_short(edges, a.len(), edges, b.len()) {
        return Err(Refusal::Buffer);
    }
    if too_short(edges, m.len(), n_betas, betas.len()) {
        return Err(Refusal::Buffer);
    }
    if too_short(pairs, us.len(), pairs, vs.len()) {
        return Err(Refusal::Buffer);
    }
    let first_beta = 4 + 13 * edges;
    let first_pair = first_beta + 9 * n_betas;
    load_numbers(sheet, 4, 13, 1, edges, a);
    load_numbers(sheet, 4, 13, 3, edges, b);
    load_words(sheet, 4, 13, 5, edges, m);
    load_words(sheet, first_beta, 9, 1, n_betas, betas);
    load_numbers(sheet, first_pair, 5, 1, pairs, us);
    load_numbers(sheet, first_pair, 5, 3, pairs, vs);
    Ok(SheetJob {
        n: number_at(sheet, 1, 2),
        floor: number_at(sheet, 3, 1),
        edges,
        betas: n_betas,
        pairs,
    })
}
