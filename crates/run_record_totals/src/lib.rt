// The totals of a run record: each beta and pair's sums, added chunk by chunk in their order.
#![tactic(auto)]

ghost use Rattle.std.specs.Prelude.{◌≡◌, ◌+◌, ◌*◌, ◌≤◌, ◌<◌, length};
ghost use Rattle.list_laws.specs.Tabulate.{tabulate};
ghost use Rattle.run_record_totals.specs.Totals.{column_sum, Totalled};

use buffer_checks::misfit;
use refusals::Refusal;
use run_record::{double_at, head_of};
use run_record_reader::is_record;

// The doubles `offset` bytes into the rows at place `k` of each chunk, added from +0.0.
fn column_sum(bytes: &[u8], per: usize, chunks: usize, k: usize, offset: usize) -> f64
    requires { (k < per) × (offset ≤ 20) × (32 + 28 * (chunks * per) ≤ length bytes.now) }
    ensures { result ≡ column_sum bytes.now per chunks offset k }
{
    let mut total: f64 = 0.0;
    for c in 0..chunks {
        total = total + double_at(bytes, 32 + 28 * (c * per + k) + offset);
    }
    total
}

fn fill_totals(bytes: &[u8], chunks: usize, offset: usize, totals: &mut [f64])
    requires { (offset ≤ 20) × (32 + 28 * (chunks * length totals.old) ≤ length bytes.now) }
    ensures { totals.new ≡ tabulate (column_sum bytes.now (length totals.old) chunks offset) (length totals.old) }
{
    let per = totals.len();
    for (k, total) in totals.iter_mut().enumerate() {
        *total = column_sum(bytes, per, chunks, k, offset);
    }
}

// 26, then 12; else how many samples there are, chunks times samples per chunk.
pub fn record_totals(
    bytes: &[u8],
    squares: &mut [f64],
    fourths: &mut [f64],
) -> Result<usize, Refusal>
    ensures { Totalled bytes.now result squares.old squares.new fourths.old fourths.new }
{
    if !is_record(bytes) {
        return Err(Refusal::Record);
    }
    let h = head_of(bytes);
    let chunks = (h.end - h.start) as usize;
    let samples = h.samples;
    if misfit(h.betas * h.pairs, squares.len(), fourths.len()) {
        return Err(Refusal::Buffer);
    }
    fill_totals(bytes, chunks, 12, squares);
    fill_totals(bytes, chunks, 20, fourths);
    Ok(chunks * samples)
}
