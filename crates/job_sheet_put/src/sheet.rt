// A whole sheet.
ghost use Rattle.std.specs.Prelude.{◌≡◌, ◌≤◌, length};
ghost use Rattle.list_laws.specs.Front.{over};
ghost use Rattle.job_sheet_bytes.specs.Jobs.{given, sheet_of};
ghost use Rattle.job_sheet_put.specs.Behind.{Room};

use crate::record::put_size;
use crate::rows::{put_betas, put_edges, put_pairs};

// Writes the sheet of a job to the front of a buffer that has room for it.
pub fn put_sheet(
    sheet: &mut [u8],
    n: usize,
    floor: usize,
    a: &[usize],
    b: &[usize],
    m: &[f64],
    us: &[usize],
    vs: &[usize],
    betas: &[f64],
)
    requires { Room sheet.old a.now b.now m.now us.now vs.now betas.now }
    ensures { sheet.new ≡ over (sheet_of (given n floor a.now b.now m.now
        us.now vs.now betas.now)) sheet.old }
{
    put_size(sheet, n, floor);
    put_edges(sheet, 4, a, b, m);
    let first_beta = 4 + 13 * a.len();
    put_betas(sheet, first_beta, betas);
    let first_pair = first_beta + 9 * betas.len();
    put_pairs(sheet, first_pair, us, vs);
    sheet[first_pair + 5 * us.len()] = 5;
}
