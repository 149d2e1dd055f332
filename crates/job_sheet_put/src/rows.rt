// All records of a kind, one behind another.
ghost use Rattle.std.specs.Prelude.{◌≡◌, ◌+◌, ◌*◌, ◌≤◌, length};
ghost use Rattle.little_endian.specs.Rows.{rows};
ghost use Rattle.job_sheet_put.specs.Behind.{Appended, raw_edge, raw_beta, raw_pair};

use crate::record::{put_beta, put_edge, put_pair};
use little_endian::bits_of;

pub fn put_edges(sheet: &mut [u8], place: usize, a: &[usize], b: &[usize], m: &[f64])
    requires { (length b.now ≡ length a.now) × (length m.now ≡ length a.now) × (place + 13 * length a.now ≤ length sheet.old) }
    ensures { Appended place (rows (raw_edge a.now b.now m.now) (length a.now))
        sheet.old sheet.new }
{
    for i in 0..a.len() {
        put_edge(sheet, place + 13 * i, a[i], b[i], bits_of(m[i]));
    }
}

pub fn put_betas(sheet: &mut [u8], place: usize, betas: &[f64])
    requires { place + 9 * length betas.now ≤ length sheet.old }
    ensures { Appended place (rows (raw_beta betas.now) (length betas.now)) sheet.old sheet.new }
{
    for (i, beta) in betas.iter().enumerate() {
        put_beta(sheet, place + 9 * i, bits_of(*beta));
    }
}

pub fn put_pairs(sheet: &mut [u8], place: usize, us: &[usize], vs: &[usize])
    requires { (length vs.now ≡ length us.now) × (place + 5 * length us.now ≤ length sheet.old) }
    ensures { Appended place (rows (raw_pair us.now vs.now) (length us.now)) sheet.old sheet.new }
{
    for i in 0..us.len() {
        put_pair(sheet, place + 5 * i, us[i], vs[i]);
    }
}
