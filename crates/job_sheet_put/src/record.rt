// One record, written to its place.
ghost use Rattle.std.specs.Prelude.{◌+◌, ◌≤◌, length};
ghost use Rattle.job_sheet_bytes.specs.Jobs.{size_record, edge_record, beta_record, pair_record};
ghost use Rattle.job_sheet_put.specs.Behind.{Appended};

use little_endian::put_word;

pub fn put_size(sheet: &mut [u8], n: usize, floor: usize)
    requires { 4 ≤ length sheet.old }
    ensures { Appended 0 (size_record n floor) sheet.old sheet.new }
{
    sheet[0] = 1;
    put_word(sheet, 1, 2, n as u64);
    put_word(sheet, 3, 1, floor as u64);
}

pub fn put_edge(sheet: &mut [u8], place: usize, a: usize, b: usize, bits: u64)
    requires { place + 13 ≤ length sheet.old }
    ensures { Appended place (edge_record a b bits) sheet.old sheet.new }
{
    sheet[place] = 2;
    put_word(sheet, place + 1, 2, a as u64);
    put_word(sheet, place + 3, 2, b as u64);
    put_word(sheet, place + 5, 8, bits);
}

pub fn put_beta(sheet: &mut [u8], place: usize, bits: u64)
    requires { place + 9 ≤ length sheet.old }
    ensures { Appended place (beta_record bits) sheet.old sheet.new }
{
    sheet[place] = 3;
    put_word(sheet, place + 1, 8, bits);
}

pub fn put_pair(sheet: &mut [u8], place: usize, u: usize, v: usize)
    requires { place + 5 ≤ length sheet.old }
    ensures { Appended place (pair_record u v) sheet.old sheet.new }
{
    sheet[place] = 4;
    put_word(sheet, place + 1, 2, u as u64);
    put_word(sheet, place + 3, 2, v as u64);
}
