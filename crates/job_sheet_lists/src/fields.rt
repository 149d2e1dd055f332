// One field of each record of a kind, to the front of a list.
ghost use Rattle.std.specs.Prelude.{◌≡◌, ◌+◌, ◌*◌, ◌≤◌, length};
ghost use Rattle.list_laws.specs.Front.{over};
ghost use Rattle.list_laws.specs.Tabulate.{tabulate};
ghost use Rattle.little_endian.specs.Words.{word_at};
ghost use Rattle.job_sheet_lists.specs.Lists.{Loads};

use job_sheet::number_at;
use little_endian::word_at;

// A field of two bytes at `offset` in the records from `place` on, `step` bytes each.
pub fn load_numbers(
    sheet: &[u8],
    place: usize,
    step: usize,
    offset: usize,
    count: usize,
    out: &mut [usize],
)
    requires { Loads sheet.now place step offset 2 count (length out.old) }
    ensures { out.new ≡ over (tabulate (λ i. word_at sheet.now (place + step * i + offset) 2) count) out.old }
{
    for i in 0..count {
        out[i] = number_at(sheet, place + step * i + offset, 2);
    }
}

// The same of a field of eight bytes.
pub fn load_words(
    sheet: &[u8],
    place: usize,
    step: usize,
    offset: usize,
    count: usize,
    out: &mut [u64],
)
    requires { Loads sheet.now place step offset 8 count (length out.old) }
    ensures { out.new ≡ over (tabulate (λ i. word_at sheet.now (place + step * i + offset) 8) count) out.old }
{
    for i in 0..count {
        out[i] = word_at(sheet, place + step * i + offset, 8);
    }
}
