// One record of a sheet.
ghost use Rattle.std.specs.Prelude.{◌<◌, ◌^◌};
ghost use Rattle.refusals.specs.Numbers.{by_number};
ghost use Rattle.job_sheet.specs.Records.{record_at, next_of};
ghost use Rattle.export_sheets.specs.Records.{Tells};

use job_sheet::{Record, read_record};
use refusals::Refusal;

// The parts of a record at `place` through references; what it has not keeps what it held.
fn tell_record(
    answer: Result<Record, Refusal>,
    place: usize,
    kind: &mut usize,
    next: &mut usize,
    first: &mut usize,
    second: &mut usize,
    value: &mut u64,
) -> usize
    requires { next_of (by_number answer) place 0 < 2 ^ 64 }
    ensures { Tells (by_number answer) place result kind.old kind.new next.old next.new first.old first.new
        second.old second.new value.old value.new }
{
    match answer {
        Ok(Record::Size(n, floor)) => {
            *kind = 1;
            *next = place + 4;
            *first = n;
            *second = floor;
            0
        }
        Ok(Record::Edge(a, b, m)) => {
            *kind = 2;
            *next = place + 13;
            *first = a;
            *second = b;
            *value = m;
            0
        }
        Ok(Record::Beta(x)) => {
            *kind = 3;
            *next = place + 9;
            *value = x;
            0
        }
        Ok(Record::Pair(u, v)) => {
            *kind = 4;
            *next = place + 5;
            *first = u;
            *second = v;
            0
        }
        Ok(Record::End) => {
            *kind = 5;
            *next = place + 1;
            0
        }
        Err(refusal) => refusal.number(),
    }
}

// As `job_sheet::read_record`. Kind 1 has its vertices in `first` and its floor in `second`, 2 its ends and in `value` the bits of its
// magnitude, 3 those of its beta, 4 its ends. What a kind has not keeps what it held, and where the call is refused all do.
#[unsafe(no_mangle)]
pub extern "C" fn copperhook_sheet_read(
    sheet: &[u8],
    place: usize,
    last: usize,
    kind: &mut usize,
    next: &mut usize,
    first: &mut usize,
    second: &mut usize,
    value: &mut u64,
) -> usize
    ensures { Tells (record_at sheet.now place last) place result kind.old kind.new next.old next.new
        first.old first.new second.old second.new value.old value.new }
{
    let answer = read_record(sheet, place, last);
    tell_record(answer, place, kind, next, first, second, value)
}
