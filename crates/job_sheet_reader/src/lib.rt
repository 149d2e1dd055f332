// A reader that holds a sheet and its place in it, with the kind read last.
#![tactic(auto)]

ghost use Rattle.std.specs.Prelude.{◌≡◌};
ghost use Rattle.refusals.specs.Numbers.{by_number};
ghost use Rattle.job_sheet.specs.Records.{record_at};

use job_sheet::{Record, read_record};
use refusals::Refusal;

#[derive(Drop)]
pub struct SheetReader<'a> {
    pub sheet: &'a [u8],
    pub place: usize,
    pub last: usize,
}

// The work: as `job_sheet::read_record`.
pub fn read_at(sheet: &[u8], place: usize, last: usize) -> Result<Record, Refusal>
    ensures { by_number result ≡ record_at sheet.now place last }
{
    read_record(sheet, place, last)
}

// A reader at the first byte, with no kind read.
pub fn new<'a>(sheet: &'a [u8]) -> SheetReader<'a>
    ensures { (result.sheet ≡ sheet.entry) × ((result.place ≡ 0) × (result.last ≡ 0)) }
{
    SheetReader {
        sheet,
        place: 0,
        last: 0,
    }
}

// The record at the reader's place.
pub fn read<'a>(reader: SheetReader<'a>) -> Result<Record, Refusal>
    ensures { by_number result ≡ record_at reader.entry.sheet.now reader.entry.place reader.entry.last }
{
    read_at(reader.sheet, reader.place, reader.last)
}

// The reader behind a record of this kind: where a call goes on.
pub fn behind<'a>(reader: SheetReader<'a>, next: usize, kind: usize) -> SheetReader<'a>
    ensures { (result.sheet ≡ reader.entry.sheet) × ((result.place ≡ next) × (result.last ≡ kind)) }
{
    SheetReader {
        sheet: reader.sheet,
        place: next,
        last: kind,
    }
}
