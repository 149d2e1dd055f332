// One record of a sheet, by its place and the kind read last.
ghost use Rattle.std.specs.Prelude.{◌≡◌, ◌+◌, ◌≤◌, length};
ghost use Rattle.refusals.specs.Numbers.{refused, by_number};
ghost use Rattle.little_endian.specs.Words.{word_at};
ghost use Rattle.job_sheet.specs.Records.{may_follow, record_length, refusal_at, record_of, record_at};

use little_endian::word_at;
use refusals::Refusal;

// The five kinds in their order. A double is its bits.
#[derive(Drop)]
pub enum Record {
    Size(usize, usize),
    Edge(usize, usize, u64),
    Beta(u64),
    Pair(usize, usize),
    End,
}

// How many bytes a record of this kind has.
pub fn record_length(kind: usize) -> usize
    ensures { result ≡ record_length kind }
{
    if kind == 1 {
        return 4;
    }
    if kind == 2 {
        return 13;
    }
    if kind == 3 {
        return 9;
    }
    if kind == 4 {
        return 5;
    }
    1
}

// Returns whether a record of this kind may stand behind the kind read last.
fn may_follow(last: usize, kind: usize) -> bool
    ensures { result ≡ may_follow last kind }
{
    if last == 0 {
        return kind == 1;
    }
    if 5 <= last {
        return false;
    }
    if kind < 2 {
        return false;
    }
    if kind < last {
        return false;
    }
    kind <= 5
}

// Refuses where the reader has no record to answer: 19 or 20.
pub fn check_record(sheet: &[u8], place: usize, last: usize) -> Result<(), Refusal>
    ensures { refused result ≡ refusal_at sheet.now place last }
{
    if sheet.len() <= place {
        return Err(Refusal::SheetRecord);
    }
    let kind = sheet[place] as usize;
    if !may_follow(last, kind) {
        return Err(Refusal::SheetRecord);
    }
    let left = sheet.len() - place;
    if left < record_length(kind) {
        return Err(Refusal::SheetRecord);
    }
    if kind < 5 {
        return Ok(());
    }
    if 1 < left {
        return Err(Refusal::SheetTail);
    }
    Ok(())
}

// The number of so few bytes that begin at `place`.
pub fn number_at(sheet: &[u8], place: usize, width: usize) -> usize
    requires { (width ≤ 8) × (place + width ≤ length sheet.now) }
    ensures { result ≡ word_at sheet.now place width }
{
    word_at(sheet, place, width) as usize
}

// The record of this kind whose bytes are all there.
fn whole_record(sheet: &[u8], place: usize, kind: usize) -> Record
    requires { place + record_length kind ≤ length sheet.now }
    ensures { result ≡ record_of sheet.now place kind }
{
    if kind == 1 {
        return Record::Size(
            number_at(sheet, place + 1, 2),
            number_at(sheet, place + 3, 1),
        );
    }
    if kind == 2 {
        return Record::Edge(
            number_at(sheet, place + 1, 2),
            number_at(sheet, place + 3, 2),
            word_at(sheet, place + 5, 8),
        );
    }
    if kind == 3 {
        return Record::Beta(word_at(sheet, place + 1, 8));
    }
    if kind == 4 {
        return Record::Pair(
            number_at(sheet, place + 1, 2),
            number_at(sheet, place + 3, 2),
        );
    }
    Record::End
}

// The record at `place`, where `last` is the kind read last, 0 at first.
pub fn read_record(sheet: &[u8], place: usize, last: usize) -> Result<Record, Refusal>
    ensures { by_number result ≡ record_at sheet.now place last }
{
    check_record(sheet, place, last)?;
    Ok(whole_record(sheet, place, sheet[place] as usize))
}
