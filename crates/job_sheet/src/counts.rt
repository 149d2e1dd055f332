// A whole sheet, read record by record.
ghost use Rattle.std.specs.Prelude.{◌≡◌, cond, ◌+◌, ◌<◌, ◌^◌, eqb};
ghost use Rattle.refusals.specs.Answers.{Answered};
ghost use Rattle.job_sheet.specs.Records.{record_length};
ghost use Rattle.job_sheet.specs.Counts.{counts_of, records_of, behind, Passed};

use crate::record::{check_record, record_length};
use refusals::Refusal;

// How many records of each kind an accepted sheet has.
#[derive(Clone, Copy)]
pub struct Counts {
    pub edges: usize,
    pub betas: usize,
    pub pairs: usize,
}

// Where the reading of a sheet is: the next place, the kind read last, and the records read.
#[derive(Drop)]
pub struct Reading {
    pub place: usize,
    pub last: usize,
    pub edges: usize,
    pub betas: usize,
    pub pairs: usize,
}

// One more where the kind is the one counted.
fn count_kind(count: usize, kind: usize, counted: usize) -> usize
    requires { count + 1 < 2 ^ 64 }
    ensures { result ≡ count + cond (eqb kind counted) 1 0 }
{
    if kind == counted {
        return count + 1;
    }
    count
}

// Behind a record of this kind.
fn read_on(at: Reading, kind: usize) -> Reading
    requires { Passed at × (at.place + record_length kind < 2 ^ 64) }
    ensures { result ≡ behind at kind }
{
    Reading {
        place: at.place + record_length(kind),
        last: kind,
        edges: count_kind(at.edges, kind, 2),
        betas: count_kind(at.betas, kind, 3),
        pairs: count_kind(at.pairs, kind, 4),
    }
}

// Counts the records of a whole sheet.
pub fn count_records(sheet: &[u8]) -> Result<Counts, Refusal>
    ensures { Answered (counts_of sheet.now).refusal (records_of (counts_of sheet.now)) result }
{
    let mut at = Reading {
        place: 0,
        last: 0,
        edges: 0,
        betas: 0,
        pairs: 0,
    };
    loop {
        let place = at.place;
        check_record(sheet, place, at.last)?;
        let kind = sheet[place] as usize;
        if 5 <= kind {
            return Ok(Counts {
                edges: at.edges,
                betas: at.betas,
                pairs: at.pairs,
            });
        }
        at = read_on(at, kind);
    }
}
