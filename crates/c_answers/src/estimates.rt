// An estimate through references.
ghost use Rattle.c_answers.specs.Estimated.{Tells, TellsComplete};

use estimate::Estimate;
use refusals::Refusal;

// `enough` tells whether there is an error: of two configurations or more, or of a complete enumeration. Then `mean` and `error` are written,
// else only `mean`; where the call is refused, all keep what they held.
pub fn tell_estimate(
    answer: Result<Estimate, Refusal>,
    enough: &mut bool,
    mean: &mut f64,
    error: &mut f64,
) -> usize
    ensures { Tells answer result enough.old enough.new mean.old mean.new error.old error.new }
{
    match answer {
        Ok(Estimate::Estimated(e)) => {
            *enough = true;
            *mean = e.mean;
            *error = e.error;
            0
        }
        Ok(Estimate::TooFew(alone)) => {
            *enough = false;
            *mean = alone;
            0
        }
        Ok(Estimate::Complete(all)) => {
            *enough = true;
            *mean = all.mean;
            *error = all.error;
            0
        }
        Err(refusal) => refusal.number(),
    }
}

// Of a complete enumeration `mean`, `error` and `spread` are written; where the call is refused, all keep what they held.
pub fn tell_complete(
    answer: Result<Estimate, Refusal>,
    mean: &mut f64,
    error: &mut f64,
    spread: &mut f64,
) -> usize
    ensures { TellsComplete answer result mean.old mean.new error.old error.new spread.old spread.new }
{
    match answer {
        Ok(Estimate::Estimated(sampled)) => {
            *mean = sampled.mean;
            *error = sampled.error;
            0
        }
        Ok(Estimate::TooFew(alone)) => {
            *mean = alone;
            0
        }
        Ok(Estimate::Complete(all)) => {
            *mean = all.mean;
            *error = all.error;
            *spread = all.spread;
            0
        }
        Err(refusal) => refusal.number(),
    }
}
