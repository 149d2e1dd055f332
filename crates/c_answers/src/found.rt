// A value that may not be there, through references, and whether it is.
ghost use Rattle.c_answers.specs.Found.{Tells};

use refusals::Refusal;

// Where the call is refused both keep what they held, and where there is none `value` does.
pub fn tell_found<T: Copy>(
    answer: Result<Option<T>, Refusal>,
    found: &mut bool,
    value: &mut T,
) -> usize
    ensures { Tells answer result found.old found.new value.old value.new }
{
    match answer {
        Ok(Some(it)) => {
            *found = true;
            *value = it;
            0
        }
        Ok(None) => {
            *found = false;
            0
        }
        Err(refusal) => refusal.number(),
    }
}
