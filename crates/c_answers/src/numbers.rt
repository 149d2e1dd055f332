// A number through a reference.
ghost use Rattle.c_answers.specs.Numbers.{Tells};

use refusals::Refusal;

// Where the call is refused, `held` keeps what it held.
pub fn tell_number(answer: Result<usize, Refusal>, held: &mut usize) -> usize
    ensures { Tells answer result held.old held.new }
{
    match answer {
        Ok(number) => {
            *held = number;
            0
        }
        Err(refusal) => refusal.number(),
    }
}
