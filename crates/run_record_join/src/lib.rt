// Two run records of one run joined to one, in whichever order they are handed in.
#![tactic(auto)]

ghost use Rattle.std.specs.Prelude.{◌≡◌};
ghost use Rattle.refusals.specs.Numbers.{refused};
ghost use Rattle.run_record_join.specs.Joining.{apart, Joined};

use refusals::Refusal;
use run_record::{Head, head_of};
use run_record_reader::is_record;

mod turns;

use turns::join_in_turn;

// 27 of two heads.
fn are_apart(g: Head, h: Head) -> bool
    ensures { result ≡ apart g h }
{
    if g.seed != h.seed {
        return true;
    }
    if g.samples != h.samples {
        return true;
    }
    if g.betas != h.betas {
        return true;
    }
    if g.pairs != h.pairs {
        return true;
    }
    if g.end == h.start {
        return false;
    }
    h.end != g.start
}

// The joined record is in `joined`, which a refused call leaves as it was.
pub fn record_join(one: &[u8], two: &[u8], joined: &mut [u8]) -> Result<(), Refusal>
    ensures { Joined one.now two.now (refused result) joined.old joined.new }
{
    if !is_record(one) {
        return Err(Refusal::Record);
    }
    if !is_record(two) {
        return Err(Refusal::Record);
    }
    let g = head_of(one);
    let h = head_of(two);
    if are_apart(g, h) {
        return Err(Refusal::Join);
    }
    if g.end == h.start {
        return join_in_turn(one, two, joined);
    }
    join_in_turn(two, one, joined)
}
