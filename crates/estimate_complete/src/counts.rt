// The count of a complete enumeration.
ghost use Rattle.std.specs.Prelude.{◌≡◌};
ghost use Rattle.estimate_complete.specs.Complete.{is_complete};

use limits::COUNTED;

// Each free edge doubles the count.
pub fn is_complete(count: usize) -> bool
    ensures { result ≡ is_complete count }
{
    let mut power = 1usize;
    for _free in 0..=COUNTED {
        if count == power {
            return true;
        }
        power *= 2;
    }
    false
}
