// How many lists there may be, and how long.
ghost use Rattle.std.specs.Prelude.{◌≡◌};
ghost use Rattle.shares.specs.Shares.{bad_length, bad_lists};

use limits::{ENTRIES, LISTS};

fn bad_length(entries: usize) -> bool
    ensures { result ≡ bad_length entries }
{
    entries == 0 || ENTRIES < entries
}

// A length is limited before it is added, so that no sum wraps.
pub fn bad_lists(lengths: &[usize], lent: usize) -> bool
    ensures { result ≡ bad_lists lengths.now lent }
{
    if lengths.len() == 0 {
        return true;
    }
    if LISTS < lengths.len() {
        return true;
    }
    let mut total: usize = 0;
    for entries in lengths {
        if bad_length(*entries) {
            return true;
        }
        total += *entries;
    }
    total != lent
}
