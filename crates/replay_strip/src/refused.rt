// Refusals and near misses of every entry.
use crate::common::{GUARD, GUARD_BYTE, GUARD_MAGNITUDE, kind_of, see_edges, wide, word};
use refusals::Refusal;
use strip::Strip;

// The refusal's number, 0 for accepted.
fn refusal(a: Result<usize, Refusal>) -> u64 {
    match a {
        Ok(_) => 0,
        Err(refusal) => wide(refusal.number()),
    }
}

// Whether the call is refused as stored, with nothing written.
fn edges_agree(s: Strip, list: &[u8], at: usize, diluted: bool) -> bool {
    let mut early = [GUARD; 4096];
    let mut late = [GUARD; 4096];
    let mut mag = [GUARD_MAGNITUDE; 4096];
    let keep = replay_format::double_of(word(list, at, 5));
    let low = replay_format::double_of(word(list, at, 6));
    let high = replay_format::double_of(word(list, at, 7));
    let expected = word(list, at, 8);
    let answered = if diluted {
        refusal(strip_dilution::diluted(s, keep, low, high, 1, &mut early, &mut late, &mut mag))
    } else {
        refusal(strip_edges::raw_edges(s, &mut early, &mut late, &mut mag))
    };
    let seen = see_edges(0, &early, &late, &mag);
    (answered == expected) & (seen.rest | (expected == 0))
}

fn pairs_refusal(s: Strip) -> u64 {
    let mut us = [GUARD; 20];
    let mut vs = [GUARD; 20];
    let mut labels = [GUARD_BYTE; 320];
    refusal(strip_pairs::pairs(s, &mut us, &mut vs, &mut labels))
}

// A record: the call, the kind, 1 for a cylinder, the sides, keep and the bounds, the refusal's number.
pub(crate) fn replay(list: &[u8], at: usize) -> bool {
    let kind = kind_of(word(list, at, 1));
    let s = Strip {
        kind,
        w: word(list, at, 3) as usize,
        l: word(list, at, 4) as usize,
        periodic: word(list, at, 2) == 1,
    };
    let call = word(list, at, 0);
    if call == 2 {
        return pairs_refusal(s) == word(list, at, 8);
    }
    if call == 3 {
        return refusal(strip_window::window(s)) == word(list, at, 8);
    }
    edges_agree(s, list, at, call == 1)
}
