// Small strips with their edge lists whole.
use crate::common::{GUARD, GUARD_MAGNITUDE, is_number, strip_of, wide, word};
use strip::Strip;

// Whether the first k ends are the stored ones, from `at` on.
fn ends_agree(
    list: &[u8],
    at: usize,
    k: u64,
    early: &[usize; 4096],
    late: &[usize; 4096],
    mag: &[f64; 4096],
) -> bool {
    let mut same = true;
    for i in 0..4096 {
        if wide(i) < k {
            let place = std::num::wrapping_add_usize(at, i * 16);
            same = same
                & (wide(early[i]) == word(list, place, 0))
                & (wide(late[i]) == word(list, place, 1))
                & (mag[i] == 1.0);
        }
    }
    same
}

fn edges_agree(list: &[u8], at: usize, s: Strip, k: u64) -> bool {
    let mut early = [GUARD; 4096];
    let mut late = [GUARD; 4096];
    let mut mag = [GUARD_MAGNITUDE; 4096];
    let answer = strip_edges::raw_edges(s, &mut early, &mut late, &mut mag);
    is_number(answer, k) & ends_agree(list, at, k, &early, &late, &mag)
}

// How many records there are, and how many agree.
#[derive(Drop)]
pub(crate) struct Tally {
    pub records: usize,
    pub agree: usize,
}

// A record: the strip, the number of its edges, and two ends each.
pub(crate) fn replay_all(list: &[u8]) -> Tally {
    let mut records: usize = 0;
    let mut agree: usize = 0;
    let mut at: usize = 0;
    while at < list.len() {
        let s = strip_of(word(list, at, 0));
        let k = word(list, at, 1) % 4096;
        if edges_agree(list, std::num::wrapping_add_usize(at, 16), s, k) {
            agree += 1;
        }
        records += 1;
        at += 16 + 16 * (k as usize);
    }
    Tally { records, agree }
}
