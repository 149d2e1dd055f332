// A strip whole: its edges by their checksum, its window, its pairs with their labels, and buffers one too short.
ghost use Rattle.std.specs.Prelude.{◌≤◌, length};

use crate::common::{
    GUARD, GUARD_BYTE, GUARD_MAGNITUDE, Seen, cut, is_number, is_refused, see_edges, strip_of,
    wide, word,
};
use refusals::Refusal;
use strip::Strip;

fn edges_agree(s: Strip, k: u64, sum: u64) -> bool {
    let mut early = [GUARD; 4096];
    let mut late = [GUARD; 4096];
    let mut mag = [GUARD_MAGNITUDE; 4096];
    let answer = strip_edges::raw_edges(s, &mut early, &mut late, &mut mag);
    let seen = see_edges(k, &early, &late, &mag);
    is_number(answer, k) & (seen.hash == sum) & seen.rest
}

// A honeycomb cylinder of odd width: 16, and nothing is written.
fn odd_agrees(s: Strip) -> bool {
    let mut early = [GUARD; 4096];
    let mut late = [GUARD; 4096];
    let mut mag = [GUARD_MAGNITUDE; 4096];
    let answer = strip_edges::raw_edges(s, &mut early, &mut late, &mut mag);
    let seen = see_edges(0, &early, &late, &mag);
    is_refused(answer, 16) & seen.rest & is_refused(strip_window::window(s), 16)
}

// The edge list into the first a, b and c elements of three buffers.
fn lend_edges(
    s: Strip,
    a: usize,
    b: usize,
    c: usize,
    early: &mut [usize],
    late: &mut [usize],
    mag: &mut [f64],
) -> Result<usize, Refusal>
    requires { (a ≤ length early.old) × (b ≤ length late.old) × (c ≤ length mag.old) }
{
    strip_edges::raw_edges(s, &mut early[..a], &mut late[..b], &mut mag[..c])
}

// The pair set into the first a, b and c elements of three buffers.
fn lend_pairs(
    s: Strip,
    a: usize,
    b: usize,
    c: usize,
    us: &mut [usize],
    vs: &mut [usize],
    labels: &mut [u8],
) -> Result<usize, Refusal>
    requires { (a ≤ length us.old) × (b ≤ length vs.old) × (c ≤ length labels.old) }
{
    strip_pairs::pairs(s, &mut us[..a], &mut vs[..b], &mut labels[..c])
}

// Buffers for k edges, of which one is one too short: 12, and nothing is written.
fn short_agrees(s: Strip, k: usize, buffer: usize) -> bool {
    let mut early = [GUARD; 4096];
    let mut late = [GUARD; 4096];
    let mut mag = [GUARD_MAGNITUDE; 4096];
    if 4096 < k {
        return false;
    }
    let a = cut(k, buffer == 0);
    let b = cut(k, buffer == 1);
    let c = cut(k, buffer == 2);
    let answer = lend_edges(s, a, b, c, &mut early, &mut late, &mut mag);
    let seen = see_edges(0, &early, &late, &mag);
    is_refused(answer, 12) & seen.rest
}

// Buffers of exactly k.
fn exact_agrees(s: Strip, k: usize, sum: u64) -> bool {
    let mut early = [GUARD; 4096];
    let mut late = [GUARD; 4096];
    let mut mag = [GUARD_MAGNITUDE; 4096];
    if 4096 < k {
        return false;
    }
    let answer = lend_edges(s, k, k, k, &mut early, &mut late, &mut mag);
    let seen = see_edges(wide(k), &early, &late, &mag);
    is_number(answer, wide(k)) & (seen.hash == sum) & seen.rest
}

fn lengths_agree(s: Strip, k: usize, sum: u64) -> bool {
    if k == 0 {
        return true;
    }
    short_agrees(s, k, 0) & short_agrees(s, k, 1) & short_agrees(s, k, 2) & exact_agrees(s, k, sum)
}

fn see_ends(k: u64, us: &[usize; 20], vs: &[usize; 20]) -> Seen {
    let mut hashed = replay_format::OFFSET;
    let mut rest = true;
    for i in 0..20 {
        let u = us[i];
        let v = vs[i];
        if wide(i) < k {
            hashed = replay_format::mix_number(replay_format::mix_number(hashed, u), v);
        } else {
            rest = rest & (u == GUARD) & (v == GUARD);
        }
    }
    Seen { hash: hashed, rest }
}

fn byte(x: u8) -> u64 {
    x as u64
}

// k labels, each closed by a zero byte, after the ends.
fn see_labels(k: u64, ends: Seen, labels: &[u8; 320]) -> Seen {
    let mut hashed = ends.hash;
    let mut rest = ends.rest;
    let mut closed: u64 = 0;
    for x in labels {
        if closed < k {
            hashed = replay_format::mix(hashed, byte(*x));
        } else {
            rest = rest & (*x == GUARD_BYTE);
        }
        closed = std::num::wrapping_add_u64(closed, if *x == 0 { 1 } else { 0 });
    }
    Seen { hash: hashed, rest }
}

fn pairs_agree(s: Strip, k: u64, sum: u64) -> bool {
    let mut us = [GUARD; 20];
    let mut vs = [GUARD; 20];
    let mut labels = [GUARD_BYTE; 320];
    let answer = strip_pairs::pairs(s, &mut us, &mut vs, &mut labels);
    let seen = see_labels(k, see_ends(k, &us, &vs), &labels);
    is_number(answer, k) & (seen.hash == sum) & seen.rest
}

// Buffers for k pairs and n bytes, of which one is one too short, or none where `buffer` is 3.
fn pairs_short(s: Strip, k: usize, n: usize, buffer: usize) -> bool {
    let mut us = [GUARD; 20];
    let mut vs = [GUARD; 20];
    let mut labels = [GUARD_BYTE; 320];
    if 20 < k {
        return false;
    }
    if 320 < n {
        return false;
    }
    let a = cut(k, buffer == 0);
    let b = cut(k, buffer == 1);
    let c = cut(n, buffer == 2);
    let answer = lend_pairs(s, a, b, c, &mut us, &mut vs, &mut labels);
    if buffer == 3 {
        return is_number(answer, wide(k));
    }
    let seen = see_labels(0, see_ends(0, &us, &vs), &labels);
    is_refused(answer, 12) & seen.rest
}

fn pair_lengths_agree(s: Strip, k: usize, n: usize) -> bool {
    if k == 0 {
        return true;
    }
    pairs_short(s, k, n, 0)
        & pairs_short(s, k, n, 1)
        & pairs_short(s, k, n, 2)
        & pairs_short(s, k, n, 3)
}

// A record: the strip, edges, their checksum, the window, pairs, their labels' bytes, their checksum.
pub(crate) fn replay(list: &[u8], at: usize) -> bool {
    let s = strip_of(word(list, at, 0));
    let k = word(list, at, 1);
    let sum = word(list, at, 2);
    let win = word(list, at, 3);
    let n = word(list, at, 4);
    let pairs = pairs_agree(s, n, word(list, at, 6))
        & pair_lengths_agree(s, n as usize, word(list, at, 5) as usize);
    if win == 0 {
        return pairs & odd_agrees(s);
    }
    pairs
        & edges_agree(s, k, sum)
        & lengths_agree(s, k as usize, sum)
        & is_number(strip_window::window(s), win)
}
