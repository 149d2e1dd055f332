// Diluted strips: our list keeps the dropped edges at +0.0, the original's graph does not. And buffers one too short, or exact.
ghost use Rattle.std.specs.Prelude.{◌≤◌, length};

use crate::common::{
    GUARD, GUARD_MAGNITUDE, cut, is_number, is_refused, see_edges, strip_of, wide, word,
};
use crate::diluted_graphs;
use refusals::Refusal;
use strip::Strip;

// The kept edges among the first k: how many, their checksum, and the longest.
#[derive(Drop)]
struct Kept {
    edges: usize,
    hash: u64,
    longest: usize,
}

fn longer(most: usize, a: usize, b: usize) -> usize {
    if a < b {
        if most < b - a {
            return b - a;
        }
    }
    most
}

fn kept_of(k: usize, early: &[usize; 4096], late: &[usize; 4096], mag: &[f64; 4096]) -> Kept {
    let mut edges: usize = 0;
    let mut hashed = replay_format::OFFSET;
    let mut longest: usize = 1;
    for i in 0..4096 {
        let a = early[i];
        let b = late[i];
        let m = mag[i];
        if (i < k) & (m != 0.0) {
            edges += 1;
            hashed = replay_format::mix_number(replay_format::mix_number(hashed, a), b);
            hashed = replay_format::mix(hashed, replay_format::bits_of(m));
            longest = longer(longest, a, b);
        }
    }
    Kept {
        edges,
        hash: hashed,
        longest,
    }
}

fn number(a: &Result<usize, Refusal>) -> usize {
    match a {
        Ok(k) => *k,
        Err(_) => 0,
    }
}

#[derive(Clone, Copy)]
pub(crate) struct Dilution {
    pub keep: f64,
    pub low: f64,
    pub high: f64,
    pub seed: u64,
}

// The diluted list into the first a, b and c elements of three buffers.
fn lend(
    s: Strip,
    x: Dilution,
    a: usize,
    b: usize,
    c: usize,
    early: &mut [usize],
    late: &mut [usize],
    mag: &mut [f64],
) -> Result<usize, Refusal>
    requires { (a ≤ length early.old) × (b ≤ length late.old) × (c ≤ length mag.old) }
{
    strip_dilution::diluted(
        s,
        x.keep,
        x.low,
        x.high,
        x.seed,
        &mut early[..a],
        &mut late[..b],
        &mut mag[..c],
    )
}

// Buffers for k edges, of which one is one too short: 12, and nothing is written.
fn short_agrees(s: Strip, x: Dilution, k: usize, buffer: usize) -> bool {
    let mut early = [GUARD; 4096];
    let mut late = [GUARD; 4096];
    let mut mag = [GUARD_MAGNITUDE; 4096];
    if 4096 < k {
        return false;
    }
    let a = cut(k, buffer == 0);
    let b = cut(k, buffer == 1);
    let c = cut(k, buffer == 2);
    let answer = lend(s, x, a, b, c, &mut early, &mut late, &mut mag);
    let seen = see_edges(0, &early, &late, &mag);
    is_refused(answer, 12) & seen.rest
}

// Buffers of exactly k: the same kept edges, and no more is written.
fn exact_agrees(s: Strip, x: Dilution, k: usize, hash: u64) -> bool {
    let mut early = [GUARD; 4096];
    let mut late = [GUARD; 4096];
    let mut mag = [GUARD_MAGNITUDE; 4096];
    if 4096 < k {
        return false;
    }
    let answer = lend(s, x, k, k, k, &mut early, &mut late, &mut mag);
    let kept = kept_of(k, &early, &late, &mag);
    let seen = see_edges(wide(k), &early, &late, &mag);
    is_number(answer, wide(k)) & (kept.hash == hash) & seen.rest
}

fn lengths_agree(s: Strip, x: Dilution, k: usize, hash: u64) -> bool {
    if k == 0 {
        return true;
    }
    short_agrees(s, x, k, 0)
        & short_agrees(s, x, k, 1)
        & short_agrees(s, x, k, 2)
        & exact_agrees(s, x, k, hash)
}

// A record: the strip, the seed, keep and the bounds; the kept edges, their checksum, the window; the strip's edges, and the checksum with the places.
pub(crate) fn replay(list: &[u8], at: usize) -> bool {
    let s = strip_of(word(list, at, 0));
    let x = Dilution {
        keep: replay_format::double_of(word(list, at, 2)),
        low: replay_format::double_of(word(list, at, 3)),
        high: replay_format::double_of(word(list, at, 4)),
        seed: word(list, at, 1),
    };
    let mut early = [GUARD; 4096];
    let mut late = [GUARD; 4096];
    let mut mag = [GUARD_MAGNITUDE; 4096];
    let answer = lend(s, x, 4096, 4096, 4096, &mut early, &mut late, &mut mag);
    let k = number(&answer);
    let kept = kept_of(k, &early, &late, &mag);
    let floor = number(&strip_window::window(s));
    let win = if floor < kept.longest {
        kept.longest
    } else {
        floor
    };
    is_number(answer, word(list, at, 8))
        & (wide(kept.edges) == word(list, at, 5))
        & (kept.hash == word(list, at, 6))
        & (wide(win) == word(list, at, 7))
        & lengths_agree(s, x, k, kept.hash)
        & diluted_graphs::agree(s, x, list, at)
}
