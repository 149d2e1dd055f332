// What the replays share: strips from stored words, checksums, and buffers filled with guards, which a call must leave where it writes nothing.
ghost use Rattle.std.specs.Prelude.{◌≤◌};

use refusals::Refusal;
use strip::{Kind, Strip};

pub(crate) const GUARD: usize = 77;

pub(crate) const GUARD_MAGNITUDE: f64 = 0.25;

pub(crate) const GUARD_BYTE: u8 = 255;

pub(crate) fn wide(x: usize) -> u64 {
    x as u64
}

pub(crate) fn kind_of(k: u64) -> Kind {
    match k {
        0 => Kind::Square,
        1 => Kind::Tri,
        _ => Kind::Honey,
    }
}

// The kind's place, 256 for a cylinder, the width from bit 16 on and the length from bit 32 on.
pub(crate) fn strip_of(x: u64) -> Strip {
    let kind = kind_of(x % 256);
    Strip {
        kind,
        w: ((x >> 16) % 65536) as usize,
        l: ((x >> 32) % 65536) as usize,
        periodic: (x >> 8) % 256 == 1,
    }
}

// Word i of the record at `at`.
pub(crate) fn word(list: &[u8], at: usize, i: usize) -> u64
    requires { i ≤ 16 }
{
    replay_format::word(list, std::num::wrapping_add_usize(at, i * 8))
}

pub(crate) fn is_number(a: Result<usize, Refusal>, n: u64) -> bool {
    match a {
        Ok(k) => wide(k) == n,
        Err(_) => false,
    }
}

// Returns whether it is refused by this number, written out at each caller: the replay does not take it from the library.
pub(crate) fn is_refused<T: Drop>(answer: Result<T, Refusal>, by: u64) -> bool {
    match answer {
        Ok(_) => false,
        Err(refusal) => wide(refusal.number()) == by,
    }
}

// A checksum of what was written, and whether the rest still holds the guards.
#[derive(Drop)]
pub(crate) struct Seen {
    pub hash: u64,
    pub rest: bool,
}

// The first k edges: ends and magnitude.
pub(crate) fn see_edges(
    k: u64,
    early: &[usize; 4096],
    late: &[usize; 4096],
    mag: &[f64; 4096],
) -> Seen {
    let mut hashed = replay_format::OFFSET;
    let mut rest = true;
    for i in 0..4096 {
        let a = early[i];
        let b = late[i];
        let m = mag[i];
        if wide(i) < k {
            hashed = replay_format::mix_number(replay_format::mix_number(hashed, a), b);
            hashed = replay_format::mix(hashed, replay_format::bits_of(m));
        } else {
            rest = rest & (a == GUARD) & (b == GUARD) & (m == GUARD_MAGNITUDE);
        }
    }
    Seen { hash: hashed, rest }
}

// One less than k, where k is not 0 and it is asked for.
pub(crate) fn cut(k: usize, short: bool) -> usize
    ensures { result ≤ k }
{
    if short {
        if 0 < k {
            return k - 1;
        }
    }
    k
}
