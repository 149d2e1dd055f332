// Replays the original's generators. A record of data/generators.bin is 83 words: 0, a seed and 0, or 1, a seed and a stream's index; then the
// first 64 words of that generator and the 16 uniforms after them. `answers generators` of rust/oracle made it from the original.
#![tactic(auto)]

use rng::Rng;
use std::io;

const WORDS: usize = 64;

const UNIFORMS: usize = 16;
// bytes
const HEAD: usize = 8 * 3;

const RECORD: usize = HEAD + 8 * (WORDS + UNIFORMS);

// A generator after some draws, and whether they were the stored ones.
#[derive(Drop)]
struct Replayed {
    rng: Rng,
    same: bool,
}

fn replay_words(list: &[u8], at: usize, start: Rng) -> Replayed {
    let mut rng = start;
    let mut same = true;
    for i in 0..WORDS {
        let drawn = rng.next_u64();
        same = same
            & (drawn.word == replay_format::word(list, std::num::wrapping_add_usize(at, i * 8)));
        let after = drawn.rng;
        rng = after;
    }
    Replayed { rng, same }
}

fn replay_uniforms(list: &[u8], at: usize, start: Rng) -> Replayed {
    let mut rng = start;
    let mut same = true;
    for i in 0..UNIFORMS {
        let drawn = rng.uniform();
        same = same
            & (replay_format::bits_of(drawn.value)
                == replay_format::word(list, std::num::wrapping_add_usize(at, i * 8)));
        let after = drawn.rng;
        rng = after;
    }
    Replayed { rng, same }
}

fn generator(list: &[u8], at: usize) -> Rng {
    let seed = replay_format::word(list, std::num::wrapping_add_usize(at, 8));
    if replay_format::word(list, at) == 0 {
        return Rng::new(seed);
    }
    Rng::stream(
        seed,
        replay_format::word(list, std::num::wrapping_add_usize(at, 16)),
    )
}

// Whether the record at `at` is what our generator draws.
fn replay(list: &[u8], at: usize) -> bool {
    let words = replay_words(
        list,
        std::num::wrapping_add_usize(at, 24),
        generator(list, at),
    );
    let after = words.rng;
    let uniforms = replay_uniforms(
        list,
        std::num::wrapping_add_usize(at, HEAD + 8 * WORDS),
        after,
    );
    words.same & uniforms.same
}

fn count_same(list: &[u8]) -> usize {
    let mut count: usize = 0;
    for i in 0..list.len() / RECORD {
        if replay(list, i * RECORD) {
            count += 1;
        }
    }
    count
}

fn report(rt: &impl Print, list: &[u8]) -> io::Result<()> {
    replay_format::print_tally(
        rt,
        count_same(list),
        list.len() / RECORD,
        " generators agree, 64 words and 16 uniforms each; bytes left over: ",
    )?;
    replay_format::print_number(rt, list.len() % RECORD)?;
    println!(rt)
}

fn main(rt: HostRuntime) -> io::Result<()> {
    let mut list = [0u8; 65536];
    let n = replay_format::read_file(&rt, "generators.bin", &mut list)?;
    report(&rt, &list[..n])
}
