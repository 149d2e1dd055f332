// Lists of stored answers, as the replay programs read them: a row of 64-bit words, little-endian, a double as its bits.
ghost use Rattle.std.specs.Prelude.{◌≡◌, min, length, from_bits, nat_eq, slice_index_or, to_bits};
ghost use Rattle.std.specs.Float.{binary64, nan};
ghost use Rattle.list_laws.specs.Tabulate.{tabulate};
ghost use Rattle.replay_format.specs.Words.{word_at, place_at, every};

use little_endian::{bits_of, double_of};

fn wide(x: u8) -> u64
    ensures { result ≡ x }
{
    x as u64
}

// The word whose bytes begin at `at`, or 0 where they do not all lie in the list.
pub fn word(list: &[u8], at: usize) -> u64
    ensures { result ≡ word_at list.now at }
{
    if list.len() < 8 {
        return 0;
    }
    if list.len() - 8 < at {
        return 0;
    }
    wide(list[at])
        | (wide(list[at + 1]) << 8)
        | (wide(list[at + 2]) << 16)
        | (wide(list[at + 3]) << 24)
        | (wide(list[at + 4]) << 32)
        | (wide(list[at + 5]) << 40)
        | (wide(list[at + 6]) << 48)
        | (wide(list[at + 7]) << 56)
}

pub fn number_at(list: &[u8], place: usize) -> usize
    ensures { result ≡ word_at list.now place }
{
    word(list, place) as usize
}

// A stored length, no more than a buffer has.
pub fn length_at(list: &[u8], place: usize, most: usize) -> usize
    ensures { result ≡ min (word_at list.now place) most }
{
    let k = number_at(list, place);
    if k < most { k } else { most }
}

// The place some words on; no list of a record is longer than 65,536.
pub fn at(start: usize, words: usize) -> usize
    ensures { result ≡ place_at start words }
{
    if 65536 < words {
        return start;
    }
    std::num::wrapping_add_usize(start, words * 8)
}

pub fn load_numbers(list: &[u8], start: usize, out: &mut [usize])
    ensures { out.new ≡ tabulate (λ i. word_at list.now (place_at start i)) (length out.old) }
{
    for (i, x) in out.iter_mut().enumerate() {
        *x = word(list, at(start, i)) as usize;
    }
}

pub fn load_doubles(list: &[u8], start: usize, out: &mut [f64])
    ensures { out.new ≡ tabulate (λ i. from_bits binary64 (word_at list.now (place_at start i))) (length out.old) }
{
    for (i, x) in out.iter_mut().enumerate() {
        *x = double_of(word(list, at(start, i)));
    }
}

// Whether the bits are the stored ones.
pub fn are_stored(xs: &[f64], list: &[u8], start: usize) -> bool
    ensures { result ≡ every (λ i. nat_eq (to_bits binary64 (slice_index_or xs.now i nan)) (word_at list.now (place_at start i))) (length xs.now) }
{
    let mut same = true;
    for (i, x) in xs.iter().enumerate() {
        same = same & (bits_of(*x) == word(list, at(start, i)));
    }
    same
}
