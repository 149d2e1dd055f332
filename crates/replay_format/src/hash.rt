// FNV-1a over words: numbers and doubles.
ghost use Rattle.std.specs.Prelude.{◌≡◌, length, slice_index, slice_index_or, to_bits};
ghost use Rattle.std.specs.Float.{binary64, nan};
ghost use Rattle.replay_format.specs.Words.{mixed, mixed_all};

pub const OFFSET: u64 = 0xcbf2_9ce4_8422_2325;

pub fn mix(hash: u64, word: u64) -> u64
    ensures { result ≡ mixed hash word }
{
    rng::wrapping_mul_u64(hash ^ word, 0x100_0000_01b3)
}

pub fn mix_number(hash: u64, n: usize) -> u64
    ensures { result ≡ mixed hash n }
{
    mix(hash, n as u64)
}

pub fn mix_numbers(hash: u64, xs: &[usize]) -> u64
    ensures { result ≡ mixed_all hash (λ i. slice_index xs.now i) (length xs.now) }
{
    let mut h = hash;
    for x in xs {
        h = mix_number(h, *x);
    }
    h
}

pub fn mix_doubles(hash: u64, xs: &[f64]) -> u64
    ensures { result ≡ mixed_all hash (λ i. to_bits binary64 (slice_index_or xs.now i nan)) (length xs.now) }
{
    let mut h = hash;
    for x in xs {
        h = mix(h, little_endian::bits_of(*x));
    }
    h
}
