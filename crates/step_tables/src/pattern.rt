// Powers of two, and the pattern of an index.
ghost use Rattle.std.specs.Prelude.{◌≡◌, ℕ, ◌^◌, ◌<◌, ◌≤◌, get_or};
ghost use Rattle.step_tables.specs.Step.{pattern_by};

// 2 to the e.
pub fn pow2(e: usize) -> usize
    requires { e < 64 }
    ensures { result ≡ 2 ^ e }
{
    1usize << e
}

// The pattern of k: bit i is bit bits[i] of k.
pub fn pattern_of(k: usize, bits: &[usize; 4], n: usize) -> usize
    requires n_bound { n ≤ 4 }
    requires by_index { (i : ℕ) → i < n → get_or bits.now i 0 < 64 }
    ensures value { result ≡ pattern_by bits.now n k }
    ensures upper_bound { result < 16 }
{
    let mut m = 0usize;
    for i in (0..n).rev() {
        m = 2 * m + (k >> bits[i]) % 2;
    }
    m
}
