// What results and work memory hold: filled before a call, and looked at after it.
use crate::words::word;
use little_endian::{bits_of, double_of};

// All of a list the double at `place`.
pub fn fill(list: &[u8], place: usize, out: &mut [f64]) {
    let x = double_of(word(list, place));
    out.fill(x);
}

// Whether the first `cleared` are +0.0 and the others have the bits given.
pub fn are_cleared(xs: &[f64], cleared: usize, others: u64) -> bool {
    let mut same = true;
    for (i, x) in xs.iter().enumerate() {
        let expected = if i < cleared { 0 } else { others };
        same = same & (bits_of(*x) == expected);
    }
    same
}
