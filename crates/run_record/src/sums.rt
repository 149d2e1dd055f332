// The sums of a row, doubles by their bits.
ghost use Rattle.std.specs.Prelude.{◌≡◌, ◌+◌, ◌≤◌, length};
ghost use Rattle.std.specs.Float.{binary64};
ghost use Rattle.std.specs.Float.Ieee.{of_bits};
ghost use Rattle.limits.specs.Limits.{most_named};
ghost use Rattle.run_record.specs.Reading.{double_at, bad_sums};

use estimate::in_order;
use little_endian::{double_of, word_at};

// -0.0.
const MINUS_ZERO: u64 = 0x8000_0000_0000_0000;

pub fn double_at(bytes: &[u8], place: usize) -> f64
    requires { place + 8 ≤ length bytes.now }
    ensures { result ≡ double_at bytes.now place }
{
    double_of(word_at(bytes, place, 8))
}

// The order of doubles takes -0.0 for zero, so its pattern is asked for.
pub fn bad_sums(samples: usize, squares: u64, fourths: u64) -> bool
    requires { samples ≤ most_named }
    ensures { result ≡ bad_sums samples (of_bits binary64 squares) (of_bits binary64 fourths) }
{
    if squares == MINUS_ZERO {
        return true;
    }
    if fourths == MINUS_ZERO {
        return true;
    }
    let n = samples as f64;
    !in_order(n, double_of(squares), double_of(fourths))
}
