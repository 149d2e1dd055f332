// The bits of a double, and the double of bits.
ghost use Rattle.std.specs.Prelude.{◌≡◌};
ghost use Rattle.std.specs.Float.{binary64};
ghost use Rattle.std.specs.Float.Ieee.{to_bits, of_bits};

// One pattern for every NaN.
pub fn bits_of(x: f64) -> u64
    ensures { result ≡ to_bits binary64 x }
{
    if x == x {
        return f64::to_bits(x);
    }
    0x7ff8_0000_0000_0000
}

// Without its sign, the largest pattern that is no NaN's.
const INFINITY: u64 = 0x7ff0_0000_0000_0000;

// The sign alone.
const SIGN: u64 = 0x8000_0000_0000_0000;

// The double of a pattern; one NaN for every NaN's.
pub fn double_of(bits: u64) -> f64
    ensures { result ≡ of_bits binary64 bits }
{
    if bits % SIGN <= INFINITY {
        return f64::from_bits(bits);
    }
    0.0 / 0.0
}
