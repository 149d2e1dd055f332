// The IEEE 754 square root of a double, for every double. A finite one above zero is taken apart into the fields of its bit pattern; its root is
// worked out to one binary digit more than a double keeps, rounded, and put together again.
#![tactic(auto)]

ghost use Rattle.std.specs.Prelude.{◌≡◌, false};
ghost use Rattle.std.specs.Float.{binary64};
ghost use Rattle.std.specs.Float.Ieee.{of_fields};
ghost use Rattle.sqrt.specs.Sqrt.{sqrt as root};
ghost use Rattle.sqrt.specs.Placed.{Fields};

mod place;
mod whole;

use place::raised;
use whole::whole_root;

// The last digit of the whole root is half a place. Where it is 1 the root is past the middle, so adding 1 rounds to the nearest, and carries
// into the exponent's field.
fn root_of_fields(exponent: u64, digits: u64) -> f64
    requires { Fields exponent digits }
    ensures { result ≡ root binary64 (of_fields binary64 false exponent digits) }
{
    let p = raised(exponent, digits);
    let halves = whole_root(p.significand);
    f64::from_bits(p.power * 0x0010_0000_0000_0000 + (halves + 1) / 2)
}

pub fn sqrt(x: f64) -> f64
    ensures { result ≡ root binary64 x }
{
    if x == 0.0 {
        return x;
    }
    if 0.0 < x {
        let bits = f64::to_bits(x);
        let exponent = bits % 0x8000_0000_0000_0000 / 0x0010_0000_0000_0000;
        if exponent == 2047 {
            return x;
        }
        return root_of_fields(exponent, bits % 0x0010_0000_0000_0000);
    }
    0.0 / 0.0
}
