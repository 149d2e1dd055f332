// Where the digits of a root start, by the fields of a pattern: the exponent's, and the digits below the leading one.
ghost use Rattle.std.specs.Prelude.{◌^◌, ◌≤◌};
ghost use Rattle.sqrt.specs.Placed.{Fields, magnitude, Placed};

// The root is that of significand * 2^54, in halves of 2^power of the smallest values.
#[derive(Drop)]
pub struct Place {
    pub significand: u64,
    pub power: u64,
}

// Beside significand * 2^54 stands the factor 2^(exponent + 1021), which must be a power of 4: where it is not, the significand is doubled. A
// field of 0 counts as 1, and has no leading digit.
fn placed(exponent: u64, digits: u64) -> Place
    requires { Fields exponent digits }
    ensures { Placed (magnitude exponent digits) result.significand result.power }
{
    if exponent == 0 {
        return Place {
            significand: digits,
            power: 511,
        };
    }
    let significand = digits + 0x0010_0000_0000_0000;
    let power = (exponent + 1021) / 2;
    if exponent % 2 == 0 {
        return Place {
            significand: 2 * significand,
            power,
        };
    }
    Place { significand, power }
}

// A subnormal's significand is moved up by two digits at a time, until it has 53 or 54.
pub fn raised(exponent: u64, digits: u64) -> Place
    requires { Fields exponent digits }
    ensures { Placed (magnitude exponent digits) result.significand result.power × (2 ^ 52 ≤ result.significand) }
{
    let p = placed(exponent, digits);
    let mut significand = p.significand;
    let mut power = p.power;
    while significand < 0x0010_0000_0000_0000 {
        significand = 4 * significand;
        power -= 1;
    }
    Place { significand, power }
}
