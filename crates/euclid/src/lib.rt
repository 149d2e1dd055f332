// The greatest common divisor by Euclid's rule, and fractions in lowest terms.
#![tactic(auto)]

ghost use Rattle.std.specs.Prelude.{◌≡◌};
ghost use Rattle.euclid.specs.Euclid.{gcd, reduced};

#[derive(Drop)]
pub struct Fraction {
    pub top: u64,
    pub bottom: u64,
}

// The remainder falls at each call: fewer than 100 calls for any two words.
pub fn gcd(a: u64, b: u64) -> u64
    ensures { result ≡ gcd a b }
{
    if b == 0 { a } else { gcd(b, a % b) }
}

// A zero share is 0/1. 0/0 stays: it is no fraction.
pub fn reduce(top: u64, bottom: u64) -> Fraction
    ensures { result ≡ reduced top bottom }
{
    let divisor = gcd(top, bottom);
    if divisor == 0 {
        return Fraction { top: 0, bottom: 0 };
    }
    Fraction {
        top: top / divisor,
        bottom: bottom / divisor,
    }
}
