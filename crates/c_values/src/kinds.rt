// A kind's number, and the kind and the strip that numbers name.
ghost use Rattle.std.specs.Prelude.{◌≡◌};
ghost use Rattle.c_values.specs.Kinds.{number_of, kind_numbered, strip_numbered};

use strip::{Kind, Strip};

pub fn number_of(kind: Kind) -> usize
    ensures { result ≡ number_of kind }
{
    match kind {
        Kind::Square => 0,
        Kind::Tri => 1,
        Kind::Honey => 2,
        Kind::Eight => 3,
    }
}

// 0 is square, 1 triangular, 3 eight and any other number honeycomb, so that no number is a bad kind.
pub fn kind_numbered(number: usize) -> Kind
    ensures { result ≡ kind_numbered number }
{
    if number == 0 {
        return Kind::Square;
    }
    if number == 1 {
        return Kind::Tri;
    }
    if number == 3 {
        return Kind::Eight;
    }
    Kind::Honey
}

pub fn strip_numbered(kind: usize, w: usize, l: usize, periodic: bool) -> Strip
    ensures { result ≡ strip_numbered kind w l periodic }
{
    Strip {
        kind: kind_numbered(kind),
        w,
        l,
        periodic,
    }
}
