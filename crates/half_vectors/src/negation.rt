// The laws of half vectors are in specs/. Of code they need the sign alone.
ghost use Rattle.std.specs.Prelude.{◌≡◌};
ghost use Rattle.half_vectors.specs.Half.{negated_if};

// x, or its negative where the half is antisymmetric.
pub fn negated_if(antisymmetric: bool, x: f64) -> f64
    ensures { result ≡ negated_if antisymmetric x }
{
    if antisymmetric { -x } else { x }
}
