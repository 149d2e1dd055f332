// The square root, which no call refuses: so its answer is the value itself.
ghost use Rattle.std.specs.Prelude.{◌≡◌};
ghost use Rattle.std.specs.Float.{binary64};
ghost use Rattle.sqrt.specs.Sqrt.{sqrt as root_of};

// As `sqrt::sqrt`.
#[unsafe(no_mangle)]
pub extern "C" fn copperhook_sqrt(x: f64) -> f64
    ensures { result ≡ root_of binary64 x }
{
    sqrt::sqrt(x)
}
