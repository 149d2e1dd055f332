// What the count and the sums of an estimate must be.
ghost use Rattle.std.specs.Prelude.{◌≡◌};
ghost use Rattle.estimate.specs.Estimates.{bad_count, is_in_order};

// Up to 2^53 every count is a double.
const MOST: usize = 0x0020_0000_0000_0000;

pub fn bad_count(count: usize) -> bool
    ensures { result ≡ bad_count count }
{
    count == 0 || MOST < count
}

pub fn in_order(n: f64, squares: f64, fourths: f64) -> bool
    ensures { result ≡ is_in_order n squares fourths }
{
    if 0.0 <= fourths {
        if fourths <= squares {
            return squares <= n;
        }
    }
    false
}
