// The sheet's table: row i is place i of the three columns.
ghost use Rattle.std.specs.Prelude.{◌≡◌, ◌<◌, length, set};

use estimate::MeanSpread;

pub fn put_row(
    means: &mut [f64],
    errors: &mut [f64],
    spreads: &mut [f64],
    i: usize,
    row: MeanSpread,
)
    requires { (i < length means.old) × (i < length errors.old) × (i < length spreads.old) }
    ensures means_after { means.new ≡ set means.old i row.mean }
    ensures errors_after { errors.new ≡ set errors.old i row.error }
    ensures spreads_after { spreads.new ≡ set spreads.old i row.spread }
{
    means[i] = row.mean;
    errors[i] = row.error;
    spreads[i] = row.spread;
}
