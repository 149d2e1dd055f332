// What a list of answers holds in the end.
ghost use Rattle.std.specs.Prelude.{◌≡◌, cond, length};
ghost use Rattle.job_run.specs.Zeros.{zeros};

use job_run::clear;

// All of a list at +0.0, unless every Z was finite and above zero.
pub fn clear_unsound(sound: bool, list: &mut [f64])
    ensures { list.new ≡ cond sound list.old (zeros (length list.old)) }
{
    if !sound {
        clear(list);
    }
}
