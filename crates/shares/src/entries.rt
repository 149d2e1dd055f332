// The entries of all lists, in one pass.
ghost use Rattle.std.specs.Prelude.{◌≡◌, cond};
ghost use Rattle.shares.specs.Shares.{is_above, is_below, is_half, bad_entry, counted};

// How many entries are bad, above zero, below zero, and 1/2 or more in size.
#[derive(Drop)]
pub struct Tally {
    pub bad: u64,
    pub above: u64,
    pub below: u64,
    pub half: u64,
}

fn is_half(x: f64) -> bool
    ensures { result ≡ is_half x }
{
    if 0.5 <= x {
        return true;
    }
    x <= -0.5
}

fn bad_entry(x: f64) -> bool
    ensures { result ≡ bad_entry x }
{
    if -1.0 <= x {
        return !(x <= 1.0);
    }
    true
}

fn one_if(test: bool) -> u64
    ensures { result ≡ cond test 1 0 }
{
    if test { 1 } else { 0 }
}

// No branch goes by an entry, so that two are counted at once.
pub fn count_kinds(stored: &[f64]) -> Tally
    ensures { (result.bad ≡ counted bad_entry stored.now) × (result.above ≡ counted is_above stored.now)
        × (result.below ≡ counted is_below stored.now) × (result.half ≡ counted is_half stored.now) }
{
    let mut bad: u64 = 0;
    let mut above: u64 = 0;
    let mut below: u64 = 0;
    let mut half: u64 = 0;
    for x in stored {
        bad += one_if(bad_entry(*x));
        above += one_if(0.0 < *x);
        below += one_if(*x < 0.0);
        half += one_if(is_half(*x));
    }
    Tally {
        bad,
        above,
        below,
        half,
    }
}
