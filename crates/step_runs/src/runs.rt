// The runs of a step, or of two: indexes in which the patterns change with the lowest bits alone.
ghost use Rattle.std.specs.Prelude.{◌≡◌, ◌+◌, ◌*◌, ◌-◌, ◌<◌, ◌≤◌};
ghost use Rattle.step_tables.specs.Step.{Rising};
ghost use Rattle.step_runs.specs.Rule.{Picked, Sparse};
ghost use Rattle.step_runs.specs.AtRun.{Runs, TwoRuns};

use step_tables::{pattern_of, pow2};

// Weights of one table: at the patterns of an even place and of the one that goes with it, and the same at an odd place.
#[derive(Drop)]
pub struct Four {
    pub first: f64,
    pub second: f64,
    pub third: f64,
    pub fourth: f64,
}

// The table at m, and with a and b added.
pub fn four_at(table: &[f64; 16], m: usize, a: usize, b: usize) -> Four
    requires { m + a + b < 16 }
    ensures { Picked table.now m a b result }
{
    Four {
        first: table[m],
        second: table[m + a],
        third: table[m + b],
        fourth: table[m + a + b],
    }
}

// The lowest of the bits that is not below `low`, or h where there is none below h.
pub fn run_bit(bits: &[usize; 4], n: usize, low: usize, h: usize) -> usize
    requires { (n ≤ 4) × (low ≤ h) }
    ensures lower_bound { (low ≤ result) × (result ≤ h) }
    ensures sparse { Sparse bits.now n low result }
{
    let mut e = h;
    for i in 0..n {
        let b = bits[i];
        if b >= low {
            if b < e {
                e = b;
            }
        }
    }
    e
}

// The runs have 2 to this many places: within one the first step's pattern sees bit 0 of the place alone, and the second's sees bits 0
// and 1 of twice the place alone. A vector has 4 * 2 ^ h entries.
pub fn runs_of(bits: &[usize; 4], n: usize, bits2: &[usize; 4], n2: usize, h: usize) -> usize
    requires { (n ≤ 4) × (n2 ≤ 4) × (1 ≤ h) × (h < 64) }
    ensures { (1 ≤ result) × (result ≤ h) × Sparse bits.now n 1 result × Sparse bits2.now n2 2 (result + 1) }
{
    let e = run_bit(bits, n, 1, h);
    run_bit(bits2, n2, 2, e + 1) - 1
}

// The runs of a step: over the first `end` places, with `size`, 2 ^ e, places each; `one` is the pattern of 1.
#[derive(Drop)]
pub struct StepRuns {
    pub end: usize,
    pub e: usize,
    pub size: usize,
    pub one: usize,
}

// The runs of a step over 2 ^ g places.
pub fn step_runs(bits: &[usize; 4], n: usize, g: usize) -> StepRuns
    requires { (1 ≤ g) × (g < 23) × Rising bits.now n (g + 1) }
    ensures { Runs bits.now n g result.e result.end result.size result.one }
{
    let end = pow2(g);
    let e = run_bit(bits, n, 1, g);
    let size = pow2(e);
    let one = pattern_of(1, bits, n);
    StepRuns { end, e, size, one }
}

// The runs of two steps: the same over the first half of `quarter` places; `low` and `two` are the second step's patterns of 1 and 2.
#[derive(Drop)]
pub struct TwoStepRuns {
    pub end: usize,
    pub quarter: usize,
    pub e: usize,
    pub size: usize,
    pub one: usize,
    pub low: usize,
    pub two: usize,
}

// The runs of two steps over 2 ^ h places.
pub fn two_step_runs(
    bits: &[usize; 4],
    n: usize,
    bits2: &[usize; 4],
    n2: usize,
    h: usize,
) -> TwoStepRuns
    requires { (2 ≤ h) × (h < 23) × Rising bits.now n (h + 1) × Rising bits2.now n2 (h + 1) }
    ensures { TwoRuns bits.now n bits2.now n2 (h - 1) h result.e result.end result.quarter result.size result.one result.low result.two
        × (result.quarter ≡ 2 * result.end) }
{
    let end = pow2(h - 1);
    let quarter = pow2(h);
    let e = runs_of(bits, n, bits2, n2, h - 1);
    let size = pow2(e);
    let one = pattern_of(1, bits, n);
    let low = pattern_of(1, bits2, n2);
    let two = pattern_of(2, bits2, n2);
    TwoStepRuns {
        end,
        quarter,
        e,
        size,
        one,
        low,
        two,
    }
}
