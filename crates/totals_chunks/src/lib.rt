// The totals of chunks of configurations, one chunk after another.
#![tactic(auto)]

ghost use Rattle.std.specs.Prelude.{◌≡◌, true, false, ℕ, ◌+◌, ◌*◌, ◌≤◌, ◌<◌, Float, length};
ghost use Rattle.transfer_matrix.specs.Job.{Job};
ghost use Rattle.totals_configuration.specs.Chunked.{Lists};
ghost use Rattle.totals_configuration.specs.Signed.{PlanOfRun};
ghost use Rattle.totals_configuration.specs.Stage.{Stage, EnoughFactors};
ghost use Rattle.totals_configuration.specs.Sums.{RunSummed};
ghost use Rattle.totals_chunks.specs.Totals.{all_chunks, signs_in, Idle, Summable, PlanOfChunks, ChunksSummed};

use step_tables::{fill, pow2};
use totals_configuration::JobShape;
use totals_enumerated::enumerated_chunk;
use totals_sampled::sampled_chunk;
use totals_sums::{add_sums, chunk_size};

// The chunks from `first` up to, and without, `end`, of `size` configurations each. Chunk i holds the configurations from number i * size
// on; or, where they are drawn, the samples of the stream of the seed and i.
#[derive(Clone, Copy)]
pub struct Chunks {
    pub drawn: bool,
    pub seed: u64,
    pub first: u64,
    pub end: u64,
    pub size: usize,
}

// The chunks of all configurations of so many free edges.
pub fn all_chunks(free: usize) -> Chunks
    requires { free < 64 }
    ensures { result ≡ all_chunks free }
{
    let all = pow2(free);
    let size = chunk_size(all);
    Chunks {
        drawn: false,
        seed: 0,
        first: 0,
        end: (all / size) as u64,
        size,
    }
}

// No chunk, no configuration in it, no beta or no pair: there is nothing to sweep.
fn nothing(first: u64, end: u64, size: usize, sums: usize) -> bool
    ensures { (result ≡ true → Idle first end size sums) × (result ≡ false → first ≤ end) }
{
    if end <= first {
        return true;
    }
    if size == 0 {
        return true;
    }
    sums == 0
}

// The sums of chunk i, from zero. Returns whether every Z was finite and above zero; at the first that is not it stops.
fn sum_chunk(
    room: &mut [f64],
    plan: &[usize],
    shape: JobShape,
    us: &[usize],
    vs: &[usize],
    order: &[usize],
    factors: &[f64],
    bits: &[usize],
    signs: &mut [bool],
    chunks: Chunks,
    i: u64,
    c: &mut [f64],
    squares: &mut [f64],
    fourths: &mut [f64],
) -> bool
    requires { Stage plan.now us.now vs.now order.now (length bits.now) shape (length room.old) (length c.old)
        × EnoughFactors (length factors.now) (length bits.now) shape.betas × Summable chunks bits.now (length signs.old) × (i < chunks.end)
        × (length squares.old ≡ shape.betas * length us.now) × (length fourths.old ≡ shape.betas * length us.now) }
    ensures { (J : ℕ → ℕ → Job Float)
        → PlanOfRun J plan.now factors.now (length bits.now) (signs_in chunks bits.now i) shape
        → RunSummed J us.now vs.now shape.betas chunks.size result squares.new fourths.new }
{
    let size = chunks.size;
    if chunks.drawn {
        return sampled_chunk(
            room,
            plan,
            shape,
            us,
            vs,
            order,
            factors,
            chunks.seed,
            i,
            size,
            signs,
            c,
            squares,
            fourths,
        );
    }
    let from = i as usize * size;
    enumerated_chunk(
        room, plan, shape, us, vs, order, factors, bits, signs, from, size, c, squares, fourths,
    )
}

// The totals of the chunks: the sums of each chunk, then the chunks in order. `subsquares` and `subfourths` hold the sums of one chunk. Where
// there is nothing to sweep, no configuration is looked at. Returns whether every Z was finite and above zero; at the first that is not it
// stops.
pub fn chunked_totals(
    room: &mut [f64],
    plan: &[usize],
    shape: JobShape,
    us: &[usize],
    vs: &[usize],
    order: &[usize],
    factors: &[f64],
    bits: &[usize],
    signs: &mut [bool],
    chunks: Chunks,
    c: &mut [f64],
    subsquares: &mut [f64],
    subfourths: &mut [f64],
    squares: &mut [f64],
    fourths: &mut [f64],
) -> bool
    requires { Stage plan.now us.now vs.now order.now (length bits.now) shape (length room.old) (length c.old)
        × EnoughFactors (length factors.now) (length bits.now) shape.betas × Summable chunks bits.now (length signs.old)
        × Lists (shape.betas * length us.now) (length subsquares.old) (length subfourths.old) (length squares.old) (length fourths.old) }
    ensures { (J : ℕ → ℕ → ℕ → Job Float)
        → PlanOfChunks J plan.now factors.now bits.now chunks shape
        → ChunksSummed J us.now vs.now shape.betas chunks result squares.new fourths.new }
{
    let sums = squares.len();
    fill(squares, 0, sums, 0.0);
    fill(fourths, 0, sums, 0.0);
    if nothing(chunks.first, chunks.end, chunks.size, sums) {
        return true;
    }
    for i in chunks.first..chunks.end {
        if !sum_chunk(
            room, plan, shape, us, vs, order, factors, bits, signs, chunks, i, c, subsquares,
            subfourths,
        ) {
            return false;
        }
        add_sums(squares, subsquares);
        add_sums(fourths, subfourths);
    }
    true
}
