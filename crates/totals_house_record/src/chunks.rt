// The chunks of a run, written one after another.
ghost use Rattle.std.specs.Prelude.{◌≡◌, ◌*◌, ◌≤◌, length};
ghost use Rattle.transfer_matrix.specs.Room.{arranged};
ghost use Rattle.run_record.specs.Records.{per_chunk, record_length};
ghost use Rattle.refusals.specs.Couplings.{all_couplings};
ghost use Rattle.house_factors.specs.Factors.{paired_factors};
ghost use Rattle.totals_call.specs.Finished.{stepping};
ghost use Rattle.totals_house_betas.specs.Betas.{HousePassed};
ghost use Rattle.totals_record.specs.Written.{ChunksWritten};

use run_record::Head;
use run_record_put::put_chunk;
use totals_chunks::Chunks;
use totals_house::total_house_job;

// Writes the rows of every chunk; `squares` and `fourths` hold the totals of one. Where there is no row to write, no chunk is looked at. Returns
// whether every Z was finite and above zero; at the first chunk where one is not it stops.
pub fn write_house_chunks(
    n: usize,
    w: usize,
    elementwise: bool,
    less: bool,
    early: &[usize],
    late: &[usize],
    mag: &[f64],
    us: &[usize],
    vs: &[usize],
    betas: &[f64],
    head: Head,
    squares: &mut [f64],
    fourths: &mut [f64],
    bytes: &mut [u8],
    work: &mut [f64],
) -> bool
    requires { HousePassed (arranged less) n w early.now late.now us.now vs.now mag.now betas.now (length work.old) × (head.betas ≡ length betas.now)
        × (head.pairs ≡ length us.now) × (head.start ≤ head.end) × (length bytes.old ≡ record_length head)
        × (length squares.old ≡ per_chunk head) × (length fourths.old ≡ per_chunk head) }
    ensures { ChunksWritten n w early.now late.now (paired_factors (all_couplings betas.now mag.now)) (stepping elementwise) us.now vs.now head
        (arranged less) (length early.now) result bytes.old bytes.new work.old work.new }
{
    if squares.len() == 0 {
        return true;
    }
    let chunks = head.end - head.start;
    for c in 0..chunks {
        let first = head.start + c;
        let end = first + 1;
        let chunk = Chunks {
            drawn: true,
            seed: head.seed,
            first,
            end,
            size: head.samples,
        };
        // Drawn configurations read no bit: any list with an entry for each edge stands for them.
        if !total_house_job(
            n,
            w,
            elementwise,
            less,
            early,
            late,
            mag,
            early,
            us,
            vs,
            betas,
            chunk,
            squares,
            fourths,
            work,
        ) {
            return false;
        }
        put_chunk(bytes, head, c, squares, fourths);
    }
    true
}
