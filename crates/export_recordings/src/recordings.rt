// A run written as a record.
ghost use Rattle.record_call.specs.Calls.{Recorded};
ghost use Rattle.c_values.specs.Options.{options_numbered};

use c_values::options_numbered;
use refusals::refused;

// As `entry_sample_record::sample_record`. Of the options the manner and the arrangement are read: the call is never the tester's.
#[unsafe(no_mangle)]
pub extern "C" fn copperhook_sample_record(
    n: usize,
    floor: usize,
    a: &[usize],
    b: &[usize],
    m: &[f64],
    us: &[usize],
    vs: &[usize],
    betas: &[f64],
    factors: &[f64],
    options: usize,
    seed: u64,
    from: u64,
    to: u64,
    samples: usize,
    bytes: &mut [u8],
    work: &mut [f64],
) -> usize
    ensures { Recorded n floor a.now b.now m.now us.now vs.now betas.now factors.now
        (options_numbered options).manner (options_numbered options).arrangement seed from to samples result bytes.old bytes.new work.old work.new }
{
    let asked = options_numbered(options);
    let manner = asked.manner;
    let arrangement = asked.arrangement;
    let answer = entry_sample_record::sample_record(
        n,
        floor,
        a,
        b,
        m,
        us,
        vs,
        betas,
        factors,
        manner,
        arrangement,
        seed,
        from,
        to,
        samples,
        bytes,
        work,
    );
    refused(answer)
}
