// Replays the original's estimates, and square roots by the machine. `answers estimates` and `answers roots` of rust/oracle made the lists in data/:
// a count, both sums and the estimate; a pattern and its root.
#![tactic(auto)]

ghost use Rattle.std.specs.Prelude.{◌<◌};

use estimate::Estimate;
use refusals::Refusal;
use replay_format::report_records;
use std::io;

// bytes of a record of each list
const ESTIMATE: usize = 8 * 6;

const ROOT: usize = 8 * 2;

// Word i of the record at `at`.
fn word(list: &[u8], at: usize, i: usize) -> u64
    requires { i < 6 }
{
    replay_format::word(list, std::num::wrapping_add_usize(at, i * 8))
}

// The case, 0 for an estimate, 1 for too few, 2 for a complete one or the refusal's number; the mean and the error, 0 where there is none.
#[derive(Drop)]
struct Told {
    case: u64,
    mean: u64,
    error: u64,
}

fn words_of(answer: Result<Estimate, Refusal>) -> Told {
    match answer {
        Ok(Estimate::Estimated(m)) => Told {
            case: 0,
            mean: replay_format::bits_of(m.mean),
            error: replay_format::bits_of(m.error),
        },
        Ok(Estimate::TooFew(mean)) => Told {
            case: 1,
            mean: replay_format::bits_of(mean),
            error: 0,
        },
        Ok(Estimate::Complete(m)) => Told {
            case: 2,
            mean: replay_format::bits_of(m.mean),
            error: replay_format::bits_of(m.error),
        },
        Err(refusal) => Told {
            case: refusal.number() as u64,
            mean: 0,
            error: 0,
        },
    }
}

fn replay_estimate(list: &[u8], at: usize) -> bool {
    let squares = replay_format::double_of(word(list, at, 1));
    let fourths = replay_format::double_of(word(list, at, 2));
    let t = words_of(estimate::estimate(word(list, at, 0) as usize, squares, fourths));
    (t.case == word(list, at, 3)) & (t.mean == word(list, at, 4)) & (t.error == word(list, at, 5))
}

fn replay_root(list: &[u8], at: usize) -> bool {
    replay_format::bits_of(sqrt::sqrt(replay_format::double_of(word(list, at, 0))))
        == word(list, at, 1)
}

fn main(rt: HostRuntime) -> io::Result<()> {
    report_records(
        &rt,
        "estimates.bin",
        ESTIMATE,
        " estimates agree, refused ones among them\n",
        replay_estimate,
    )?;
    report_records(&rt, "roots.bin", ROOT, " square roots agree\n", replay_root)
}
