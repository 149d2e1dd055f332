// Replays the couplings of the original's graphs. data/couplings.bin is words: the number of calls, and a record for each, which call.rt reads.
// `answers couplings` of rust/oracle made it: the magnitudes are the original's, the refusals' numbers from document 01.
#![tactic(auto)]

mod call;

use replay_format::NUMBERS;
use std::io;

fn main(rt: HostRuntime) -> io::Result<()> {
    let mut list = [0u8; 65536];
    let n = replay_format::read_file(&rt, "couplings.bin", &mut list)?;
    let mut counts = [0usize; NUMBERS];
    let counted = call::replay_all(&list[..n], &mut counts);
    replay_format::report(&rt, counted, " calls", &counts)
}
