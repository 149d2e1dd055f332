// Replays the original's correlations. data/correlations.bin is words: the number of jobs, and a record for each, which job.rt reads. `answers
// correlations` of rust/oracle made it: the results are the original's, the refusals' numbers and the room from document 01.
#![tactic(auto)]

mod job;

use replay_format::NUMBERS;
use std::io;
use std::rt::Files;

fn report(
    rt: &(impl Files + Print),
    path: &str,
    list: &mut [u8],
    work: &mut [f64],
) -> io::Result<()> {
    let n = replay_format::read_file(rt, path, list)?;
    let mut counts = [0usize; NUMBERS];
    let counted = job::replay_all(&list[..n], work, &mut counts);
    replay_format::report(rt, counted, " jobs", &counts)
}

// The arrays' types have their lengths, so that nothing counts their elements.
fn report_all(
    rt: &(impl Files + Print),
    list: &mut [u8; 1000000],
    work: &mut [f64; 131072],
) -> io::Result<()> {
    report(rt, "correlations.bin", list, work)
}

fn main(rt: HostRuntime) -> io::Result<()> {
    let mut list = [0u8; 1000000];
    let mut work = [0.0f64; 131072];
    report_all(&rt, &mut list, &mut work)
}
