// Replays graphs of the original. data/graphs.bin is words: the number of records; a record is n, the lengths of the three edge lists, whether the buffers are one too
// short, the number of pairs; the lists; each pair with the word of its distance; and a hash of what every graph entry answers and leaves in
// its buffers, refused jobs too. `answers graphs` of rust/oracle made it, the refusals' numbers from document 01.
#![tactic(auto)]

mod job;

use std::io;
use std::rt::Files;

fn report(rt: &(impl Files + Print), path: &str, list: &mut [u8]) -> io::Result<()> {
    let n = replay_format::read_file(rt, path, list)?;
    replay_format::print_counted(rt, job::replay_all(&list[..n]), " graphs")
}

// The array's type has its length, so that nothing counts its elements.
fn report_all(rt: &(impl Files + Print), list: &mut [u8; 300000]) -> io::Result<()> {
    report(rt, "graphs.bin", list)
}

fn main(rt: HostRuntime) -> io::Result<()> {
    let mut list = [0u8; 300000];
    report_all(&rt, &mut list)
}
