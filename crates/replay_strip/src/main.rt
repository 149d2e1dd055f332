// Replays the original's strips from the lists in data/: `answers strips`, `strip_edges`, `dilutions` and `strip_refusals` of rust/oracle made them
// from the original, the last by its own reading of document 01.
#![tactic(auto)]

mod common;
mod diluted_graphs;
mod dilutions;
mod edges;
mod refused;
mod strips;

use replay_format::{print_tally, read_file, report_records};
use std::io;
use std::rt::Files;

// bytes of a record of each list
const STRIP: usize = 8 * 7;

const DILUTION: usize = 8 * 10;

const REFUSAL: usize = 8 * 9;

// Small strips edge by edge: the records differ in length.
fn report_edges(rt: &(impl Files + Print)) -> io::Result<()> {
    let mut list = [0u8; 98304];
    let n = read_file(rt, "edges.bin", &mut list)?;
    let t = edges::replay_all(&list[..n]);
    print_tally(rt, t.agree, t.records, " small strips agree edge by edge\n")
}

fn main(rt: HostRuntime) -> io::Result<()> {
    report_records(
        &rt,
        "strips.bin",
        STRIP,
        " strips agree: edges, window, pairs, labels, buffers too short and exact\n",
        strips::replay,
    )?;
    report_edges(&rt)?;
    report_records(
        &rt,
        "dilutions.bin",
        DILUTION,
        " dilutions agree, list and graph, buffers too short and exact\n",
        dilutions::replay,
    )?;
    report_records(
        &rt,
        "refusals.bin",
        REFUSAL,
        " refusals and near misses agree\n",
        refused::replay,
    )
}
