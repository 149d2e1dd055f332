// Replayed calls that agree, counted by their refusal's number and printed.
ghost use Rattle.std.specs.Prelude.{◌≡◌, ◌-◌, ◌<◌};
ghost use Rattle.replay_format.specs.Counts.{counted};

use crate::files::read_file;
use crate::words::number_at;
use std::io;
use std::rt::Files;

// How many calls agree, how many there are, and the bytes that are left of their list.
#[derive(Clone, Copy)]
pub struct Counted {
    pub same: usize,
    pub all: usize,
    pub left: usize,
}

// Whether one call agrees, and the place of the next record.
#[derive(Clone, Copy)]
pub struct Replayed {
    pub same: bool,
    pub next: usize,
}

// How far a replay has come: the calls in all, those left, those that agree, and the next record's place.
#[derive(Clone, Copy)]
pub struct Progress {
    pub all: usize,
    pub left: usize,
    pub same: usize,
    pub place: usize,
}

// Refusals' numbers, up to 27, and 0 for accepted.
pub const NUMBERS: usize = 28;

pub fn count(counts: &mut [usize; NUMBERS], number: usize)
    ensures { counts.new ≡ counted counts.old number }
{
    if number < NUMBERS {
        counts[number] = std::num::wrapping_add_usize(counts[number], 1);
    }
}

// The first word of a list is the number of its records.
pub fn begin(list: &[u8]) -> Progress {
    let all = number_at(list, 0);
    Progress {
        all,
        left: all,
        same: 0,
        place: 8,
    }
}

// One call more, with its refusal's number: those that agree are counted by it.
pub fn advance(
    progress: Progress,
    call: Replayed,
    number: usize,
    counts: &mut [usize; NUMBERS],
) -> Progress
    requires { 0 < progress.left }
    ensures { result.left ≡ progress.left - 1 }
{
    let mut same = progress.same;
    if call.same {
        same = std::num::wrapping_add_usize(same, 1);
        count(counts, number);
    }
    Progress {
        all: progress.all,
        left: progress.left - 1,
        same,
        place: call.next,
    }
}

pub fn finish(progress: Progress, list: &[u8]) -> Counted {
    Counted {
        same: progress.same,
        all: progress.all,
        left: std::num::wrapping_sub_usize(list.len(), progress.place),
    }
}

pub fn print_number(rt: &impl Print, n: usize) -> io::Result<()> {
    print!(rt; "{n}")
}

fn print_count(rt: &impl Print, number: usize, count: usize) -> io::Result<()> {
    if count > 0 {
        print!(rt; " {number}: {count}")?;
    }
    Ok(())
}

fn print_counts(rt: &impl Print, counts: &[usize; NUMBERS]) -> io::Result<()> {
    let accepted = counts[0];
    print!(rt; "accepted: {accepted}; refused by")?;
    for k in 1..NUMBERS {
        print_count(rt, k, counts[k])?;
    }
    println!(rt)
}

// How many of all, and what follows.
pub fn print_tally(rt: &impl Print, same: usize, all: usize, what: &str) -> io::Result<()> {
    print!(rt; "{same} of {all}{what}")
}

// A line: how many of them agree, and the bytes that are left.
pub fn print_counted(rt: &impl Print, counted: Counted, them: &str) -> io::Result<()> {
    print_tally(rt, counted.same, counted.all, them)?;
    let left = counted.left;
    println!(rt; " agree; bytes left over: {left}")
}

// Two lines: how many of them agree, and how many of each refusal's number do.
pub fn report(
    rt: &impl Print,
    counted: Counted,
    them: &str,
    counts: &[usize; NUMBERS],
) -> io::Result<()> {
    print_counted(rt, counted, them)?;
    print_counts(rt, counts)
}

// How many records of `size` bytes agree.
fn count_same<F: Fn(&[u8], usize) -> bool>(list: &[u8], size: usize, agrees: F) -> usize
    requires { (0 < size) × F.IsAlwaysCallable agrees }
{
    let mut count: usize = 0;
    for at in (0..list.len()).step_by(size) {
        if agrees(list, at) {
            count += 1;
        }
    }
    count
}

// Replays a list of records of `size` bytes each, and prints how many agree.
pub fn report_records<F: Fn(&[u8], usize) -> bool>(
    rt: &(impl Files + Print),
    path: &str,
    size: usize,
    what: &str,
    agrees: F,
) -> io::Result<()>
    requires { (0 < size) × F.IsAlwaysCallable agrees }
{
    let mut list = [0u8; 98304];
    let n = read_file(rt, path, &mut list)?;
    print_tally(rt, count_same(&list[..n], size, agrees), n / size, what)
}
