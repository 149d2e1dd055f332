// Prints the published vectors' words: five of splitmix64 from the state 1234567, then ten of xoshiro256++ from the state 1, 2, 3, 4.
// The file stdout holds the numbers as published.
#![tactic(auto)]

use rng::Rng;
use std::io;

fn print_line(rt: &impl Print, word: u64) -> io::Result<()> {
    println!(rt; "{word}")
}

fn print_splitmix(rt: &impl Print, state: u64, count: u64) -> io::Result<()> {
    let mut x = state;
    for _ in 0..count {
        let mixed = rng::splitmix(x);
        print_line(rt, mixed.word)?;
        x = mixed.state;
    }
    Ok(())
}

fn print_xoshiro(rt: &impl Print, state: Rng, count: u64) -> io::Result<()> {
    let mut rng = state;
    for _ in 0..count {
        let drawn = rng.next_u64();
        print_line(rt, drawn.word)?;
        let after = drawn.rng;
        rng = after;
    }
    Ok(())
}

fn main(rt: HostRuntime) -> io::Result<()> {
    print_splitmix(&rt, 1234567, 5)?;
    print_xoshiro(&rt, Rng { s: [1, 2, 3, 4] }, 10)
}
