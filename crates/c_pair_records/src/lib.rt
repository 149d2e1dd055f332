// Pairs that a caller lends as records, copied into two lists of ends.
#![tactic(auto)]

ghost use Rattle.std.specs.Prelude.{◌≡◌, [], ◌<◌, min};
ghost use Rattle.c_pair_records.specs.Columns.{most_copied, ends_of, gathered, pushed};

// A pair as a caller lends it.
#[repr(C)]
#[derive(Drop)]
pub struct Pair {
    pub u: usize,
    pub v: usize,
}

// The ends of `count` pairs, and 0 behind them. There is a place more than a job may have pairs, so that a list that is too long is still too long here.
#[derive(Drop)]
pub struct Ends {
    pub count: usize,
    pub us: [usize; 257],
    pub vs: [usize; 257],
}

// How many of so many pairs are copied.
fn copied(pairs: usize) -> usize
    ensures { result ≡ min pairs most_copied }
{
    if pairs < 257 {
        return pairs;
    }
    257
}

// The ends of no pair.
fn empty() -> Ends
    ensures { result ≡ ends_of [] 0 }
{
    Ends {
        count: 0,
        us: [0; 257],
        vs: [0; 257],
    }
}

// One pair more.
fn push(e: Ends, u: usize, v: usize) -> Ends
    requires { e.count < most_copied }
    ensures { result ≡ pushed e u v }
{
    let at = e.count;
    let mut longer = e;
    longer.us[at] = u;
    longer.vs[at] = v;
    longer.count = at + 1;
    longer
}

// The ends of the pairs, of the first 257 where there are more.
pub fn gather(pairs: &[Pair]) -> Ends
    ensures { result ≡ gathered pairs.now }
{
    let n = copied(pairs.len());
    let mut e = empty();
    for i in 0..n {
        e = push(e, pairs[i].u, pairs[i].v);
    }
    e
}
