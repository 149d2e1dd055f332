// Where the lists of a record stand, and how long they are: no longer than the buffers that they are loaded into.
ghost use Rattle.replay_format.specs.Lists.{EdgesFit, TwoFit};

use crate::words::{at, length_at, load_doubles, load_numbers};

// The ends and magnitudes of a record's edges; `next` is the place behind them.
#[derive(Clone, Copy)]
pub struct EdgeLists {
    pub a: usize,
    pub b: usize,
    pub m: usize,
    pub ones: usize,
    pub others: usize,
    pub magnitudes: usize,
    pub next: usize,
}

// The lists of edges that begin at `place`, their three lengths standing at `counts`.
pub fn edge_lists(list: &[u8], counts: usize, place: usize, most: usize) -> EdgeLists
    ensures { EdgesFit most result }
{
    let a = length_at(list, counts, most);
    let b = length_at(list, at(counts, 1), most);
    let m = length_at(list, at(counts, 2), most);
    let others = at(place, a);
    let magnitudes = at(others, b);
    EdgeLists {
        a,
        b,
        m,
        ones: place,
        others,
        magnitudes,
        next: at(magnitudes, m),
    }
}

pub fn load_edges(list: &[u8], e: EdgeLists, a: &mut [usize], b: &mut [usize], m: &mut [f64]) {
    load_numbers(list, e.ones, a);
    load_numbers(list, e.others, b);
    load_doubles(list, e.magnitudes, m);
}

// Two lists of a record, one behind the other.
#[derive(Clone, Copy)]
pub struct TwoLists {
    pub first: usize,
    pub second: usize,
    pub other: usize,
    pub next: usize,
}

// The two lists that begin at `place`, their lengths standing at `counts`.
pub fn two_lists(list: &[u8], counts: usize, place: usize, most: usize, limit: usize) -> TwoLists
    ensures { TwoFit most limit result }
{
    let first = length_at(list, counts, most);
    let second = length_at(list, at(counts, 1), limit);
    let other = at(place, first);
    TwoLists {
        first,
        second,
        other,
        next: at(other, second),
    }
}
