// One record: its lists are loaded and lent to the call.
use crate::call::{
    answers, cleared_at, left_as_stored, less_cleared_at, other_arrangement, refusal_at,
};
use plan_layout::Arrangement;
use replay_format::{
    Counted, NUMBERS, Replayed, advance, at, begin, edge_lists, finish, length_at, load_doubles,
    load_edges, load_numbers, two_lists,
};

// As much as a stored call takes.
const EDGES: usize = 128;

const PAIRS: usize = 260;

const BETAS: usize = 66;

const FACTORS: usize = 1024;

const RESULTS: usize = 4200;
// The lengths of a record's lists, by their place behind the words that call.rt reads.
const EDGE_COUNTS: usize = 11;

const PAIR_COUNTS: usize = 14;

// of the betas and the factors
const FACTOR_COUNTS: usize = 16;

const RESULT_COUNTS: usize = 18;

// how much work memory is lent
const LENT: usize = 20;

// the lists in the order of their lengths, the results as they are after the call
const LISTS: usize = 21;

// Loads the lists of the record that begins at `start`, lends them to the call, and compares what it leaves.
fn replay(list: &[u8], start: usize, work: &mut [f64]) -> Replayed {
    let mut ones = [0usize; EDGES];
    let mut others = [0usize; EDGES];
    let mut magnitudes = [0.0f64; EDGES];
    let mut firsts = [0usize; PAIRS];
    let mut seconds = [0usize; PAIRS];
    let mut temperatures = [0.0f64; BETAS];
    let mut both = [0.0f64; FACTORS];
    let mut one = [0.0f64; RESULTS];
    let mut two = [0.0f64; RESULTS];
    let edges = edge_lists(list, at(start, EDGE_COUNTS), at(start, LISTS), EDGES);
    let pairs = two_lists(list, at(start, PAIR_COUNTS), edges.next, PAIRS, PAIRS);
    let lent = two_lists(list, at(start, FACTOR_COUNTS), pairs.next, BETAS, FACTORS);
    let results = two_lists(list, at(start, RESULT_COUNTS), lent.next, RESULTS, RESULTS);
    let a_count = edges.a;
    let b_count = edges.b;
    let m_count = edges.m;
    let us_count = pairs.first;
    let vs_count = pairs.second;
    let beta_count = lent.first;
    let factor_count = lent.second;
    let first_count = results.first;
    let second_count = results.second;
    let memory_count = length_at(list, at(start, LENT), work.len());
    let a = &mut ones[..a_count];
    let b = &mut others[..b_count];
    let m = &mut magnitudes[..m_count];
    let us = &mut firsts[..us_count];
    let vs = &mut seconds[..vs_count];
    let betas = &mut temperatures[..beta_count];
    let factors = &mut both[..factor_count];
    let first = &mut one[..first_count];
    let second = &mut two[..second_count];
    let memory = &mut work[..memory_count];
    load_edges(list, edges, a, b, m);
    load_numbers(list, edges.next, us);
    load_numbers(list, pairs.other, vs);
    load_doubles(list, pairs.next, betas);
    load_doubles(list, lent.other, factors);
    let called = answers(
        list,
        start,
        Arrangement::KeepAll,
        a,
        b,
        m,
        us,
        vs,
        betas,
        factors,
        first,
        second,
        memory,
    );
    let kept = left_as_stored(
        list,
        start,
        lent.next,
        results.other,
        first,
        second,
        memory,
        cleared_at(list, start),
    );
    let called_less = answers(
        list,
        start,
        other_arrangement(list, start),
        a,
        b,
        m,
        us,
        vs,
        betas,
        factors,
        first,
        second,
        memory,
    );
    let less = left_as_stored(
        list,
        start,
        lent.next,
        results.other,
        first,
        second,
        memory,
        less_cleared_at(list, start, a, b, m, us, vs),
    );
    Replayed {
        same: called & kept & called_less & less,
        next: results.next,
    }
}

// The first word is the number of calls. Those that agree are counted by their refusal's number.
pub(crate) fn replay_all(list: &[u8], work: &mut [f64], counts: &mut [usize; NUMBERS]) -> Counted {
    let mut progress = begin(list);
    for _call in 0..progress.left {
        let place = progress.place;
        let r = replay(list, place, work);
        progress = advance(progress, r, refusal_at(list, place), counts);
    }
    finish(progress, list)
}
