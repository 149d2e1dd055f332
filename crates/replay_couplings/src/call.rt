// One call: its lists are loaded, the call is made, and what it answers and leaves in its results is compared.
use refusals::refused;
use replay_format::{
    Counted, NUMBERS, Replayed, advance, are_stored, at, begin, edge_lists, finish, length_at,
    load_doubles, load_edges, load_numbers, number_at,
};

// What the results hold before the call.
const BEFORE: f64 = 9.0;
// As much as a stored call takes.
const EDGES: usize = 64;

const BETAS: usize = 65;

const RESULTS: usize = 1024;
// The words that a record begins with, by their place.
const EDGE_COUNTS: usize = 1;

const BETA_COUNT: usize = 4;

const RESULT_COUNT: usize = 5;

// the call's number
const NUMBER: usize = 6;

// the lists in the order of their lengths, then the results after the call
const LISTS: usize = 7;

// Loads the betas, which begin at `place`, and calls.
fn replay_betas(
    list: &[u8],
    start: usize,
    place: usize,
    a: &[usize],
    b: &[usize],
    m: &[f64],
) -> Replayed {
    let mut first = [0.0f64; BETAS];
    let mut second = [BEFORE; RESULTS];
    let k = length_at(list, at(start, BETA_COUNT), BETAS);
    let l = length_at(list, at(start, RESULT_COUNT), RESULTS);
    let betas = &mut first[..k];
    let results = &mut second[..l];
    let answers = at(place, k);
    load_doubles(list, place, betas);
    let answer = couplings::couplings(number_at(list, start), a, b, m, betas, results);
    let same = refused(answer) == number_at(list, at(start, NUMBER));
    Replayed {
        same: same & are_stored(results, list, answers),
        next: at(answers, l),
    }
}

fn replay(list: &[u8], start: usize) -> Replayed {
    let mut first = [0usize; EDGES];
    let mut second = [0usize; EDGES];
    let mut third = [0.0f64; EDGES];
    let lists = edge_lists(list, at(start, EDGE_COUNTS), at(start, LISTS), EDGES);
    let k = lists.a;
    let l = lists.b;
    let j = lists.m;
    let a = &mut first[..k];
    let b = &mut second[..l];
    let m = &mut third[..j];
    load_edges(list, lists, a, b, m);
    replay_betas(list, start, lists.next, a, b, m)
}

// The first word is the number of calls. Those that agree are counted by their refusal's number.
pub(crate) fn replay_all(list: &[u8], counts: &mut [usize; NUMBERS]) -> Counted {
    let mut progress = begin(list);
    for _call in 0..progress.left {
        let place = progress.place;
        let r = replay(list, place);
        progress = advance(progress, r, number_at(list, at(place, NUMBER)), counts);
    }
    finish(progress, list)
}
