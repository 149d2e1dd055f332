// One job: its lists are loaded, the call is made in either arrangement, and what it answers and leaves in the lent lists is compared.
use entry_correlations::Manner;
use limits::Caller;
use plan_layout::Arrangement;
use refusals::{Refusal, refused};
use replay_format::{
    Counted, NUMBERS, Replayed, advance, answer_word, are_cleared, are_stored, at, begin,
    edge_lists, fill, finish, length_at, load_doubles, load_edges, load_numbers, number_at,
    two_lists, word,
};

// More than a call takes.
const EDGES: usize = 4100;

const PAIRS: usize = 260;
// Refused for short work memory.
const SHORT: usize = 13;
// A refusal's number, told from a room.
const REFUSED: u64 = 0x1_0000_0000;
// The words that a record begins with, by their place.
const FLOOR: usize = 1;

const EDGE_COUNTS: usize = 2;

const PAIR_COUNTS: usize = 5;

const FACTORS: usize = 7;

const PER_ELEMENT: usize = 8;

const RESULTS: usize = 9;

// what results and work memory hold before the call
const BEFORE: usize = 10;

// how much work memory is lent
const LENT: usize = 11;

// the call's number
const NUMBER: usize = 12;

// how much of the memory is +0.0 after it
const CLEARED: usize = 13;

const ROOM: usize = 14;

// the lists in the order of their lengths, then the results after the call
const LISTS: usize = 15;

fn manner_of(elementwise: u64) -> Manner {
    if elementwise == 1 {
        return Manner::PerElement;
    }
    Manner::Block
}

// Fills results and work memory with what they hold before the call, and calls.
fn call(
    list: &[u8],
    start: usize,
    arrangement: Arrangement,
    a: &[usize],
    b: &[usize],
    m: &[f64],
    us: &[usize],
    vs: &[usize],
    factors: &[f64],
    results: &mut [f64],
    memory: &mut [f64],
) -> usize {
    let n = number_at(list, start);
    let floor = number_at(list, at(start, FLOOR));
    let manner = manner_of(word(list, at(start, PER_ELEMENT)));
    fill(list, at(start, BEFORE), results);
    fill(list, at(start, BEFORE), memory);
    let answer = entry_correlations::correlations(
        n,
        floor,
        a,
        b,
        m,
        us,
        vs,
        factors,
        manner,
        arrangement,
        Caller::Desk,
        results,
        memory,
    );
    refused(answer)
}

// Whether the number, the results, which are stored at `place`, and the work memory, so much of it cleared, are what they should be.
fn agrees(
    list: &[u8],
    start: usize,
    place: usize,
    number: usize,
    results: &[f64],
    memory: &[f64],
    cleared: usize,
) -> bool {
    let before = word(list, at(start, BEFORE));
    (number == number_at(list, at(start, NUMBER)))
        & are_stored(results, list, place)
        & are_cleared(memory, cleared, before)
}

fn room_agrees(
    list: &[u8],
    start: usize,
    a: &[usize],
    b: &[usize],
    m: &[f64],
    us: &[usize],
    vs: &[usize],
) -> bool {
    let n = number_at(list, start);
    let floor = number_at(list, at(start, FLOOR));
    let room = job_checks::room(n, floor, a, b, m, us, vs, Arrangement::KeepAll);
    answer_word(room, REFUSED) == word(list, at(start, ROOM))
}

// How much is +0.0 after a call in less room: its own room, where the other arrangement's was cleared.
fn less_cleared(cleared: usize, room: Result<usize, Refusal>) -> usize {
    if cleared == 0 {
        return 0;
    }
    match room {
        Ok(k) => k,
        Err(_) => 0,
    }
}

// Whether the call in less room leaves the same. Where the other arrangement has too little work memory this one may have enough: such a job is passed over.
fn less_agrees(
    list: &[u8],
    start: usize,
    place: usize,
    a: &[usize],
    b: &[usize],
    m: &[f64],
    us: &[usize],
    vs: &[usize],
    factors: &[f64],
    results: &mut [f64],
    memory: &mut [f64],
) -> bool {
    if number_at(list, at(start, NUMBER)) == SHORT {
        return true;
    }
    let number = call(
        list,
        start,
        Arrangement::LessRoom,
        a,
        b,
        m,
        us,
        vs,
        factors,
        results,
        memory,
    );
    let n = number_at(list, start);
    let floor = number_at(list, at(start, FLOOR));
    let room = job_checks::room(n, floor, a, b, m, us, vs, Arrangement::LessRoom);
    let cleared = less_cleared(number_at(list, at(start, CLEARED)), room);
    agrees(list, start, place, number, results, memory, cleared)
}

// Loads the lists of the record that begins at `start`, lends them to the call, and compares what it leaves.
fn replay(list: &[u8], start: usize, work: &mut [f64]) -> Replayed {
    let mut ones = [0usize; EDGES];
    let mut others = [0usize; EDGES];
    let mut magnitudes = [0.0f64; EDGES];
    let mut firsts = [0usize; PAIRS];
    let mut seconds = [0usize; PAIRS];
    let mut plus = [0.0f64; EDGES];
    let mut answers = [0.0f64; PAIRS];
    let edges = edge_lists(list, at(start, EDGE_COUNTS), at(start, LISTS), EDGES);
    let pairs = two_lists(list, at(start, PAIR_COUNTS), edges.next, PAIRS, PAIRS);
    let a_count = edges.a;
    let b_count = edges.b;
    let m_count = edges.m;
    let us_count = pairs.first;
    let vs_count = pairs.second;
    let factor_count = length_at(list, at(start, FACTORS), EDGES);
    let result_count = length_at(list, at(start, RESULTS), PAIRS);
    let lent = length_at(list, at(start, LENT), work.len());
    let a = &mut ones[..a_count];
    let b = &mut others[..b_count];
    let m = &mut magnitudes[..m_count];
    let us = &mut firsts[..us_count];
    let vs = &mut seconds[..vs_count];
    let factors = &mut plus[..factor_count];
    let results = &mut answers[..result_count];
    let memory = &mut work[..lent];
    load_edges(list, edges, a, b, m);
    load_numbers(list, edges.next, us);
    load_numbers(list, pairs.other, vs);
    load_doubles(list, pairs.next, factors);
    let place = at(pairs.next, factor_count);
    let number = call(
        list,
        start,
        Arrangement::KeepAll,
        a,
        b,
        m,
        us,
        vs,
        factors,
        results,
        memory,
    );
    let cleared = number_at(list, at(start, CLEARED));
    let same = agrees(list, start, place, number, results, memory, cleared);
    let less = less_agrees(
        list, start, place, a, b, m, us, vs, factors, results, memory,
    );
    Replayed {
        same: same & less & room_agrees(list, start, a, b, m, us, vs),
        next: at(place, result_count),
    }
}

// The first word is the number of jobs. Those that agree are counted by their refusal's number.
pub(crate) fn replay_all(list: &[u8], work: &mut [f64], counts: &mut [usize; NUMBERS]) -> Counted {
    let mut progress = begin(list);
    for _job in 0..progress.left {
        let place = progress.place;
        let r = replay(list, place, work);
        progress = advance(progress, r, number_at(list, at(place, NUMBER)), counts);
    }
    finish(progress, list)
}
