// One job: its lists are loaded, every graph entry is called, and what they answer and leave is hashed.
ghost use Rattle.std.specs.Prelude.{◌≤◌};

use graph_edges::Graph;
use refusals::{Refusal, refused};
use replay_format::{
    Counted, OFFSET, Replayed, answer_word, at, load_doubles, load_numbers, mix, mix_doubles,
    mix_number, mix_numbers,
};

// A refusal's number, told from a value.
const REFUSED: u64 = 0x1_0000_0000;

const NOT_JOINED: u64 = 0x2_0000_0000;
// What the buffers hold before a call, and how many elements a refused call is given.
const BEFORE: usize = 9;

const FEW: usize = 3;

fn refused_word(refusal: Refusal) -> u64 {
    std::num::wrapping_add_u64(REFUSED, refusal.number() as u64)
}

fn reached_word(r: Result<Option<usize>, Refusal>) -> u64 {
    match r {
        Ok(Some(k)) => k as u64,
        Ok(None) => NOT_JOINED,
        Err(refusal) => refused_word(refusal),
    }
}

fn graph_word(m: Result<Graph, Refusal>) -> u64 {
    match m {
        Ok(g) => g.win as u64,
        Err(refusal) => refused_word(refusal),
    }
}

fn kept_count(m: Result<Graph, Refusal>) -> usize {
    match m {
        Ok(g) => g.edges,
        Err(_) => 4097,
    }
}

// How many elements a buffer is given: `whole`, or one less, or a few where the job is refused.
fn lent(bad: bool, whole: usize, short: bool) -> usize {
    if bad {
        return FEW;
    }
    if short {
        if whole == 0 {
            return 0;
        }
        return whole - 1;
    }
    whole
}

fn spare(bad: bool, edges: usize, short: bool) -> usize {
    if bad {
        return FEW;
    }
    if short {
        return lent(bad, edges, short);
    }
    std::num::wrapping_add_usize(edges, 2)
}

fn count_kept(n: usize, a: &[usize], b: &[usize], m: &[f64]) -> usize {
    let mut early = [0usize; 4096];
    let mut late = [0usize; 4096];
    let mut mag = [0.0f64; 4096];
    let mut raw = [0usize; 4096];
    kept_count(Graph::new(n, 0, a, b, m, &mut early, &mut late, &mut mag, &mut raw))
}

// What a call answers and leaves in a list of `lent` numbers, up to N.
fn mix_list<const N: usize, F: FnOnce(&mut [usize]) -> Result<(), Refusal>>(
    hash: u64,
    lent: usize,
    call: F,
) -> u64
    requires { (N ≤ 4096) × F.IsAlwaysCallable call }
{
    let mut out = [BEFORE; N];
    if N < lent {
        return hash;
    }
    let list = &mut out[..lent];
    let h = mix_number(hash, refused(call(list)));
    mix_numbers(h, list)
}

// The same of a call that sets out a graph in four lists.
fn mix_graph<
    F: FnOnce(&mut [usize], &mut [usize], &mut [f64], &mut [usize]) -> Result<Graph, Refusal>,
>(hash: u64, lent: usize, call: F) -> u64
    requires { F.IsAlwaysCallable call }
{
    let mut first = [BEFORE; 4098];
    let mut second = [BEFORE; 4098];
    let mut third = [9.0f64; 4098];
    let mut fourth = [BEFORE; 4098];
    if 4098 < lent {
        return hash;
    }
    let early = &mut first[..lent];
    let late = &mut second[..lent];
    let mag = &mut third[..lent];
    let raw = &mut fourth[..lent];
    let h = mix(hash, graph_word(call(early, late, mag, raw)));
    mix_numbers(
        mix_doubles(mix_numbers(mix_numbers(h, early), late), mag),
        raw,
    )
}

// The original marks no lowest vertex, so the count alone is compared.
fn components_word(n: usize, a: &[usize], b: &[usize], m: &[f64]) -> u64 {
    let mut marks = [0u64; 16];
    answer_word(graph::n_components(n, a, b, m, &mut marks), REFUSED)
}

fn hash_of(n: usize, a: &[usize], b: &[usize], m: &[f64], short: bool) -> u64 {
    let bad = graph::window(n, a, b, m, 0).is_err();
    let edges = count_kept(n, a, b, m);
    let w = mix(OFFSET, answer_word(graph::window(n, a, b, m, 0), REFUSED));
    let k = mix(w, components_word(n, a, b, m));
    let f = mix(k, answer_word(graph::cyclomatic(n, a, b, m), REFUSED));
    let c = mix_list::<1024, _>(f, lent(bad, n, short), |names| {
        graph::components(n, a, b, m, names)
    });
    let t = mix_list::<4096, _>(c, lent(bad, edges, short), |bits| {
        graph::spanning_forest(n, a, b, m, bits)
    });
    let g = mix_graph(t, spare(bad, edges, short), |early, late, mag, raw| {
        Graph::new(n, 0, a, b, m, early, late, mag, raw)
    });
    mix_graph(g, spare(bad, edges, short), |early, late, mag, raw| {
        Graph::rotated(n, 0, a, b, m, early, late, mag, raw)
    })
}

// Whether the distances of the pairs are the stored ones.
fn distances(
    list: &[u8],
    start: usize,
    pairs: usize,
    n: usize,
    a: &[usize],
    b: &[usize],
    m: &[f64],
) -> bool {
    let mut same = true;
    let mut p = start;
    for _ in 0..pairs {
        let u = replay_format::word(list, p) as usize;
        let v = replay_format::word(list, at(p, 1)) as usize;
        same = same
            & (reached_word(graph::distance(n, a, b, m, u, v))
                == replay_format::word(list, at(p, 2)));
        p = at(p, 3);
    }
    same
}

// Loads the three lists, and answers the place after them.
fn load_lists(list: &[u8], start: usize, a: &mut [usize], b: &mut [usize], m: &mut [f64]) -> usize {
    let ones = at(start, 6);
    let others = at(ones, a.len());
    let mags = at(others, b.len());
    let end = at(mags, m.len());
    load_numbers(list, ones, a);
    load_numbers(list, others, b);
    load_doubles(list, mags, m);
    end
}

fn replay_loaded(
    list: &[u8],
    start: usize,
    first: usize,
    n: usize,
    a: &[usize],
    b: &[usize],
    m: &[f64],
) -> Replayed {
    let short = replay_format::word(list, at(start, 4)) == 1;
    let pairs = replay_format::word(list, at(start, 5)) as usize;
    let same = distances(list, first, pairs, n, a, b, m);
    let twice = std::num::wrapping_add_usize(pairs, pairs);
    let last = at(first, std::num::wrapping_add_usize(twice, pairs));
    Replayed {
        same: same & (hash_of(n, a, b, m, short) == replay_format::word(list, last)),
        next: at(last, 1),
    }
}

fn replay(list: &[u8], start: usize) -> Replayed {
    let mut a = [0usize; 4096];
    let mut b = [0usize; 4096];
    let mut m = [0.0f64; 4096];
    let n = replay_format::word(list, start) as usize;
    let k = replay_format::word(list, at(start, 1)) as usize;
    let l = replay_format::word(list, at(start, 2)) as usize;
    let j = replay_format::word(list, at(start, 3)) as usize;
    if 4096 < k {
        return Replayed {
            same: false,
            next: list.len(),
        };
    }
    if 4096 < l {
        return Replayed {
            same: false,
            next: list.len(),
        };
    }
    if 4096 < j {
        return Replayed {
            same: false,
            next: list.len(),
        };
    }
    let ones = &mut a[..k];
    let others = &mut b[..l];
    let mags = &mut m[..j];
    let first = load_lists(list, start, ones, others, mags);
    replay_loaded(list, start, first, n, ones, others, mags)
}

// The first word is the number of jobs.
pub(crate) fn replay_all(list: &[u8]) -> Counted {
    let all = replay_format::word(list, 0) as usize;
    let mut same: usize = 0;
    let mut p: usize = 8;
    for _ in 0..all {
        let r = replay(list, p);
        if r.same {
            same = std::num::wrapping_add_usize(same, 1);
        }
        p = r.next;
    }
    Counted {
        same,
        all,
        left: std::num::wrapping_sub_usize(list.len(), p),
    }
}
