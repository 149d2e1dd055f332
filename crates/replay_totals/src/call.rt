// One call, by its record's first words: it is made in either arrangement, and what it answers and leaves in the lent lists is compared.
use entry_correlations::Manner;
use limits::Caller;
use plan_layout::Arrangement;
use refusals::Refusal;
use replay_format::{answer_word, are_cleared, are_stored, at, fill, number_at, word};

// Refused for short work memory.
const SHORT: usize = 13;
// A refusal's number, told from a count.
const REFUSED: u64 = 0x100_0000_0000;
// The words that a record begins with, by their place; the first is the number of vertices.
const FLOOR: usize = 1;

const PER_ELEMENT: usize = 2;

// 0 for totals of all configurations, 1 for their correlations, 2 for totals of drawn ones
const ENTRY: usize = 3;

const SEED: usize = 4;

const FROM: usize = 5;

const TO: usize = 6;

const SAMPLES: usize = 7;

// what results and work memory hold before the call
const BEFORE: usize = 8;

// the count of configurations, or the refusal
const ANSWER: usize = 9;

// how much of the memory is +0.0 after it
const CLEARED: usize = 10;

fn manner_of(elementwise: u64) -> Manner {
    if elementwise == 1 {
        return Manner::PerElement;
    }
    Manner::Block
}

// The number of a stored answer's refusal, 0 where it is a count.
pub(crate) fn refusal_at(list: &[u8], start: usize) -> usize {
    let answer = word(list, at(start, ANSWER));
    if answer < REFUSED {
        return 0;
    }
    (answer - REFUSED) as usize
}

// The entry's call; `second` is not lent where it has one result list.
fn answer(
    list: &[u8],
    start: usize,
    arrangement: Arrangement,
    a: &[usize],
    b: &[usize],
    m: &[f64],
    us: &[usize],
    vs: &[usize],
    betas: &[f64],
    factors: &[f64],
    first: &mut [f64],
    second: &mut [f64],
    memory: &mut [f64],
) -> Result<usize, Refusal> {
    let n = number_at(list, start);
    let floor = number_at(list, at(start, FLOOR));
    let manner = manner_of(word(list, at(start, PER_ELEMENT)));
    let entry = number_at(list, at(start, ENTRY));
    let seed = word(list, at(start, SEED));
    let from = word(list, at(start, FROM));
    let to = word(list, at(start, TO));
    let samples = number_at(list, at(start, SAMPLES));
    if entry == 0 {
        return entry_exhaustive::exhaustive(
            n,
            floor,
            a,
            b,
            m,
            us,
            vs,
            betas,
            factors,
            manner,
            arrangement,
            Caller::Desk,
            first,
            second,
            memory,
        );
    }
    if entry == 1 {
        return entry_exhaustive_c::exhaustive_c(
            n,
            floor,
            a,
            b,
            m,
            us,
            vs,
            betas,
            factors,
            manner,
            arrangement,
            Caller::Desk,
            first,
            memory,
        );
    }
    entry_sample::sample(
        n,
        floor,
        a,
        b,
        m,
        us,
        vs,
        betas,
        factors,
        manner,
        arrangement,
        Caller::Desk,
        seed,
        from,
        to,
        samples,
        first,
        second,
        memory,
    )
}

// Whether the answer in an arrangement is the stored one.
pub(crate) fn answers(
    list: &[u8],
    start: usize,
    arrangement: Arrangement,
    a: &[usize],
    b: &[usize],
    m: &[f64],
    us: &[usize],
    vs: &[usize],
    betas: &[f64],
    factors: &[f64],
    first: &mut [f64],
    second: &mut [f64],
    memory: &mut [f64],
) -> bool {
    fill(list, at(start, BEFORE), first);
    fill(list, at(start, BEFORE), second);
    fill(list, at(start, BEFORE), memory);
    let answered = answer(
        list,
        start,
        arrangement,
        a,
        b,
        m,
        us,
        vs,
        betas,
        factors,
        first,
        second,
        memory,
    );
    answer_word(answered, REFUSED) == word(list, at(start, ANSWER))
}

// How much of the work memory is +0.0 after a call that keeps every vector.
pub(crate) fn cleared_at(list: &[u8], start: usize) -> usize {
    number_at(list, at(start, CLEARED))
}

// And after one in less room: its own room, where the other arrangement's was cleared.
pub(crate) fn less_cleared_at(
    list: &[u8],
    start: usize,
    a: &[usize],
    b: &[usize],
    m: &[f64],
    us: &[usize],
    vs: &[usize],
) -> usize {
    if cleared_at(list, start) == 0 {
        return 0;
    }
    let n = number_at(list, start);
    let floor = number_at(list, at(start, FLOOR));
    match job_checks::room(n, floor, a, b, m, us, vs, Arrangement::LessRoom) {
        Ok(k) => k,
        Err(_) => 0,
    }
}

// The arrangement of the second call: less room, but the first again where work memory was short. With less room it might be enough, and the call could
// go through more configurations than a lifetime has time for.
pub(crate) fn other_arrangement(list: &[u8], start: usize) -> Arrangement {
    if refusal_at(list, start) == SHORT {
        return Arrangement::KeepAll;
    }
    Arrangement::LessRoom
}

// Whether the results, which are stored at two places, and the work memory, so much of it cleared, are what they should be.
pub(crate) fn left_as_stored(
    list: &[u8],
    start: usize,
    place: usize,
    other: usize,
    first: &[f64],
    second: &[f64],
    memory: &[f64],
    cleared: usize,
) -> bool {
    let before = word(list, at(start, BEFORE));
    are_stored(first, list, place)
        & are_stored(second, list, other)
        & are_cleared(memory, cleared, before)
}
