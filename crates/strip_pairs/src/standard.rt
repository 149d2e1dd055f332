// The standard pair set of a strip, for callers.
ghost use Rattle.std.specs.Prelude.{◌≡◌, ◌||◌, [], ◌∷◌, ◌++◌, ◌+◌, ◌≤◌, ◌<◌, ltb, length, take};
ghost use Rattle.list_laws.specs.Front.{over};
ghost use Rattle.refusals.specs.Answers.{Answered, left};
ghost use Rattle.strip.specs.Sides.{Sides};
ghost use Rattle.strip_candidates.specs.Candidates.{candidate_at};
ghost use Rattle.strip_pairs.specs.PairSet.{pair_at, pairs_below, pair_set, firsts, seconds, label_bytes, pairs_refusal};
ghost use Rattle.strip_pairs.specs.PairListing.{shown, Counted, Put, PairRoom, PairsWritten, PairPlaced};

use refusals::Refusal;
use strip::{Strip, bad_sides};
use strip_candidates::sites_of;
use strip_labels::label_of;

// The two vertices of a pair.
#[derive(Clone, Copy)]
pub(crate) struct Vertices {
    pub u: usize,
    pub v: usize,
}

// How many pairs there are, and how many bytes their labels take.
#[derive(Clone, Copy)]
pub(crate) struct Filled {
    pub pairs: usize,
    pub bytes: usize,
}

// Candidate i, where the strip takes it.
fn picked(w: usize, l: usize, i: usize) -> Option<Vertices>
    requires { Sides w l × (i < 18) }
    ensures { shown result (candidate_at w l i).label ≡ pair_at w l i }
{
    let c = sites_of(w, l, i);
    let inside = (c.x1 < l) & (c.x2 < l) & (c.y1 < w) & (c.y2 < w);
    let same = (c.x1 == c.x2) & (c.y1 == c.y2);
    if c.wanted & (inside & !same) {
        let u = c.x1 * w + c.y1;
        let v = c.x2 * w + c.y2;
        return Some(Vertices { u, v });
    }
    None
}

fn counted(at: Filled, p: Option<Vertices>, len: usize) -> Filled
    requires { (at.pairs ≤ 18) × (at.bytes ≤ 306) × (len ≤ 16) }
    ensures { Counted p len at result }
{
    match p {
        Some(_) => Filled {
            pairs: at.pairs + 1,
            bytes: at.bytes + (len + 1),
        },
        None => at,
    }
}

fn count_pairs(w: usize, l: usize) -> Filled
    requires { Sides w l }
    ensures { (result.pairs ≡ length (pairs_below w l 18)) × (result.bytes ≡ length (label_bytes (pairs_below w l 18))) }
{
    let mut at = Filled { pairs: 0, bytes: 0 };
    for i in 0..18 {
        let name = label_of(i);
        let next = counted(at, picked(w, l, i), name.len());
        at = next;
    }
    at
}

// Writes a label and its zero byte, and answers where they end.
fn put_label(name: &[u8], labels: &mut [u8], at: usize) -> usize
    requires { at + (length name.now + 1) ≤ length labels.old }
    ensures { Put (name.now ++ (0 ∷ [])) at result labels.old labels.new }
{
    let len = name.len();
    for (j, byte) in name.iter().enumerate() {
        labels[at + j] = *byte;
    }
    labels[at + len] = 0;
    at + (len + 1)
}

fn place_pair(
    p: Option<Vertices>,
    name: &[u8],
    at: Filled,
    us: &mut [usize],
    vs: &mut [usize],
    labels: &mut [u8],
) -> Filled
    requires { PairRoom (shown p name.now) at us.old vs.old labels.old }
    ensures { PairPlaced (shown p name.now) at result us.old us.new vs.old vs.new labels.old labels.new }
{
    let k = at.pairs;
    match p {
        Some(pair) => {
            us[k] = pair.u;
            vs[k] = pair.v;
            let end = put_label(name, labels, at.bytes);
            Filled {
                pairs: k + 1,
                bytes: end,
            }
        }
        None => at,
    }
}

fn write_pairs(w: usize, l: usize, us: &mut [usize], vs: &mut [usize], labels: &mut [u8])
    requires { Sides w l × PairRoom (pairs_below w l 18) (record { pairs = 0; bytes = 0 }) us.old vs.old labels.old }
    ensures { PairsWritten (pairs_below w l 18) us.old us.new vs.old vs.new labels.old labels.new }
{
    let mut at = Filled { pairs: 0, bytes: 0 };
    for i in 0..18 {
        let next = place_pair(picked(w, l, i), label_of(i), at, us, vs, labels);
        at = next;
    }
}

fn pairs_too_short(need: Filled, us: usize, vs: usize, labels: usize) -> bool
    ensures { result ≡ (ltb us need.pairs || ltb vs need.pairs || ltb labels need.bytes) }
{
    (us < need.pairs) | (vs < need.pairs) | (labels < need.bytes)
}

// Returns the number of pairs, and writes their ends and labels. A honeycomb cylinder of odd width is answered too.
pub fn pairs(
    s: Strip,
    us: &mut [usize],
    vs: &mut [usize],
    labels: &mut [u8],
) -> Result<usize, Refusal>
    ensures value { Answered (pairs_refusal s us.old vs.old labels.old) (length (pair_set s)) result }
    ensures us_after { us.new ≡ left (pairs_refusal s us.old vs.old labels.old) (over (firsts (pair_set s)) us.old) us.old }
    ensures vs_after { vs.new ≡ left (pairs_refusal s us.old vs.old labels.old) (over (seconds (pair_set s)) vs.old) vs.old }
    ensures labels_after { labels.new ≡ left (pairs_refusal s us.old vs.old labels.old) (over (label_bytes (pair_set s)) labels.old) labels.old }
{
    let w = s.w;
    let l = s.l;
    if bad_sides(w, l) {
        return Err(Refusal::StripSides);
    }
    let need = count_pairs(w, l);
    if pairs_too_short(need, us.len(), vs.len(), labels.len()) {
        return Err(Refusal::Buffer);
    }
    write_pairs(w, l, us, vs, labels);
    Ok(need.pairs)
}
