// Which pairs are answered together. The order has the direct pairs first; a propagated pair is answered with a direct one beside it, and the
// direct pairs that are left two by two.
ghost use Rattle.std.specs.Prelude.{◌+◌, ◌≤◌, ◌<◌};
ghost use Rattle.pair_order.specs.Order.{InOrder};
ghost use Rattle.pair_places.specs.Places.{Pairs};
ghost use Rattle.propagation.specs.Pairing.{NextPairing, Directs};

use pair_places::is_propagated;

// Two numbers of the order that are answered in one pass, the second being the first again where that is alone; and how far the direct pairs
// and the others are answered after them.
#[derive(Drop)]
pub struct Pairing {
    pub first: usize,
    pub second: usize,
    pub direct: usize,
    pub other: usize,
}

// The next pairing, where the first `direct` pairs are answered, of `directs`, and the others up to `other`, of `all`. With `all` below 2^62 no
// sum here leaves the machine's numbers.
pub fn next_pairing(directs: usize, all: usize, direct: usize, other: usize) -> Pairing
    requires { (direct ≤ directs) × (directs ≤ other) × (other ≤ all) × (direct + other < directs + all) × (all < 4611686018427387904) }
    ensures { NextPairing directs all direct other result }
{
    if other < all {
        if direct < directs {
            return Pairing {
                first: other,
                second: direct,
                direct: direct + 1,
                other: other + 1,
            };
        }
        return Pairing {
            first: other,
            second: other,
            direct: direct,
            other: other + 1,
        };
    }
    if direct + 1 < directs {
        return Pairing {
            first: direct,
            second: direct + 1,
            direct: direct + 2,
            other: other,
        };
    }
    Pairing {
        first: direct,
        second: direct,
        direct: direct + 1,
        other: other,
    }
}

// How many pairs are direct: they stand at the front of the order.
pub fn direct_pairs(us: &[usize], vs: &[usize], order: &[usize], n: usize, w: usize) -> usize
    requires { Pairs us.now vs.now n × InOrder order.now us.now vs.now w }
    ensures { Directs us.now vs.now order.now w result }
{
    for k in 0..order.len() {
        let p = order[k];
        if is_propagated(w, us[p], vs[p]) {
            return k;
        }
    }
    order.len()
}
