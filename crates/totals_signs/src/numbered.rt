// The signs of an enumerated configuration.
ghost use Rattle.std.specs.Prelude.{◌≡◌, true, false, ◌&&◌, ℕ, ◌<◌, length, get_or};
ghost use Rattle.list_laws.specs.Bits.{bit};
ghost use Rattle.list_laws.specs.Tabulate.{tabulate};
ghost use Rattle.edge_bits.specs.Having.{has_bit};
ghost use Rattle.transfer_matrix.specs.Configuration.{enumerated_minus};
ghost use Rattle.totals_signs.specs.Fit.{BitsFit};
ghost use Rattle.totals_signs.specs.Last.{LastChanged};

use edge_bits::has_bit;

// Configuration x gives an edge minus where the edge has a bit and that bit of x is set.
fn is_minus(b: usize, x: usize) -> bool
    requires { has_bit b ≡ true → b < 64 }
    ensures { result ≡ (has_bit b && bit b x) }
{
    if has_bit(b) {
        return (x >> b) % 2 == 1;
    }
    false
}

// The last edge so far whose sign changed: e, where the sign is another than before.
fn last_changed(before: bool, minus: bool, e: usize, last: usize) -> usize
    ensures { LastChanged before minus e last result }
{
    if before {
        if minus {
            return last;
        }
        return e;
    }
    if minus { e } else { last }
}

// The signs of configuration x, by the bits of the edges. Returns the last edge whose sign changed, 0 where none did.
pub fn enumerated_signs(signs: &mut [bool], bits: &[usize], x: usize) -> usize
    requires { (length signs.old ≡ length bits.now) × BitsFit bits.now }
    ensures signs_after { signs.new
        ≡ tabulate (enumerated_minus (λ e. get_or bits.now e 0) x) (length bits.now) }
    ensures by_index { (e : ℕ) → result < e → e < length bits.now → get_or signs.new e false ≡ get_or signs.old e false }
{
    let mut last = 0usize;
    for (e, bit) in bits.iter().enumerate() {
        let minus = is_minus(*bit, x);
        last = last_changed(signs[e], minus, e, last);
        signs[e] = minus;
    }
    last
}
