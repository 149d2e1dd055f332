// The signs of a sample.
ghost use Rattle.std.specs.Prelude.{◌≡◌, ℕ, ◌+◌, ◌/◌, ◌%◌, List, length};
ghost use Rattle.rng.specs.Xoshiro.{output};
ghost use Rattle.list_laws.specs.Bits.{bit};
ghost use Rattle.list_laws.specs.Tabulate.{tabulate};
ghost use Rattle.transfer_matrix.specs.Configuration.{drawn, words_per_sample};
ghost use Rattle.totals_signs.specs.Words.{Word};

use rng::{Drawn, Rng};

// A new word at every 64th edge; between them the current one.
fn word_at(at: Drawn, e: usize) -> Drawn
    ensures { ((s : List ℕ) → Word s e at → Word s (e + 1) result) }
{
    if e % 64 == 0 {
        return at.rng.next_u64();
    }
    at
}

// The signs of the next sample: lowest bit first, 0 for plus. Returns the generator after it.
pub fn sampled_signs(signs: &mut [bool], rng: Rng) -> Rng
    ensures { (signs.new ≡ tabulate (λ e. bit (e % 64) (output (drawn rng.s (e / 64)))) (length signs.old))
        × (result.s ≡ drawn rng.s (words_per_sample (length signs.old))) }
{
    let mut at = Drawn { rng, word: 0 };
    for (e, sign) in signs.iter_mut().enumerate() {
        at = word_at(at, e);
        *sign = (at.word >> (e % 64)) % 2 == 1;
    }
    at.rng
}
