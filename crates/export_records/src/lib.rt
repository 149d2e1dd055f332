// Run records by the C calling convention: two joined to one, and the totals of one.
#![tactic(auto)]

ghost use Rattle.std.specs.Prelude.{◌≡◌, ℕ};
ghost use Rattle.std.specs.declared.result.Result.{Result};
ghost use Rattle.refusals.specs.declared.Refusal.{Refusal};
ghost use Rattle.refusals.specs.Answers.{Answered};
ghost use Rattle.run_record_join.specs.Joining.{Joined};
ghost use Rattle.run_record_totals.specs.Totals.{Totalled};

use c_answers::tell_number;
use run_record_join::record_join;
use run_record_totals::record_totals;

// As `run_record_join::record_join`.
#[unsafe(no_mangle)]
pub extern "C" fn copperhook_record_join(one: &[u8], two: &[u8], joined: &mut [u8]) -> usize
    ensures { Joined one.now two.now result joined.old joined.new }
{
    let answer = record_join(one, two, joined);
    refusals::refused(answer)
}

// As `run_record_totals::record_totals`, how many samples there are in `count`; where the call is refused, that keeps what it held.
#[unsafe(no_mangle)]
pub extern "C" fn copperhook_record_totals(
    bytes: &[u8],
    squares: &mut [f64],
    fourths: &mut [f64],
    count: &mut usize,
) -> usize
    ensures totalled { (answer : Result ℕ Refusal) × Answered result count.new answer
        × Totalled bytes.now answer squares.old squares.new fourths.old fourths.new }
    ensures count_unchanged { (result ≡ 0 → ⊥) → count.new ≡ count.old }
{
    let answer = record_totals(bytes, squares, fourths);
    tell_number(answer, count)
}
