// The entries that take house factors, with the options as a number and the count through a reference.
ghost use Rattle.std.specs.Prelude.{◌≡◌, ℕ};
ghost use Rattle.std.specs.declared.result.Result.{Result};
ghost use Rattle.refusals.specs.declared.Refusal.{Refusal};
ghost use Rattle.entry_correlations.specs.Correlations.{HouseCorrelated};
ghost use Rattle.totals_call.specs.Calls.{HouseEnumerated, HouseEnumeratedEach, HouseSampled};
ghost use Rattle.c_values.specs.Options.{options_numbered};
ghost use Rattle.c_answers.specs.Numbers.{Tells};

use c_answers::tell_number;
use c_values::options_numbered;
use refusals::refused;

// As `entry_house_correlations::house_correlations`.
#[unsafe(no_mangle)]
pub extern "C" fn copperhook_house_correlations(
    n: usize,
    floor: usize,
    a: &[usize],
    b: &[usize],
    m: &[f64],
    us: &[usize],
    vs: &[usize],
    couplings: &[f64],
    options: usize,
    results: &mut [f64],
    work: &mut [f64],
) -> usize
    ensures { HouseCorrelated n floor a.now b.now m.now us.now vs.now
        couplings.now (options_numbered options).manner (options_numbered options).arrangement (options_numbered options).caller result results.old results.new work.old work.new }
{
    let asked = options_numbered(options);
    let manner = asked.manner;
    let arrangement = asked.arrangement;
    let caller = asked.caller;
    let answer = entry_house_correlations::house_correlations(
        n,
        floor,
        a,
        b,
        m,
        us,
        vs,
        couplings,
        manner,
        arrangement,
        caller,
        results,
        work,
    );
    refused(answer)
}

// As `entry_house_exhaustive::house_exhaustive`, how many configurations there are in `count`; where the call is refused, that keeps what it held.
#[unsafe(no_mangle)]
pub extern "C" fn copperhook_house_exhaustive(
    n: usize,
    floor: usize,
    a: &[usize],
    b: &[usize],
    m: &[f64],
    us: &[usize],
    vs: &[usize],
    betas: &[f64],
    options: usize,
    squares: &mut [f64],
    fourths: &mut [f64],
    work: &mut [f64],
    count: &mut usize,
) -> usize
    ensures house_enumerated { (answer : Result ℕ Refusal) × Tells answer result count.old count.new
        × HouseEnumerated n floor a.now b.now m.now us.now vs.now
        betas.now (options_numbered options).manner (options_numbered options).arrangement (options_numbered options).caller
        answer squares.old squares.new fourths.old fourths.new work.old work.new }
    ensures count_unchanged { (result ≡ 0 → ⊥) → count.new ≡ count.old }
{
    let asked = options_numbered(options);
    let manner = asked.manner;
    let arrangement = asked.arrangement;
    let caller = asked.caller;
    let answer = entry_house_exhaustive::house_exhaustive(
        n,
        floor,
        a,
        b,
        m,
        us,
        vs,
        betas,
        manner,
        arrangement,
        caller,
        squares,
        fourths,
        work,
    );
    tell_number(answer, count)
}

// As `entry_house_exhaustive_c::house_exhaustive_c`, likewise.
#[unsafe(no_mangle)]
pub extern "C" fn copperhook_house_exhaustive_c(
    n: usize,
    floor: usize,
    a: &[usize],
    b: &[usize],
    m: &[f64],
    us: &[usize],
    vs: &[usize],
    betas: &[f64],
    options: usize,
    stored: &mut [f64],
    work: &mut [f64],
    count: &mut usize,
) -> usize
    ensures house_enumerated_each { (answer : Result ℕ Refusal) × Tells answer result count.old count.new
        × HouseEnumeratedEach n floor a.now b.now m.now us.now vs.now
        betas.now (options_numbered options).manner (options_numbered options).arrangement (options_numbered options).caller
        answer stored.old stored.new work.old work.new }
    ensures count_unchanged { (result ≡ 0 → ⊥) → count.new ≡ count.old }
{
    let asked = options_numbered(options);
    let manner = asked.manner;
    let arrangement = asked.arrangement;
    let caller = asked.caller;
    let answer = entry_house_exhaustive_c::house_exhaustive_c(
        n,
        floor,
        a,
        b,
        m,
        us,
        vs,
        betas,
        manner,
        arrangement,
        caller,
        stored,
        work,
    );
    tell_number(answer, count)
}

// As `entry_house_sample::house_sample`, likewise.
#[unsafe(no_mangle)]
pub extern "C" fn copperhook_house_sample(
    n: usize,
    floor: usize,
    a: &[usize],
    b: &[usize],
    m: &[f64],
    us: &[usize],
    vs: &[usize],
    betas: &[f64],
    options: usize,
    seed: u64,
    from: u64,
    to: u64,
    samples: usize,
    squares: &mut [f64],
    fourths: &mut [f64],
    work: &mut [f64],
    count: &mut usize,
) -> usize
    ensures house_sampled { (answer : Result ℕ Refusal) × Tells answer result count.old count.new
        × HouseSampled n floor a.now b.now m.now us.now vs.now
        betas.now (options_numbered options).manner (options_numbered options).arrangement (options_numbered options).caller seed from to samples
        answer squares.old squares.new fourths.old fourths.new work.old work.new }
    ensures count_unchanged { (result ≡ 0 → ⊥) → count.new ≡ count.old }
{
    let asked = options_numbered(options);
    let manner = asked.manner;
    let arrangement = asked.arrangement;
    let caller = asked.caller;
    let answer = entry_house_sample::house_sample(
        n,
        floor,
        a,
        b,
        m,
        us,
        vs,
        betas,
        manner,
        arrangement,
        caller,
        seed,
        from,
        to,
        samples,
        squares,
        fourths,
        work,
    );
    tell_number(answer, count)
}
