// The generator, whose state of four words the caller keeps.
ghost use Rattle.std.specs.Prelude.{◌≡◌, false, ◌/◌, ◌^◌};
ghost use Rattle.std.specs.Float.Ieee.Exact.{HasValue};
ghost use Rattle.rng.specs.Xoshiro.{output, next, seeded, streamed};
ghost use Rattle.rng.specs.Uniform.{unit};

use rng::Rng;

// As `Rng::new`: the state of a seed.
#[unsafe(no_mangle)]
pub extern "C" fn copperhook_rng_new(seed: u64, state: &mut [u64; 4])
    ensures { state.new ≡ seeded seed }
{
    let rng = Rng::new(seed);
    let words = rng.s;
    *state = words;
}

// As `Rng::stream`: the state of the stream (seed, index).
#[unsafe(no_mangle)]
pub extern "C" fn copperhook_rng_stream(seed: u64, index: u64, state: &mut [u64; 4])
    ensures { state.new ≡ streamed seed index }
{
    let rng = Rng::stream(seed, index);
    let words = rng.s;
    *state = words;
}

// As `Rng::next_u64`: the next word.
#[unsafe(no_mangle)]
pub extern "C" fn copperhook_rng_next_u64(state: &mut [u64; 4]) -> u64
    ensures { (result ≡ output state.old) × (state.new ≡ next state.old) }
{
    let s = *state;
    let rng = Rng { s };
    let drawn = rng.next_u64();
    let after = drawn.rng;
    let words = after.s;
    *state = words;
    drawn.word
}

// As `Rng::uniform`: a double from 0 up to, and without, 1.
#[unsafe(no_mangle)]
pub extern "C" fn copperhook_rng_uniform(state: &mut [u64; 4]) -> f64
    ensures fact { (result ≡ unit (output state.old)) × (state.new ≡ next state.old) }
    ensures exactly { HasValue result false (output state.old / 2 ^ 11) (2 ^ 53) }
{
    let s = *state;
    let rng = Rng { s };
    let drawn = rng.uniform();
    let after = drawn.rng;
    let words = after.s;
    *state = words;
    drawn.value
}
