// xoshiro256++ seeded through splitmix64. A state goes in by value and comes back with what was drawn.
#![tactic(auto)]

ghost use Rattle.std.specs.Prelude.{◌≡◌, ◌/◌, ◌^◌, false};
ghost use Rattle.std.specs.Float.Ieee.Exact.{HasValue};
ghost use Rattle.rng.specs.SplitMix.{advance, mix};
ghost use Rattle.rng.specs.Xoshiro.{output, next, seeded, streamed};
ghost use Rattle.rng.specs.Uniform.{unit};

mod word;

use word::rotate_left;
pub use word::wrapping_mul_u64;

// A step of splitmix64: the state after it, and its word.
#[derive(Drop)]
pub struct Mixed {
    pub state: u64,
    pub word: u64,
}

pub fn splitmix(x: u64) -> Mixed
    ensures { (result.state ≡ advance x) × (result.word ≡ mix (advance x)) }
{
    let state = std::num::wrapping_add_u64(x, 0x9E37_79B9_7F4A_7C15);
    let y = wrapping_mul_u64(state ^ (state >> 30), 0xBF58_476D_1CE4_E5B9);
    let z = wrapping_mul_u64(y ^ (y >> 27), 0x94D0_49BB_1331_11EB);
    Mixed {
        state,
        word: z ^ (z >> 31),
    }
}

#[derive(Drop)]
pub struct Rng {
    pub s: [u64; 4],
}

// A word, and the generator after it.
#[derive(Drop)]
pub struct Drawn {
    pub rng: Rng,
    pub word: u64,
}

// A double from 0 up to, and without, 1, and the generator after it.
#[derive(Drop)]
pub struct DrawnUniform {
    pub rng: Rng,
    pub value: f64,
}

impl Rng {
    pub fn new(seed: u64) -> Rng
        ensures { result.s ≡ seeded seed }
    {
        let a = splitmix(seed);
        let b = splitmix(a.state);
        let c = splitmix(b.state);
        let d = splitmix(c.state);
        Rng {
            s: [a.word, b.word, c.word, d.word],
        }
    }

    // Independent stream for (seed, index).
    pub fn stream(seed: u64, index: u64) -> Rng
        ensures { result.s ≡ streamed seed index }
    {
        let x = seed ^ wrapping_mul_u64(index, 0xD1B5_4A32_D192_ED03);
        let first = splitmix(x);
        let second = splitmix(first.state);
        Rng::new(second.word ^ index)
    }

    // The all-zero state gives 0 and stays.
    pub fn next_u64(self) -> Drawn
        ensures { (result.word ≡ output self.s) × (result.rng.s ≡ next self.s) }
    {
        let a = self.s[0];
        let b = self.s[1];
        let c = self.s[2];
        let d = self.s[3];
        let word = std::num::wrapping_add_u64(rotate_left(std::num::wrapping_add_u64(a, d), 23), a);
        let t = b << 17;
        let s2 = c ^ a;
        let s3 = d ^ b;
        let s1 = b ^ s2;
        let s0 = a ^ s3;
        Drawn {
            rng: Rng {
                s: [s0, s1, s2 ^ t, rotate_left(s3, 45)],
            },
            word,
        }
    }

    // The top 53 bits of the next word times 2^-53, exactly.
    pub fn uniform(self) -> DrawnUniform
        ensures fact { (result.value ≡ unit (output self.s)) × (result.rng.s ≡ next self.s) }
        ensures exactly { HasValue result.value false (output self.s / 2 ^ 11) (2 ^ 53) }
    {
        let drawn = self.next_u64();
        let rng = drawn.rng;
        DrawnUniform {
            rng,
            value: (drawn.word >> 11) as f64 * (1.0 / 9007199254740992.0),
        }
    }
}
