// A call's answer as the lists store it.
ghost use Rattle.std.specs.Prelude.{◌≡◌, ◌+◌, ◌%◌, ◌^◌, MatchResult};
ghost use Rattle.refusals.specs.Numbers.{number};

use refusals::Refusal;

// The answer itself, or its refusal's number `apart` from every answer.
pub fn answer_word(answer: Result<usize, Refusal>, apart: u64) -> u64
    ensures { MatchResult answer (λ x. result ≡ x) (λ refusal. result ≡ (apart + number refusal) % 2 ^ 64) }
{
    match answer {
        Ok(x) => x as u64,
        Err(refusal) => std::num::wrapping_add_u64(apart, refusal.number() as u64),
    }
}
