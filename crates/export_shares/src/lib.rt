// The shares of stored correlations by the C calling convention.
#![tactic(auto)]

ghost use Rattle.std.specs.Prelude.{◌≡◌};
ghost use Rattle.refusals.specs.Numbers.{refused};
ghost use Rattle.shares.specs.Shares.{shares_of, words_of, words_in};

use shares::Shares;

// Top and bottom of each share: above zero, zero, below zero, 1/2 or more in size.
fn words_of(s: Shares) -> [u64; 8]
    ensures { result ≡ words_of s }
{
    let above = s.above;
    let zero = s.zero;
    let below = s.below;
    let half = s.half;
    [
        above.top,
        above.bottom,
        zero.top,
        zero.bottom,
        below.top,
        below.bottom,
        half.top,
        half.bottom,
    ]
}

// As `shares::shares`, the eight words in `words`; where the call is refused, these keep what they held.
#[unsafe(no_mangle)]
pub extern "C" fn copperhook_shares(
    stored: &[f64],
    lengths: &[usize],
    words: &mut [u64; 8],
) -> usize
    ensures value { result ≡ refused (shares_of stored.now lengths.now) }
    ensures words_after { words.new ≡ words_in (shares_of stored.now lengths.now) words.old }
{
    let answer = shares::shares(stored, lengths);
    match answer {
        Ok(s) => {
            let told = words_of(s);
            *words = told;
            0
        }
        Err(refusal) => refusal.number(),
    }
}
