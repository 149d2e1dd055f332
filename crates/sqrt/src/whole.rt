// The whole part of a square root, digit by digit.
ghost use Rattle.std.specs.Prelude.{◌*◌, ◌^◌, ◌<◌};
ghost use Rattle.sqrt.specs.WholeRoot.{WholeRoot};

// Of the root of m * 2^54, whose 108 digits are taken two at a time. `rest` is what the root's square leaves of the digits taken so far, and
// `next` is the 54 digits after them.
pub fn whole_root(m: u64) -> u64
    requires { m < 2 ^ 54 }
    ensures { WholeRoot (m * 2 ^ 54) result }
{
    let mut root = 0u64;
    let mut rest = 0u64;
    let mut next = m;
    for _digit in 0u64..54 {
        let taken = rest * 4 + next / 0x0010_0000_0000_0000;
        let odd = root * 4 + 1;
        next = next % 0x0010_0000_0000_0000 * 4;
        if odd <= taken {
            rest = taken - odd;
            root = root * 2 + 1;
        } else {
            rest = taken;
            root = root * 2;
        }
    }
    root
}
