// Two operations on words of 64 bits that the language does not supply.
ghost use Rattle.std.specs.Prelude.{◌≡◌, ◌<◌};
ghost use Rattle.rng.specs.Word.{times, rotl};

// The low 64 bits of the product, by halves of 32 bits: the product of the upper halves falls away.
pub fn wrapping_mul_u64(a: u64, b: u64) -> u64
    ensures { result ≡ times a b }
{
    let a0 = a % 0x1_0000_0000;
    let a1 = a / 0x1_0000_0000;
    let b0 = b % 0x1_0000_0000;
    let b1 = b / 0x1_0000_0000;
    let mid = (a1 * b0 % 0x1_0000_0000 + a0 * b1 % 0x1_0000_0000) % 0x1_0000_0000;
    std::num::wrapping_add_u64(a0 * b0, mid * 0x1_0000_0000)
}

pub(crate) fn rotate_left(x: u64, k: u32) -> u64
    requires { (0 < k) × (k < 64) }
    ensures { result ≡ rotl x k }
{
    (x << k) | (x >> (64 - k))
}
