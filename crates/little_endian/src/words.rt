// A number of so many bytes in a list of bytes, the least byte first.
ghost use Rattle.std.specs.Prelude.{◌≡◌, ◌+◌, ◌≤◌, length};
ghost use Rattle.list_laws.specs.Part.{put};
ghost use Rattle.little_endian.specs.Words.{word_at, bytes_of};

// The number whose bytes begin at `place`.
pub fn word_at(bytes: &[u8], place: usize, width: usize) -> u64
    requires { (width ≤ 8) × (place + width ≤ length bytes.now) }
    ensures { result ≡ word_at bytes.now place width }
{
    let mut x: u64 = 0;
    for i in (0..width).rev() {
        let byte = bytes[place + i] as u64;
        x = 256 * x + byte;
    }
    x
}

// Writes the bytes of `x` from `place` on.
pub fn put_word(bytes: &mut [u8], place: usize, width: usize, x: u64)
    requires { place + width ≤ length bytes.old }
    ensures { bytes.new ≡ put bytes.old place (bytes_of width x) }
{
    let mut rest = x;
    for i in 0..width {
        bytes[place + i] = (rest % 256) as u8;
        rest = rest / 256;
    }
}
