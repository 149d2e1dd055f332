// The files that stored lists stand in.
ghost use Rattle.std.specs.Io.{ReadsAtMost};

use std::io::Read;
use std::rt::Files;
use std::{fs, io};

// Reads a file into a list, as much as it holds. Returns how many bytes there are.
pub fn read_file(rt: &impl Files, path: &str, list: &mut [u8]) -> io::Result<usize>
    ensures { ReadsAtMost result list.new }
{
    let mut file = fs::open(rt, path)?;
    let mut filled = 0;
    while filled < list.len() {
        let n = file.read(&mut list[filled..])?;
        if n == 0 {
            break;
        }
        filled += n;
    }
    Ok(filled)
}
