// What is answered of a whole sheet.
ghost use Rattle.std.specs.Prelude.{◌≡◌, ◌||◌, ltb};

// Vertices, floor, and how many records of each kind there are.
#[derive(Clone, Copy)]
pub struct SheetJob {
    pub n: usize,
    pub floor: usize,
    pub edges: usize,
    pub betas: usize,
    pub pairs: usize,
}

// Returns whether one of two lists is too short for so many entries.
pub fn too_short(entries: usize, list: usize, others: usize, another: usize) -> bool
    ensures { result ≡ (ltb list entries || ltb another others) }
{
    if list < entries {
        return true;
    }
    another < others
}
