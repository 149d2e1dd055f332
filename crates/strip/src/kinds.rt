// The kinds of a strip's lattice, and the words that name kinds and boundaries.
ghost use Rattle.std.specs.Prelude.{◌≡◌, length};
ghost use Rattle.strip.specs.Names.{parsed, name_of, padded};

#[derive(Clone, Copy, Debug, PartialEq, Eq)]
pub enum Kind {
    Square,
    Tri,
    Honey,
    Eight,
}

// A word's first `len` bytes; the others are 0.
#[derive(Drop)]
pub struct Word {
    pub bytes: [u8; 6],
    pub len: usize,
}

impl Kind {
    // The kind that a name means, if it means one.
    pub fn parse(name: &[u8]) -> Option<Kind>
        ensures { result ≡ parsed name.now }
    {
        if check::same(name, b"square") | check::same(name, b"sq") {
            return Some(Kind::Square);
        }
        if check::same(name, b"tri") | check::same(name, b"triangular") {
            return Some(Kind::Tri);
        }
        let honey = check::same(name, b"honey") | check::same(name, b"honeycomb");
        if honey | check::same(name, b"hex") {
            return Some(Kind::Honey);
        }
        if check::same(name, b"eight") {
            return Some(Kind::Eight);
        }
        None
    }

    pub fn name(self) -> Word
        ensures { (result.bytes ≡ padded (name_of self)) × (result.len ≡ length (name_of self)) }
    {
        match self {
            Kind::Square => six(*b"square", 6),
            Kind::Tri => six(*b"tri\0\0\0", 3),
            Kind::Honey => six(*b"honey\0", 5),
            Kind::Eight => six(*b"eight\0", 5),
        }
    }
}

pub fn six(bytes: [u8; 6], len: usize) -> Word
    ensures { (result.bytes ≡ bytes) × (result.len ≡ len) }
{
    Word { bytes, len }
}
