// The roots of a forest as bits: vertex v is bit v mod 64 of word v / 64.
ghost use Rattle.std.specs.Prelude.{◌≡◌, cond, ◌≤◌};
ghost use Rattle.forest.specs.Lowest.{bits};
ghost use Rattle.components.specs.Marks.{is_root, root_marks};

fn is_root(p: &[usize], v: usize) -> bool
    ensures { result ≡ is_root p.now v }
{
    if v < p.len() {
        return p[v] == v;
    }
    false
}

fn bit_of(set: bool) -> u64
    ensures { result ≡ cond set 1 0 }
{
    u64::from(set)
}

// The word of the vertices from `first` on, made from its highest bit down.
fn word_at(p: &[usize], first: usize) -> u64
    requires { first ≤ 1024 }
    ensures { result ≡ bits (is_root p.now) first 64 }
{
    let mut word: u64 = 0;
    for b in (0..64).rev() {
        word = bit_of(is_root(p, first + b)) + 2 * word;
    }
    word
}

pub fn mark_roots(p: &[usize]) -> [u64; 16]
    ensures { result ≡ root_marks p.now }
{
    let mut marks = [0u64; 16];
    for k in 0..16 {
        marks[k] = word_at(p, 64 * k);
    }
    marks
}
