// Sets of vertices as a forest: the list p holds each vertex's parent, and a root, its own parent, stands for its set.
#![tactic(auto)]

ghost use Rattle.std.specs.Prelude.{◌<◌, length};
ghost use Rattle.union_find.specs.Forest.{Forest, Fresh, Found, Merged, MergedLower};

// Every vertex is made its own parent: sets of one.
pub fn start(p: &mut [usize])
    ensures { Fresh p.new }
{
    for (i, x) in p.iter_mut().enumerate() {
        *x = i;
    }
}

// The root above a vertex. Each vertex on the way takes its parent's parent, which halves the path.
pub fn find(p: &mut [usize], vertex: usize) -> usize
    requires { Forest p.old × (vertex < length p.old) }
    ensures { Found p.old vertex result p.new }
{
    let mut x = vertex;
    loop {
        let y = p[x];
        if y == x {
            break x;
        }
        let z = p[y];
        p[x] = z;
        x = z;
    }
}

// Hangs a's root below b's, and answers whether these were two sets.
pub fn union(p: &mut [usize], a: usize, b: usize) -> bool
    requires { Forest p.old × (a < length p.old) × (b < length p.old) }
    ensures { Merged p.old a b result p.new }
{
    let ra = find(p, a);
    let rb = find(p, b);
    if ra == rb {
        return false;
    }
    p[ra] = rb;
    true
}

// Hangs the higher of the two roots below the lower one, and returns whether these were two sets.
pub fn union_lower(p: &mut [usize], a: usize, b: usize) -> bool
    requires { Forest p.old × (a < length p.old) × (b < length p.old) }
    ensures { MergedLower p.old a b result p.new }
{
    let x = find(p, a);
    let y = find(p, b);
    if x < y {
        p[y] = x;
        return true;
    }
    if y < x {
        p[x] = y;
        return true;
    }
    false
}
