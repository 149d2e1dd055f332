// Kept edges: zero magnitudes dropped, the rest in order, smaller end first.
ghost use Rattle.std.specs.Prelude.{◌≡◌, min, max, ◌≤◌, length};
ghost use Rattle.refusals.specs.Edges.{kept, dropping};
ghost use Rattle.kept_edges.specs.Keep.{Written, Holds, places_of, Placed};

use graph_checks::magnitude_dropping;

fn smaller(x: usize, y: usize) -> usize
    ensures { result ≡ min x y }
{
    if x < y { x } else { y }
}

pub(crate) fn larger(x: usize, y: usize) -> usize
    ensures { result ≡ max x y }
{
    if x < y { y } else { x }
}

// Writes the kept edges to the fronts of three buffers, and returns how many there are. The magnitude at `dropped` counts as zero.
pub fn keep_dropping(
    a: &[usize],
    b: &[usize],
    m: &[f64],
    dropped: usize,
    early: &mut [usize],
    late: &mut [usize],
    mag: &mut [f64],
) -> usize
    requires { (length b.now ≡ length a.now) × (length m.now ≡ length a.now) × Holds (length (kept a.now b.now (dropping dropped m.now))) early.old late.old mag.old }
    ensures { Written a.now b.now (dropping dropped m.now) (length a.now) result early.old early.new late.old late.new mag.old mag.new }
{
    let mut k: usize = 0;
    for i in 0..a.len() {
        let x = smaller(a[i], b[i]);
        let y = larger(a[i], b[i]);
        let w = magnitude_dropping(m, dropped, i);
        if w != 0.0 {
            early[k] = x;
            late[k] = y;
            mag[k] = w;
            k += 1;
        }
    }
    k
}

// The same where none is dropped but by its magnitude.
pub fn keep(
    a: &[usize],
    b: &[usize],
    m: &[f64],
    early: &mut [usize],
    late: &mut [usize],
    mag: &mut [f64],
) -> usize
    requires { (length b.now ≡ length a.now) × (length m.now ≡ length a.now) × Holds (length (kept a.now b.now m.now)) early.old late.old mag.old }
    ensures { Written a.now b.now m.now (length a.now) result early.old early.new late.old late.new mag.old mag.new }
{
    keep_dropping(a, b, m, m.len(), early, late, mag)
}

// Writes the raw places of the kept edges to the front of a buffer, and returns how many there are.
pub fn keep_places(m: &[f64], raw: &mut [usize]) -> usize
    requires { length (places_of m.now (length m.now)) ≤ length raw.old }
    ensures { Placed m.now (length m.now) result raw.old raw.new }
{
    let mut k: usize = 0;
    for (place, w) in m.iter().enumerate() {
        if *w != 0.0 {
            raw[k] = place;
            k += 1;
        }
    }
    k
}
