// The edges of a strip, site after site: how many there are, and their lists.
ghost use Rattle.std.specs.Prelude.{◌≡◌, ◌||◌, ◌+◌, ◌≤◌, ltb, length};
ghost use Rattle.strip_bonds.specs.Edges.{edges};
ghost use Rattle.strip.specs.Sides.{Site, Sides};
ghost use Rattle.strip_bonds.specs.Bonds.{listed};
ghost use Rattle.strip_bonds.specs.Sites.{site_count};
ghost use Rattle.strip_edges.specs.Listing.{Holds, Written, Placed, Placing};

use strip::{Strip, vertex_count};
use strip_bonds::{Edge, across, along, falling, rising, wrap};

fn size(b: Option<Edge>) -> usize
    ensures { (result ≡ length (listed b)) × (result ≤ 1) }
{
    match b {
        Some(_) => 1,
        None => 0,
    }
}

fn count_site(s: Strip, x: usize, y: usize) -> usize
    requires { Site s x y }
    ensures { (result ≡ site_count s x y) × (result ≤ 5) }
{
    size(across(s, x, y))
        + size(wrap(s, x, y))
        + size(along(s, x, y))
        + size(rising(s, x, y))
        + size(falling(s, x, y))
}

pub fn count_edges(s: Strip) -> usize
    requires { Sides s.w s.l }
    ensures { result ≡ length (edges s) }
{
    let w = s.w;
    let sites = vertex_count(w, s.l);
    let mut k: usize = 0;
    for v in 0..sites {
        k += count_site(s, v / w, v % w);
    }
    k
}

// Writes what a rule gave behind the first k edges, and answers how many there are then.
fn place(
    b: Option<Edge>,
    k: usize,
    early: &mut [usize],
    late: &mut [usize],
    mag: &mut [f64],
) -> usize
    requires { Holds (k + length (listed b)) early.old late.old mag.old }
    ensures { Placed (listed b) k result early.old early.new late.old late.new mag.old mag.new }
{
    match b {
        Some(edge) => {
            early[k] = edge.early;
            late[k] = edge.late;
            mag[k] = 1.0;
            k + 1
        }
        None => k,
    }
}

fn place_site(
    s: Strip,
    x: usize,
    y: usize,
    k: usize,
    early: &mut [usize],
    late: &mut [usize],
    mag: &mut [f64],
) -> usize
    requires { Site s x y × Holds (k + site_count s x y) early.old late.old mag.old }
    ensures { Placing s x y k result early.old early.new late.old late.new mag.old mag.new }
{
    let a = place(across(s, x, y), k, early, late, mag);
    let b = place(wrap(s, x, y), a, early, late, mag);
    let c = place(along(s, x, y), b, early, late, mag);
    let d = place(rising(s, x, y), c, early, late, mag);
    place(falling(s, x, y), d, early, late, mag)
}

pub fn write_edges(s: Strip, early: &mut [usize], late: &mut [usize], mag: &mut [f64])
    requires { Sides s.w s.l × Holds (length (edges s)) early.old late.old mag.old }
    ensures { Written (edges s) (length (edges s)) early.old early.new late.old late.new mag.old mag.new }
{
    let w = s.w;
    let sites = vertex_count(w, s.l);
    let mut k: usize = 0;
    for v in 0..sites {
        k = place_site(s, v / w, v % w, k, early, late, mag);
    }
}

// 12. A buffer is too short for k edges.
pub fn too_short(k: usize, early: usize, late: usize, mag: usize) -> bool
    ensures { result ≡ (ltb early k || ltb late k || ltb mag k) }
{
    (early < k) | (late < k) | (mag < k)
}
