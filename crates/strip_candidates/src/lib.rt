// The candidates of the standard pair set: where each lies.
#![tactic(auto)]

ghost use Rattle.std.specs.Prelude.{◌≡◌, ◌-◌, ◌≤◌, ◌<◌};
ghost use Rattle.strip_candidates.specs.Candidates.{between_sites, candidate_at};

// Two sites, (x1, y1) and (x2, y2), and whether a strip wants them as a pair.
#[derive(Drop)]
pub struct Sites {
    pub wanted: bool,
    pub x1: usize,
    pub y1: usize,
    pub x2: usize,
    pub y2: usize,
}

fn between_sites(wanted: bool, x1: usize, y1: usize, x2: usize, y2: usize) -> Sites
    ensures { result ≡ between_sites wanted x1 y1 x2 y2 }
{
    Sites {
        wanted,
        x1,
        y1,
        x2,
        y2,
    }
}

// x - d, or 0 where d is larger.
fn back(x: usize, d: usize) -> usize
    ensures { result ≡ x - d }
{
    if x < d { 0 } else { x - d }
}

// Candidate i of strips w across and l along; (xm, ym) is the middle.
pub fn sites_of(w: usize, l: usize, i: usize) -> Sites
    requires { (0 < w) × (w ≤ 1024) × (0 < l) × (l ≤ 1024) × (i < 18) }
    ensures { result ≡ (candidate_at w l i).sites }
{
    let xm = (l - 1) / 2;
    let ym = (w - 1) / 2;
    let x1 = back(xm, 1);
    let x2 = back(xm, 2);
    let y1 = back(ym, 1);
    let centre = (w >= 3) & (l >= 3);
    match i {
        0 => between_sites(true, 0, 0, 0, 1),
        1 => between_sites(true, 0, 0, 1, 0),
        2 => between_sites(w >= 3, 0, 1, 0, 2),
        3 => between_sites(l >= 3, 1, 0, 2, 0),
        4 => between_sites(l >= 4, xm, 0, xm + 1, 0),
        5 => between_sites(l >= 4, x1, 0, x1 + 2, 0),
        6 => between_sites(l >= 5, x1, 0, x1 + 3, 0),
        7 => between_sites(w >= 4, 0, 0, 0, 2),
        8 => between_sites(w >= 4, 0, 0, 0, 3),
        9 => between_sites(true, 0, 0, 0, w - 1),
        10 => between_sites(true, 0, 0, l - 1, 0),
        11 => between_sites(true, 0, 0, l - 1, w - 1),
        12 => between_sites(centre, xm, ym, xm + 1, ym),
        13 => between_sites(centre, xm, ym, xm, ym + 1),
        14 => between_sites(centre & (xm + 2 < l), x1, ym, x1 + 2, ym),
        15 => between_sites(centre & (xm + 3 < l), x1, ym, x1 + 3, ym),
        16 => between_sites(centre & (xm + 4 < l), x2, ym, x2 + 4, ym),
        _ => between_sites((w >= 5) & (l >= 3), xm, y1, xm, ym + 1),
    }
}
