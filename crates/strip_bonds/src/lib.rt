// The local rules: what a strip has at a site, as one edge or none.
#![tactic(auto)]

ghost use Rattle.std.specs.Prelude.{◌≡◌, ◌+◌, ◌%◌, ◌≤◌, ◌<◌};
ghost use Rattle.strip_bonds.specs.Edges.{edge, given, brick, rises, falls, has_next, across, wrap, along, rising, falling};
ghost use Rattle.strip.specs.Sides.{Site};
ghost use Rattle.strip_bonds.specs.Bonds.{listed};

use strip::{Kind, Strip, vertex_at};

// An edge, its smaller end first.
#[derive(Clone, Copy)]
pub struct Edge {
    pub early: usize,
    pub late: usize,
}

fn bond_if(joined: bool, early: usize, late: usize) -> Option<Edge>
    ensures { listed result ≡ given joined (edge early late) }
{
    if joined {
        return Some(Edge { early, late });
    }
    None
}

fn has_brick(kind: Kind, x: usize, y: usize) -> bool
    requires { x + y ≤ 2048 }
    ensures { result ≡ brick kind x y }
{
    (kind != Kind::Honey) | ((x + y) % 2 == 0)
}

// Returns whether the strip has the diagonals to the next vertex across,
pub fn rises(s: Strip) -> bool
    ensures { result ≡ rises s }
{
    let kind = s.kind;
    (kind == Kind::Eight) | ((kind == Kind::Tri) & s.periodic)
}

// and those from it.
fn falls(s: Strip) -> bool
    ensures { result ≡ falls s }
{
    let kind = s.kind;
    (kind == Kind::Eight) | ((kind == Kind::Tri) & !s.periodic)
}

// Returns whether some vertex across follows y.
fn has_next(s: Strip, y: usize) -> bool
    requires { y ≤ 1024 }
    ensures { result ≡ has_next s y }
{
    (y + 1 < s.w) | (s.periodic & (2 < s.w))
}

// The vertex across that follows y, which round a cylinder is the first; found without a division.
fn next_across(w: usize, y: usize) -> usize
    requires { (y < w) × (w ≤ 1024) }
    ensures { (result ≡ (y + 1) % w) × (result < w) }
{
    let next = y + 1;
    if next < w {
        return next;
    }
    0
}

pub fn across(s: Strip, x: usize, y: usize) -> Option<Edge>
    requires { Site s x y }
    ensures { listed result ≡ across s x y }
{
    let w = s.w;
    let kind = s.kind;
    let next = y + 1;
    bond_if(
        (next < w) & has_brick(kind, x, y),
        vertex_at(w, x, y),
        vertex_at(w, x, next),
    )
}

pub fn wrap(s: Strip, x: usize, y: usize) -> Option<Edge>
    requires { Site s x y }
    ensures { listed result ≡ wrap s x y }
{
    let w = s.w;
    let kind = s.kind;
    let round = s.periodic & (y + 1 == w) & (2 < w);
    bond_if(
        round & has_brick(kind, x, y),
        vertex_at(w, x, 0),
        vertex_at(w, x, y),
    )
}

pub fn along(s: Strip, x: usize, y: usize) -> Option<Edge>
    requires { Site s x y }
    ensures { listed result ≡ along s x y }
{
    let w = s.w;
    bond_if(x + 1 < s.l, vertex_at(w, x, y), vertex_at(w, x + 1, y))
}

pub fn rising(s: Strip, x: usize, y: usize) -> Option<Edge>
    requires { Site s x y }
    ensures { listed result ≡ rising s x y }
{
    let w = s.w;
    let to = next_across(w, y);
    bond_if(
        rises(s) & (x + 1 < s.l) & has_next(s, y),
        vertex_at(w, x, y),
        vertex_at(w, x + 1, to),
    )
}

pub fn falling(s: Strip, x: usize, y: usize) -> Option<Edge>
    requires { Site s x y }
    ensures { listed result ≡ falling s x y }
{
    let w = s.w;
    let from = next_across(w, y);
    bond_if(
        falls(s) & (x + 1 < s.l) & has_next(s, y),
        vertex_at(w, x, from),
        vertex_at(w, x + 1, y),
    )
}
