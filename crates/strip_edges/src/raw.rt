// The edge list of a strip, for callers.
ghost use Rattle.std.specs.Prelude.{◌≡◌, length};
ghost use Rattle.list_laws.specs.Front.{over};
ghost use Rattle.refusals.specs.Answers.{Answered, left};
ghost use Rattle.strip_bonds.specs.Edges.{edges, early_ends, late_ends, unit_magnitudes};
ghost use Rattle.strip_edges.specs.RawEdges.{raw_refusal};

use crate::listing::{count_edges, too_short, write_edges};
use refusals::Refusal;
use strip::{Strip, bad_sides, odd_cylinder};

// Returns the number of edges, and writes them with unit magnitudes.
pub fn raw_edges(
    s: Strip,
    early: &mut [usize],
    late: &mut [usize],
    mag: &mut [f64],
) -> Result<usize, Refusal>
    ensures value { Answered (raw_refusal s early.old late.old mag.old) (length (edges s)) result }
    ensures early_after { early.new ≡ left (raw_refusal s early.old late.old mag.old) (over (early_ends (edges s)) early.old) early.old }
    ensures late_after { late.new ≡ left (raw_refusal s early.old late.old mag.old) (over (late_ends (edges s)) late.old) late.old }
    ensures mag_after { mag.new ≡ left (raw_refusal s early.old late.old mag.old) (over (unit_magnitudes (edges s)) mag.old) mag.old }
{
    if bad_sides(s.w, s.l) {
        return Err(Refusal::StripSides);
    }
    if odd_cylinder(s) {
        return Err(Refusal::OddCylinder);
    }
    let k = count_edges(s);
    if too_short(k, early.len(), late.len(), mag.len()) {
        return Err(Refusal::Buffer);
    }
    write_edges(s, early, late, mag);
    Ok(k)
}
