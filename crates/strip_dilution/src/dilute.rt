// Bond dilution: each edge is kept with a chance, and its magnitude is drawn between two bounds.
ghost use Rattle.std.specs.Prelude.{◌≡◌, ◌≤◌, length};
ghost use Rattle.list_laws.specs.Front.{over};
ghost use Rattle.refusals.specs.Answers.{Answered, left};
ghost use Rattle.strip_bonds.specs.Edges.{edges, early_ends, late_ends};
ghost use Rattle.strip_dilution.specs.Diluted.{advanced, magnitude, magnitudes, dilution, diluted_refusal};

use crate::refuse::bad_dilution;
use refusals::Refusal;
use rng::Rng;
use strip::{Strip, bad_sides, odd_cylinder};
use strip_edges::{count_edges, too_short, write_edges};

// A magnitude, and the generator after it.
#[derive(Drop)]
struct DrawnMagnitude {
    rng: Rng,
    value: f64,
}

// Both uniforms are drawn for a dropped edge too; its magnitude is +0.0.
fn draw_magnitude(start: Rng, keep: f64, mlo: f64, mhi: f64) -> DrawnMagnitude
    ensures { (result.value ≡ magnitude (dilution keep mlo mhi) start.s) × (result.rng.s ≡ advanced (advanced start.s)) }
{
    let first = start.uniform();
    let rest = first.rng;
    let second = rest.uniform();
    let rng = second.rng;
    if first.value < keep {
        return DrawnMagnitude {
            rng,
            value: mlo + (mhi - mlo) * second.value,
        };
    }
    DrawnMagnitude { rng, value: 0.0 }
}

fn draw_magnitudes(k: usize, keep: f64, mlo: f64, mhi: f64, seed: u64, mag: &mut [f64])
    requires { k ≤ length mag.old }
    ensures { mag.new ≡ over (magnitudes (dilution keep mlo mhi) seed k) mag.old }
{
    let mut rng = Rng::new(seed ^ 0xD11);
    for i in 0..k {
        let drawn = draw_magnitude(rng, keep, mlo, mhi);
        mag[i] = drawn.value;
        let after = drawn.rng;
        rng = after;
    }
}

// Writes the whole edge list with the drawn magnitudes, dropped edges at +0.0, and answers the number of edges.
pub fn diluted(
    s: Strip,
    keep: f64,
    mlo: f64,
    mhi: f64,
    seed: u64,
    early: &mut [usize],
    late: &mut [usize],
    mag: &mut [f64],
) -> Result<usize, Refusal>
    ensures value { Answered (diluted_refusal s (dilution keep mlo mhi) early.old late.old mag.old) (length (edges s)) result }
    ensures early_after { early.new ≡ left (diluted_refusal s (dilution keep mlo mhi) early.old late.old mag.old) (over (early_ends (edges s)) early.old) early.old }
    ensures late_after { late.new ≡ left (diluted_refusal s (dilution keep mlo mhi) early.old late.old mag.old) (over (late_ends (edges s)) late.old) late.old }
    ensures mag_after { mag.new ≡ left (diluted_refusal s (dilution keep mlo mhi) early.old late.old mag.old) (over (magnitudes (dilution keep mlo mhi) seed (length (edges s))) mag.old) mag.old }
{
    if bad_sides(s.w, s.l) {
        return Err(Refusal::StripSides);
    }
    if odd_cylinder(s) {
        return Err(Refusal::OddCylinder);
    }
    if bad_dilution(keep, mlo, mhi) {
        return Err(Refusal::Dilution);
    }
    let k = count_edges(s);
    if too_short(k, early.len(), late.len(), mag.len()) {
        return Err(Refusal::Buffer);
    }
    write_edges(s, early, late, mag);
    draw_magnitudes(k, keep, mlo, mhi, seed, mag);
    Ok(k)
}
