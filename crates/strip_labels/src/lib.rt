// The labels of the candidates of the standard pair set.
#![tactic(auto)]

ghost use Rattle.std.specs.Prelude.{◌≡◌, ℕ, ◌<◌, ◌≤◌, length};
ghost use Rattle.strip_candidates.specs.Candidates.{candidate_at};

// The label of candidate i, as bytes.
#[tactic(auto, unfolding(strip_candidates::specs::Candidates::candidate_at, strip_candidates::specs::Candidates::candidates))]
pub fn label_of(i: usize) -> &'static [u8]
    requires { i < 18 }
    ensures text { (w l : ℕ) → result.now ≡ (candidate_at w l i).label }
    ensures short { length result.now ≤ 16 }
{
    match i {
        0 => b"corner-adj-a",
        1 => b"corner-adj-l",
        2 => b"bdry-adj-a",
        3 => b"bdry-adj-l",
        4 => b"bdry-adj-lmid",
        5 => b"bdry-d2-l",
        6 => b"bdry-d3-l",
        7 => b"bdry-d2-a",
        8 => b"bdry-d3-a",
        9 => b"short-end-to-end",
        10 => b"end-to-end-l",
        11 => b"opp-corners",
        12 => b"centre-adj-l",
        13 => b"centre-adj-a",
        14 => b"centre-d2-l",
        15 => b"centre-d3-l",
        16 => b"centre-d4-l",
        _ => b"centre-d2-a",
    }
}
