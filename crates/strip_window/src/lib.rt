// The window of a whole strip, for callers that take it as the floor of a diluted one's.
#![tactic(auto)]

ghost use Rattle.std.specs.Prelude.{◌≡◌, false};
ghost use Rattle.refusals.specs.Answers.{Answered};
ghost use Rattle.refusals.specs.StripRequest.{strip_refusal, of_strip};
ghost use Rattle.strip_window.specs.Window.{window_of};
ghost use Rattle.strip.specs.Requests.{strip_request};
ghost use Rattle.strip.specs.Sides.{Sides};
ghost use Rattle.strip_window.specs.Reach.{reach};

use refusals::Refusal;
use strip::{Kind, Strip, bad_sides, odd_cylinder};
use strip_bonds::rises;

fn reach(s: Strip) -> usize
    requires { Sides s.w s.l }
    ensures { result ≡ reach s }
{
    let w = s.w;
    let kind = s.kind;
    if 1 < s.l {
        if (kind == Kind::Eight) & s.periodic & (2 < w) {
            return 2 * w - 1;
        }
        if rises(s) & (1 < w) {
            return w + 1;
        }
        return w;
    }
    if (kind != Kind::Honey) & s.periodic & (2 < w) {
        return w - 1;
    }
    1
}

// The largest of 1 and the longest edge. No edge is looked at: the longest is known from the kind and the sides.
pub fn window(s: Strip) -> Result<usize, Refusal>
    ensures { Answered (strip_refusal of_strip (strip_request s false)) (window_of s) result }
{
    if bad_sides(s.w, s.l) {
        return Err(Refusal::StripSides);
    }
    if odd_cylinder(s) {
        return Err(Refusal::OddCylinder);
    }
    Ok(reach(s))
}
