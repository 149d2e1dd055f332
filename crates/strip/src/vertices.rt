// The vertices of a strip, for callers.
ghost use Rattle.std.specs.Prelude.{◌≡◌, false, ◌*◌, OnOk};
ghost use Rattle.refusals.specs.Numbers.{refused};
ghost use Rattle.refusals.specs.Answers.{Answered};
ghost use Rattle.refusals.specs.StripRequest.{strip_refusal, of_sides};
ghost use Rattle.strip.specs.Requests.{strip_request};
ghost use Rattle.strip.specs.Sides.{Sides};
ghost use Rattle.strip.specs.Vertices.{sited};

use crate::refuse::bad_sides;
use crate::strip::{Strip, vertex_at, vertex_count};
use refusals::Refusal;

fn check_sides(s: Strip) -> Result<(), Refusal>
    ensures refusal { refused result ≡ strip_refusal of_sides (strip_request s false) }
    ensures sides { OnOk result (Sides s.w s.l) }
{
    if bad_sides(s.w, s.l) {
        return Err(Refusal::StripSides);
    }
    Ok(())
}

impl Strip {
    // The number of vertices.
    pub fn n(self) -> Result<usize, Refusal>
        ensures { Answered (strip_refusal of_sides (strip_request self false)) (self.w * self.l) result }
    {
        check_sides(self)?;
        Ok(vertex_count(self.w, self.l))
    }

    // The vertex at x along the strip and y across, if the strip has one there.
    pub fn vid(self, x: usize, y: usize) -> Result<Option<usize>, Refusal>
        ensures { Answered (strip_refusal of_sides (strip_request self false)) (sited self x y) result }
    {
        check_sides(self)?;
        if self.l <= x {
            return Ok(None);
        }
        if self.w <= y {
            return Ok(None);
        }
        Ok(Some(vertex_at(self.w, x, y)))
    }
}
