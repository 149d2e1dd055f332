// The checks of a call for a strip: one function a check, each with the test that it answers.
ghost use Rattle.std.specs.Prelude.{◌≡◌, ◌||◌, ◌*◌, eqb, ltb};
ghost use Rattle.strip.specs.Requests.{odd_cylinder};

use crate::kinds::Kind;
use crate::strip::Strip;

// 15. A side is 0, or sides multiply above 1,024; the product itself may not fit a word.
pub fn bad_sides(w: usize, l: usize) -> bool
    ensures { result ≡ (eqb w 0 || eqb l 0 || ltb 1024 (w * l)) }
{
    if w == 0 {
        return true;
    }
    if l == 0 {
        return true;
    }
    1024 / w < l
}

// 16. A honeycomb cylinder has odd width: its brick wall does not close.
pub fn odd_cylinder(s: Strip) -> bool
    ensures { result ≡ odd_cylinder s }
{
    (s.kind == Kind::Honey) & s.periodic & (s.w % 2 == 1)
}
