// A strip by four numbers: its vertices and its window.
ghost use Rattle.std.specs.Prelude.{◌≡◌, false, ◌*◌, is_some, unwrap_or};
ghost use Rattle.refusals.specs.Answers.{left};
ghost use Rattle.refusals.specs.StripRequest.{strip_refusal, of_sides, of_strip};
ghost use Rattle.strip_window.specs.Window.{window_of};
ghost use Rattle.strip.specs.Requests.{strip_request};
ghost use Rattle.strip.specs.Vertices.{sited};
ghost use Rattle.c_values.specs.Kinds.{strip_numbered};

use c_answers::{tell_found, tell_number};
use c_values::strip_numbered;

// As `Strip::n`, the number of vertices in `n`; where the call is refused, that keeps what it held.
#[unsafe(no_mangle)]
pub extern "C" fn copperhook_strip_n(
    kind: usize,
    w: usize,
    l: usize,
    periodic: bool,
    n: &mut usize,
) -> usize
    ensures value { result ≡ strip_refusal of_sides (strip_request (strip_numbered kind w l periodic) false) }
    ensures n_after { n.new ≡ left result (w * l) n.old }
{
    let s = strip_numbered(kind, w, l, periodic);
    let answer = s.n();
    tell_number(answer, n)
}

// As `Strip::vid`: `inside` tells whether the strip has the site, and `vertex` which it is. Where the call is refused both keep what they
// held, and for a site outside `vertex` does.
#[unsafe(no_mangle)]
pub extern "C" fn copperhook_strip_vid(
    kind: usize,
    w: usize,
    l: usize,
    periodic: bool,
    x: usize,
    y: usize,
    inside: &mut bool,
    vertex: &mut usize,
) -> usize
    ensures value { result ≡ strip_refusal of_sides (strip_request (strip_numbered kind w l periodic) false) }
    ensures inside_after { inside.new ≡ left result (is_some (sited (strip_numbered kind w l periodic) x y)) inside.old }
    ensures vertex_after { vertex.new ≡ left result (unwrap_or (sited (strip_numbered kind w l periodic) x y) vertex.old) vertex.old }
{
    let s = strip_numbered(kind, w, l, periodic);
    let answer = s.vid(x, y);
    tell_found(answer, inside, vertex)
}

// As `strip_window::window`, in `window`; where the call is refused, that keeps what it held.
#[unsafe(no_mangle)]
pub extern "C" fn copperhook_strip_window(
    kind: usize,
    w: usize,
    l: usize,
    periodic: bool,
    window: &mut usize,
) -> usize
    ensures value { result ≡ strip_refusal of_strip (strip_request (strip_numbered kind w l periodic) false) }
    ensures window_after { window.new ≡ left result (window_of (strip_numbered kind w l periodic)) window.old }
{
    let answer = strip_window::window(strip_numbered(kind, w, l, periodic));
    tell_number(answer, window)
}
