// What dropping an edge would do, through references.
ghost use Rattle.plan_layout.specs.Arrangements.{arrangement_of};
ghost use Rattle.preview.specs.Previewed.{Cost, Costs, preview_of};
ghost use Rattle.c_values.specs.Options.{arrangement_in};
ghost use Rattle.export_jobs.specs.Previews.{Tells};

use c_values::arrangement_in;
use preview::Figures;
use refusals::Refusal;

// Where the call is refused, `window`, `free` and `room` keep what they held.
fn tell_preview(
    answer: Result<Figures, Refusal>,
    window: &mut usize,
    free: &mut usize,
    room: &mut usize,
) -> usize
    ensures { (c : Cost) → Costs c answer → Tells c result window.old window.new free.old free.new room.old room.new }
{
    match answer {
        Ok(figures) => {
            *window = figures.window;
            *free = figures.free;
            *room = figures.room;
            0
        }
        Err(refusal) => refusal.number(),
    }
}

// As `preview::preview`; of the options it reads the arrangement alone.
#[unsafe(no_mangle)]
pub extern "C" fn copperhook_preview(
    n: usize,
    floor: usize,
    a: &[usize],
    b: &[usize],
    m: &[f64],
    us: &[usize],
    vs: &[usize],
    betas: &[f64],
    place: usize,
    options: usize,
    window: &mut usize,
    free: &mut usize,
    room: &mut usize,
) -> usize
    ensures { Tells (preview_of place (arrangement_of (arrangement_in options)) n floor a.now b.now m.now
        us.now vs.now betas.now)
        result window.old window.new free.old free.new room.old room.new }
{
    let answer = preview::preview(
        n,
        floor,
        a,
        b,
        m,
        us,
        vs,
        betas,
        place,
        arrangement_in(options),
    );
    tell_preview(answer, window, free, room)
}
