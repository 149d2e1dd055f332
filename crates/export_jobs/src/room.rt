// The work memory that a caller is to lend, through a reference.
ghost use Rattle.std.specs.Prelude.{◌≡◌, length};
ghost use Rattle.transfer_matrix.specs.Room.{room as room_of};
ghost use Rattle.refusals.specs.Edges.{kept, window_from};
ghost use Rattle.refusals.specs.Request.{room_request};
ghost use Rattle.refusals.specs.Refusal.{refusal, of_room};
ghost use Rattle.refusals.specs.Answers.{left};
ghost use Rattle.plan_layout.specs.Arrangements.{arrangement_of};
ghost use Rattle.c_values.specs.Options.{arrangement_in};

use c_answers::tell_number;
use c_values::arrangement_in;

// As `job_checks::room`, the number of doubles in `room`; of the options it reads the arrangement alone; where the call is refused, that keeps what it held.
#[unsafe(no_mangle)]
pub extern "C" fn copperhook_room(
    n: usize,
    floor: usize,
    a: &[usize],
    b: &[usize],
    m: &[f64],
    us: &[usize],
    vs: &[usize],
    options: usize,
    room: &mut usize,
) -> usize
    ensures value { result ≡ refusal of_room (room_request n floor a.now b.now m.now us.now vs.now) }
    ensures room_after { room.new ≡ left result
        (room_of (arrangement_of (arrangement_in options)) n (window_from floor a.now b.now m.now)
        (length (kept a.now b.now m.now)) us.now vs.now)
        room.old }
{
    let answer = job_checks::room(n, floor, a, b, m, us, vs, arrangement_in(options));
    tell_number(answer, room)
}
