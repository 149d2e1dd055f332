// A half with its odd entries negated.
ghost use Rattle.std.specs.Prelude.{◌≡◌, ◌*◌, ◌-◌, ◌%◌, ◌^◌, length};
ghost use Rattle.list_laws.specs.Tabulate.{tabulate};
ghost use Rattle.list_laws.specs.Part.{Apart, put};
ghost use Rattle.step_tables.specs.Rule.{entries};
ghost use Rattle.step_tables.specs.Place.{Places};
ghost use Rattle.half_vectors.specs.Antisymmetric.{alternate_half};

use step_tables::pow2;

// n entries from s to o, two an iteration.
fn alternate_run(v: &mut [f64], s: usize, o: usize, n: usize)
    requires { (n % 2 ≡ 0) × Apart (length v.old) s n o n }
    ensures { v.new ≡ put v.old o (tabulate (alternate_half (entries v.old s)) n) }
{
    for j in (0..n).step_by(2) {
        let a = v[s + j];
        let b = v[s + (j + 1)];
        v[o + j] = a;
        v[o + (j + 1)] = -b;
    }
}

// The half at place src with its odd entries negated, to place dst.
pub fn half_alternate(room: &mut [f64], src: usize, dst: usize, w: usize)
    requires { Places (length room.old) w src dst }
    ensures { room.new ≡ put room.old (dst * 2 ^ w)
        (tabulate (alternate_half (entries room.old (src * 2 ^ w))) (2 ^ (w - 1))) }
{
    let size = pow2(w);
    let s = src * size;
    let o = dst * size;
    if w > 1 {
        alternate_run(room, s, o, pow2(w - 1));
        return;
    }
    room[o] = room[s];
}
