// A run of one number.
ghost use Rattle.std.specs.Prelude.{◌≡◌, ◌+◌, ◌≤◌, length};
ghost use Rattle.list_laws.specs.Tabulate.{tabulate};
ghost use Rattle.list_laws.specs.Part.{put};

// n numbers x from `at` on.
pub fn fill(room: &mut [f64], at: usize, n: usize, x: f64)
    requires { at + n ≤ length room.old }
    ensures { room.new ≡ put room.old at (tabulate (λ _. x) n) }
{
    for i in 0..n {
        room[at + i] = x;
    }
}
