// The halves of the windows 1 and 2.
ghost use Rattle.std.specs.Prelude.{◌≡◌, ◌+◌, ◌≤◌, length};
ghost use Rattle.list_laws.specs.Tabulate.{tabulate};
ghost use Rattle.list_laws.specs.Part.{put};
ghost use Rattle.step_tables.specs.Rule.{entries, alternating};
ghost use Rattle.largest_entry.specs.Top.{top};

use largest_entry::larger_of;

// The one entry of a half, or its two. Returns the larger.
pub fn store_few(v: &mut [f64], dst: usize, half: usize, a: f64, b: f64) -> f64
    requires { (1 ≤ half) × (half ≤ 2) × (dst + half ≤ length v.old) }
    ensures v_after { v.new ≡ put v.old dst (tabulate (alternating a b) half) }
    ensures value { result ≡ top (entries v.new dst) half }
{
    v[dst] = a;
    let most = larger_of(0.0, a);
    if half == 2 {
        v[dst + 1] = b;
        return larger_of(most, b);
    }
    most
}
