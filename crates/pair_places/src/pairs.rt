// A pair of vertices, its ends in either order.
ghost use Rattle.std.specs.Prelude.{◌≡◌, min, max};
ghost use Rattle.pair_places.specs.Places.{propagated_pair, waiting_pair};

pub fn earlier(u: usize, v: usize) -> usize
    ensures { result ≡ min u v }
{
    u.min(v)
}

pub fn later(u: usize, v: usize) -> usize
    ensures { result ≡ max u v }
{
    u.max(v)
}

// A pair nearer than the window is direct; at the window or farther it is propagated.
pub fn is_propagated(w: usize, u: usize, v: usize) -> bool
    ensures { result ≡ propagated_pair w u v }
{
    if later(u, v) - earlier(u, v) < w {
        return false;
    }
    true
}

// Whether a pair waits for both sweeps: every pair, or propagated ones alone where less room is taken.
pub fn waits(less: bool, w: usize, u: usize, v: usize) -> bool
    ensures { result ≡ waiting_pair less w u v }
{
    if less {
        return is_propagated(w, u, v);
    }
    true
}
