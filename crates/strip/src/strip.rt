// A strip: w vertices across and l along, free or periodic across. Vertex (x, y) has index x * w + y.
ghost use Rattle.std.specs.Prelude.{◌≡◌, ◌+◌, ◌*◌, ◌≤◌, length};
ghost use Rattle.strip.specs.Names.{boundary_of, padded};
ghost use Rattle.strip.specs.Vertices.{vertex};

use crate::kinds::{Kind, Word, six};

#[derive(Clone, Copy)]
pub struct Strip {
    pub kind: Kind,
    pub w: usize,
    pub l: usize,
    pub periodic: bool,
}

impl Strip {
    // The boundary across: a cylinder or free.
    pub fn bc(self) -> Word
        ensures { (result.bytes ≡ padded (boundary_of self.periodic)) × (result.len ≡ length (boundary_of self.periodic)) }
    {
        if self.periodic {
            return six(*b"cyl\0\0\0", 3);
        }
        six(*b"free\0\0", 4)
    }
}

pub fn vertex_at(w: usize, x: usize, y: usize) -> usize
    requires { x * w + y ≤ 4096 }
    ensures { result ≡ vertex w x y }
{
    x * w + y
}

// The number of vertices.
pub fn vertex_count(w: usize, l: usize) -> usize
    requires { w * l ≤ 1024 }
    ensures { result ≡ w * l }
{
    w * l
}
