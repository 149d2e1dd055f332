// What a kept edge has in an enumeration: a bit of the configuration's number, or none where it is a tree edge.
#![tactic(auto)]

ghost use Rattle.std.specs.Prelude.{◌≡◌};
ghost use Rattle.edge_bits.specs.Having.{has_bit};

// In the place of a bit: a tree edge, which has none.
pub const TREE: usize = 18446744073709551615;

// Returns whether an edge has a bit.
pub fn has_bit(bit: usize) -> bool
    ensures { result ≡ has_bit bit }
{
    bit != TREE
}
