// The names of kinds and boundaries. Over C a kind is a number.
ghost use Rattle.std.specs.Prelude.{◌≡◌, length};
ghost use Rattle.strip.specs.Names.{parsed, name_of, boundary_of, padded};
ghost use Rattle.c_values.specs.Kinds.{kind_numbered};
ghost use Rattle.export_strips.specs.Kinds.{is_known, kind_of};

use c_values::{kind_numbered, number_of, strip_numbered};
use strip::Kind;

// As `Kind::parse`: whether the name means a kind. Its number is then in `kind`, which keeps what it held where there is none.
#[unsafe(no_mangle)]
pub extern "C" fn copperhook_kind_parse(name: &[u8], kind: &mut usize) -> bool
    ensures { (result ≡ is_known (parsed name.now)) × (kind.new ≡ kind_of (parsed name.now) kind.old) }
{
    let answer = Kind::parse(name);
    match answer {
        Some(known) => {
            *kind = number_of(known);
            true
        }
        None => false,
    }
}

// As `Kind::name`: how many bytes the name has, which are the first of `name`; the others are 0.
#[unsafe(no_mangle)]
pub extern "C" fn copperhook_kind_name(kind: usize, name: &mut [u8; 6]) -> usize
    ensures { (result ≡ length (name_of (kind_numbered kind))) × (name.new ≡ padded (name_of (kind_numbered kind))) }
{
    let known = kind_numbered(kind);
    let word = known.name();
    let bytes = word.bytes;
    *name = bytes;
    word.len
}

// As `Strip::bc`, of a strip that is periodic across or not.
#[unsafe(no_mangle)]
pub extern "C" fn copperhook_boundary_name(periodic: bool, name: &mut [u8; 6]) -> usize
    ensures { (result ≡ length (boundary_of periodic)) × (name.new ≡ padded (boundary_of periodic)) }
{
    let s = strip_numbered(0, 1, 1, periodic);
    let word = s.bc();
    let bytes = word.bytes;
    *name = bytes;
    word.len
}
