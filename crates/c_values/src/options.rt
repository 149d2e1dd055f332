// The options of a call, which over C are one number: a sum of bits.
ghost use Rattle.std.specs.Prelude.{◌≡◌};
ghost use Rattle.c_values.specs.Options.{manner_in, arrangement_in, caller_in, options_numbered};

use entry_correlations::Manner;
use limits::Caller;
use plan_layout::Arrangement;

// How often a sweep is rescaled, how the call is arranged, and who calls.
#[derive(Drop)]
pub struct Options {
    pub manner: Manner,
    pub arrangement: Arrangement,
    pub caller: Caller,
}

fn manner_in(number: usize) -> Manner
    ensures { result ≡ manner_in number }
{
    if number % 2 == 1 {
        return Manner::Block;
    }
    Manner::PerElement
}

// `copperhook_room` reads this alone.
pub fn arrangement_in(number: usize) -> Arrangement
    ensures { result ≡ arrangement_in number }
{
    if number / 2 % 2 == 1 {
        return Arrangement::LessRoom;
    }
    Arrangement::KeepAll
}

fn caller_in(number: usize) -> Caller
    ensures { result ≡ caller_in number }
{
    if number / 4 % 2 == 1 {
        return Caller::Tester;
    }
    Caller::Desk
}

// 1 is block, 2 less room and 4 the tester; other bits are not read, so that no number is a bad one.
pub fn options_numbered(number: usize) -> Options
    ensures { result ≡ options_numbered number }
{
    Options {
        manner: manner_in(number),
        arrangement: arrangement_in(number),
        caller: caller_in(number),
    }
}
