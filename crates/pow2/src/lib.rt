// Powers of two, read off a table.
#![tactic(auto)]

ghost use Rattle.std.specs.Prelude.{◌<◌};
ghost use Rattle.pow2.specs.Powers.{TwoPower, TwoPowers};

mod table;

use table::TWO_POWERS;

// the table whole
#[tactic(auto, using(crate::proofs::Exact::table))]
pub fn two_powers() -> [f32; 253]
    ensures { TwoPowers result }
{
    TWO_POWERS
}

// 2^(i - 126): one load, since a static is not copied where it is indexed
#[tactic(auto, using(crate::proofs::Exact::table))]
pub fn at(i: u8) -> f32
    requires { i < 253 }
    ensures { TwoPower result i }
{
    TWO_POWERS[i as usize]
}
