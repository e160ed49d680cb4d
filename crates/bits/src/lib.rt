// A number as the bits of an f64 and as an f64, a NaN included. Every NaN is written 7ff8000000000000.
#![tactic(auto)]

ghost use Rattle.std.specs.Prelude.{◌≡◌};
ghost use Rattle.std.specs.Float.{binary64};
ghost use Rattle.std.specs.Float.Ieee.{of_bits, to_bits};

use std::num;

// The f64 with the bits b.
pub fn from_bits(b: u64) -> f64
    ensures { result ≡ of_bits binary64 b }
{
    num::f64_from_bits_with_nan(b)
}

// The bits of x.
pub fn to_bits(x: f64) -> u64
    ensures { result ≡ to_bits binary64 x }
{
    num::f64_to_bits_with_nan(x)
}
