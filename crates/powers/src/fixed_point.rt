// Powers of either base in fixed point, before any rounding to a float: an argument, of whose fraction are the digits,
// and whose whole part is the exponent.

ghost use Rattle.std.specs.Prelude.{◌≡◌, ◌+◌, ◌/◌, ◌%◌, ◌^◌};
ghost use Rattle.powers.specs.Raised.{raised};
ghost use Rattle.powers.specs.Exp.{Accepts};
ghost use Rattle.powers.specs.Fixed.{argument_of};

use super::bases::Base;

// x + 126, or x log2 e + 126 where the base is e, as a whole number of 2^-32; x from -87 to 88. A number and no struct
// of digits and exponent, which cost 24 instructions with two bases (docs/DECISIONS.md, "One softmax for two bases").
pub fn argument<B: Base>(x: f32) -> u64
    requires { Accepts x }
    ensures { result ≡ argument_of B.base x }
{
    B::argument(x)
}

// The 32 digits q behind the first of the power (2^32 + q) * 2^(e - 158).
pub fn digits(c: u64) -> u32
    ensures { result + 2 ^ 32 ≡ raised (c % 2 ^ 32) }
{
    super::raise((c % 4294967296) as u32)
}

// And its exponent e.
pub fn exponent(c: u64) -> u32
    ensures { result ≡ c / 2 ^ 32 }
{
    (c / 4294967296) as u32
}
