// Why a call is refused.

ghost use Rattle.std.specs.Prelude.{◌≡◌, Some};
ghost use Rattle.units.specs.Refusals.{code_of, refusal_name};

use std::error::Error;
use std::fmt;

// The refusals of all functions. C has them by their codes, and the command line by their names. The codes stand in the
// conversion alone and in no discriminants, so that only the C interface asks for a number.
#[derive(Clone, Copy, Debug, PartialEq, Eq, Hash)]
pub enum Refusal {
    // an argument that the function does not accept
    OutOfRange,
    // lists of different or forbidden length
    BadLength,
    // an intermediate result of a sum is not finite
    Overflow,
    // a channel whose levels are out of order
    BadChannel,
}

impl From<Refusal> for u32 {
    ghost from_gives = { λ refusal code. code ≡ code_of refusal };

    fn from(refusal: Refusal) -> u32 {
        match refusal {
            Refusal::OutOfRange => 1,
            Refusal::BadLength => 2,
            Refusal::Overflow => 3,
            Refusal::BadChannel => 4,
        }
    }
}

impl fmt::Display for Refusal {
    ghost output = { λ refusal. Some (refusal_name refusal) };

    fn fmt<W: fmt::Write>(&self, f: &mut fmt::Formatter<W>) -> fmt::Result {
        f.write_str(match self {
            Refusal::OutOfRange => "OUT_OF_RANGE",
            Refusal::BadLength => "BAD_LENGTH",
            Refusal::Overflow => "OVERFLOW",
            Refusal::BadChannel => "BAD_CHANNEL",
        })
    }
}

impl Error for Refusal {}
