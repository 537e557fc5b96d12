// e to the power x is 2 to the power x log2 e: the product is taken of whole numbers, and then 2 is raised as ever.

ghost use Rattle.units.specs.Answers.{float_bits};
ghost use Rattle.units.specs.Refusals.{Gives};
ghost use Rattle.powers.specs.Exp.{Exp};

use super::Power;
use super::bases::{Base, Natural};
use units::Refusal;

// e to the power x; refused where x is a NaN, below -87 or above 88.
pub fn exp(x: f32) -> Result<u32, Refusal>
    ensures { Gives float_bits (Exp x) result }
{
    if !super::bases::in_range::<Natural>(x) {
        return Err(Refusal::OutOfRange);
    }
    Ok(Power::of(Natural::argument(x)).bits())
}
