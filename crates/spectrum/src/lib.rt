// The transform of 128 floats: whole numbers inside, one rounding for each output.

#![tactic(auto)]

pub mod floats;
mod turns;
pub mod words;

ghost use Rattle.std.specs.Prelude.{◌≡◌, length};
ghost use Rattle.units.specs.Answers.{Ends};
ghost use Rattle.units.specs.Refusals.{code_in};
ghost use Rattle.spectrum.specs.Transform.{Transform, both_bits};

use floats::Scaling;
use units::Refusal;

// The real and imaginary parts 0 to 64; where a length or an element is refused nothing is written.
pub fn transform(x: &[f32], re: &mut [u32], im: &mut [u32]) -> Result<(), Refusal>
    ensures { Ends both_bits (Transform x.now (length re.old) (length im.old)) (code_in result)
        (re.old, im.old) (re.new, im.new) }
{
    // No arrays are taken of the slices: compiled for 32 bits from the module of a 64-bit build, `as_array` gives none.
    if x.len() != 128 || re.len() != 65 || im.len() != 65 {
        return Err(Refusal::BadLength);
    }
    let m = floats::largest(x);
    if 0x7b80_0000 <= m {
        return Err(Refusal::OutOfRange);
    }
    let scaling = Scaling::of_largest(m);
    // Two lists of words, written before they are read. They are filled with a number that is known at run time, since
    // zeros would be a call of memset, which is not in the archive.
    let any = u64::from(m);
    let mut y = [any; 128];
    scaling.load_all(x, &mut y);
    let mut r = [any; 128];
    words::transform(&y, &mut r);
    scaling.store_real(&r, re);
    scaling.store_imaginary(&r, im);
    Ok(())
}
