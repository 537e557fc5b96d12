// 2 to the power x, and e to it: whole numbers inside, one pattern put together at the end.

#![tactic(auto)]

pub mod bases;
pub mod fixed_point;
pub mod natural;

ghost use Rattle.std.specs.Prelude.{◌≡◌, ◌+◌, ◌*◌, ◌/◌, ◌%◌, ◌^◌, ◌<◌, ◌≤◌, to_bits, MatchResult};
ghost use Rattle.std.specs.Float.{binary32};
ghost use Rattle.powers.specs.Raised.{raised};
ghost use Rattle.units.specs.declared.refusal.Refusal.TheVariants.{OutOfRange};
ghost use Rattle.units.specs.Answers.{float_bits};
ghost use Rattle.units.specs.Refusals.{Gives};
ghost use Rattle.units.specs.Units.{mag};
ghost use Rattle.powers.specs.Value.{cut_of, rounded_digits, is_left_open};
ghost use Rattle.powers.specs.Value.{fraction_of, fine_digits, exp2_bits};
ghost use Rattle.powers.specs.Exp2.{Accepts, Exp2};

use bases::{Base, Two, in_range};
use units::Refusal;

// One step of Horner's rule, the product of two 32-bit numbers cut off to its upper half.
fn step(c: u32, p: u32, f: u32) -> u32
    requires { c + p < 2 ^ 32 }
    ensures { (result ≡ c + p * f / 4294967296) × (result ≤ c + p) }
{
    c + fixed::upper_product(p, f)
}

// 2 to the power f / 2^32 in units of 2^-32, without the 1 before the point: the odd and the even terms by two chains
// in the square, which need not wait for each other, and one floor of both together.
fn raise(f: u32) -> u32
    ensures { result + 2 ^ 32 ≡ raised f }
{
    let z = fixed::upper_product(f, f);
    let o5 = step(0x0057_f139, 0x0001_6783, z);
    let e4 = step(0x0276_1501, 0x0009_6c36, z);
    let o3 = step(0x0e35_93ba, o5, z);
    let e2 = step(0x3d7f_7a4b, e4, z);
    let o1 = step(0xb172_1808, o3, z);
    ((u64::from(f) * u64::from(o1) + u64::from(z) * u64::from(e2)) / 4294967296) as u32
}

// x + 126 as a whole number of 2^-32, of an x whose digits all stay, by one product of 32-bit words: of a negative x
// with 2^32 less the power of two, and the digits taken from the whole part. What runs over 64 bits is 2^64. Here and
// in three functions below a clause says that x is accepted, and no type: each would take x out of its struct again.
fn whole_cut(x: f32) -> u64
    requires { Accepts x × (118 * 8388608 ≤ to_bits binary32 x % 2147483648) }
    ensures { result ≡ cut_of x }
{
    let b = x.to_bits();
    let m = b % 8388608 + 8388608;
    let u: u32 = 1 << (b % 2147483648 / 8388608 - 118);
    let (part, unit) = if b < 2147483648 {
        (126, u)
    } else {
        (126u32.wrapping_sub(m), u.wrapping_neg())
    };
    (u64::from(part) * 4294967296).wrapping_add(u64::from(m) * u64::from(unit))
}

// A power of two: the digits q behind the first, in units of 2^-32, and the whole part e.
#[derive(Clone, Copy, Debug, PartialEq, Eq)]
struct Power {
    q: u32,
    e: u32,
}

impl Power {
    // The power of what was cut off.
    fn of(c: u64) -> Power
        ensures { (result.q + 2 ^ 32 ≡ raised (c % 2 ^ 32)) × (result.e ≡ c / 2 ^ 32) }
    {
        Power {
            q: fixed_point::digits(c),
            e: fixed_point::exponent(c),
        }
    }

    // Its pattern: the digits rounded, and put together with the whole part. A carry of them into the exponent is the
    // addition.
    fn bits(self) -> u32
        requires { self.e ≤ 253 }
        ensures { result ≡ self.e * 8388608 + rounded_digits (self.q + 2 ^ 32) }
    {
        (self.e + 1) * 8388608 + (self.q / 256 + 1) / 2
    }

    // Whether the digits do not tell the nearest float: the middle of two floats is 8 units above them at most, or 2
    // below.
    fn is_open(self) -> bool
        ensures { result ≡ is_left_open (self.q + 2 ^ 32) }
    {
        (self.q % 512 + 264) % 512 <= 10
    }
}

// The fraction of x as a whole number of 2^-64. Digits before the point run over 64 bits; of a negative x it is what is
// missing to a whole number.
fn fraction(x: f32) -> u64
    requires { Accepts x × (2 ^ 124 ≤ mag x) }
    ensures { result ≡ fraction_of x }
{
    let b = x.to_bits();
    let s = u64::from(b % 8388608 + 8388608) << (b % 2147483648 / 8388608 - 86);
    if b < 2147483648 { s } else { s.wrapping_neg() }
}

// The pattern by the digits of the second evaluation: in 2 of 100 calls.
fn settled(x: f32, e: u32) -> u32
    requires { Accepts x × (2 ^ 124 ≤ mag x) × (e ≤ 253) }
    ensures { result ≡ e * 8388608 + fine_digits (fraction_of x) }
{
    let power = Power {
        q: (fine::fine(fraction(x)) / 4294967296) as u32,
        e,
    };
    power.bits()
}

// The nearest float's pattern, where c is what x was cut to: the digits rounded, unless they are open.
fn nearest(x: f32, c: u64) -> u32
    requires { Accepts x × (c ≡ cut_of x) }
    ensures { result ≡ exp2_bits x }
{
    let power = Power::of(c);
    if power.is_open() {
        return settled(x, power.e);
    }
    power.bits()
}

// What an accepted x is cut to. From 2^-9 to 124 in size, where nearly all arguments are, one test of the pattern says
// that x is accepted and that no digit of it is cut off.
fn cut(x: f32) -> Result<u64, Refusal>
    ensures { MatchResult result (λ c. Accepts x × (c ≡ cut_of x)) (λ e. ¬ Accepts x × (e ≡ OutOfRange)) }
{
    if !x.is_nan() && (x.to_bits() % 2147483648).wrapping_sub(0x3b00_0000) <= 0x07f8_0000 {
        return Ok(whole_cut(x));
    }
    if in_range::<Two>(x) {
        return Ok(Two::argument(x));
    }
    Err(Refusal::OutOfRange)
}

// 2 to the power x; refused where x is a NaN, below -126 or above 127.
pub fn exp2(x: f32) -> Result<u32, Refusal>
    ensures { Gives float_bits (Exp2 x) result }
{
    let c = cut(x)?;
    Ok(nearest(x, c))
}
