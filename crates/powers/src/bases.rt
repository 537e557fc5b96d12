// The two bases, 2 and e: which arguments each accepts, and how one is taken times its logarithm.

ghost use Rattle.std.specs.Prelude.{◌≡◌, ℕ, ◌*◌, ◌<◌, refl};
ghost use Rattle.units.specs.Tests.{Tells};
ghost use Rattle.powers.specs.Base.{Base, two, natural};
ghost use Rattle.powers.specs.Fixed.{argument_of};
ghost use Rattle.powers.specs.Bases.{Accepted, steps_in, least_of, most_of};

// A base of powers.
pub trait Base {
    // which of the two it is
    ghost base: { Base };

    // x log2 base + 126 as a whole number of 2^-32, cut off.
    fn argument(x: f32) -> u64
        requires { Accepted base x }
        ensures { result ≡ argument_of base x };
}

// The base 2.
#[derive(Clone, Copy, Debug, PartialEq, Eq)]
pub struct Two;

// The base e.
#[derive(Clone, Copy, Debug, PartialEq, Eq)]
pub struct Natural;

// What arguments of both bases share: the patterns at the ends of the range, and sizes that are taken times the
// logarithm. A trait of its own, since `argument` of each base calls what is generic over this one.
trait Scale {
    // which of the two bases it is
    ghost base: { Base };

    ghost LEAST: { ℕ };

    ghost MOST: { ℕ };

    // The pattern of the largest size that is accepted of either sign.
    const LEAST: u32;

    // The pattern of the largest float that is accepted.
    const MOST: u32;

    // The size with the pattern a times log2 base, as a whole number of 2^-32, cut off.
    fn steps(a: u32) -> u64
        requires { a < 134 * 8388608 }
        ensures { result ≡ steps_in base a };

    ghost ends: { (LEAST ≡ least_of base) × (MOST ≡ most_of base) };
}

impl Scale for Two {
    ghost base = { two };

    ghost LEAST = { 0x42fc0000 };

    ghost MOST = { 0x42fe0000 };

    const LEAST: u32 = 0x42fc_0000;

    const MOST: u32 = 0x42fe_0000;

    // From 2^-9 on that is exact; below it the digits are shifted to their place and cut off. Below 2^-33 nothing is
    // left of them, nor of a subnormal.
    fn steps(a: u32) -> u64 {
        let m = a % 8388608 + 8388608;
        let e = a / 8388608;
        if 118 <= e {
            let unit: u32 = 1 << (e - 118);
            return u64::from(m) * u64::from(unit);
        }
        u64::from(m.unbounded_shr(118 - e))
    }

    ghost ends = { (refl, refl) };
}

impl Scale for Natural {
    ghost base = { natural };

    ghost LEAST = { 0x42ae0000 };

    ghost MOST = { 0x42b00000 };

    const LEAST: u32 = 0x42ae_0000;

    const MOST: u32 = 0x42b0_0000;

    // 24 digits times the 40 of log2 e. Below 2^-33 nothing is left of them.
    fn steps(a: u32) -> u64 {
        let e = a / 8388608;
        // A test, and no `unbounded_shr`: of a word of 64 digits that takes the chip 2 instructions more.
        if e < 94 {
            return 0;
        }
        (u64::from(a % 8388608 + 8388608) * 0xb8_aa3b_295c) >> (157 - e)
    }

    ghost ends = { (refl, refl) };
}

// x log2 base + 126 as a whole number of 2^-32: of either sign the size is cut off, so that whole numbers stay exact
// and no order is lost.
fn cut_off<S: Scale>(x: f32) -> u64
    requires { Accepted S.base x }
    ensures { result ≡ argument_of S.base x }
{
    let b = x.to_bits();
    let k = S::steps(b % 2147483648);
    if b < 2147483648 {
        541165879296 + k
    } else {
        541165879296 - k
    }
}

// Whether x is accepted: of sizes up to the least one's, where nearly all arguments are, one test of the pattern says
// so; else of patterns up to the largest one's.
pub(crate) fn in_range<S: Scale>(x: f32) -> bool
    ensures { Tells (Accepted S.base x) result }
{
    if x.is_nan() {
        return false;
    }
    let b = x.to_bits();
    if b % 2147483648 <= S::LEAST {
        return true;
    }
    b <= S::MOST
}

impl Base for Two {
    ghost base = { two };

    // From 2^-9 on all digits stay.
    fn argument(x: f32) -> u64 {
        if 0x3b00_0000 <= x.to_bits() % 2147483648 {
            return super::whole_cut(x);
        }
        cut_off::<Two>(x)
    }
}

impl Base for Natural {
    ghost base = { natural };

    fn argument(x: f32) -> u64 {
        cut_off::<Natural>(x)
    }
}
