// Reading a float's bits, taking it apart into whole numbers, and putting one together.

#![tactic(auto)]

pub mod division;

ghost use Rattle.std.specs.Prelude.{◌≡◌, ◌*◌, ◌/◌, ◌^◌, ◌≤◌, ◌<◌};
ghost use Rattle.std.specs.Int.Count.{count_leading_zeros};
ghost use Rattle.std.specs.Float.{binary32};
ghost use Rattle.std.specs.Float.Ieee.{to_bits};
ghost use Rattle.units.specs.Units.{Positive};
ghost use Rattle.fixed.specs.Parts.{Apart};
ghost use Rattle.fixed.specs.Rounded.{Normal, nearest_bits, even_bits};

// The bit pattern of every float, 0x7fc00000 of a NaN. `is_nan` compares x with itself. That one comparison is all that
// is asked of the float unit, and none of its modes disturbs it: rounding, subnormals that are read as zero.
pub fn bits_of(x: f32) -> u32
    ensures { result ≡ to_bits binary32 x }
{
    if x.is_nan() {
        return 0x7fc0_0000;
    }
    x.to_bits()
}

// The upper word of a product of two words: one instruction on a chip of 32 bits.
pub fn upper_product(a: u32, b: u32) -> u32
    ensures value { result ≡ a * b / 4294967296 }
    ensures below { result ≤ a }
{
    (u64::from(a) * u64::from(b) / 4294967296) as u32
}

// The upper word of n shifted up by s places, out of its two words.
pub fn upper_word(n: u64, s: u32) -> u32
    requires { (n * 2 ^ s < 2 ^ 64) × (s < 32) }
    ensures { result ≡ n * 2 ^ s / 4294967296 }
{
    let high = (n / 4294967296) as u32;
    let low = (n % 4294967296) as u32;
    (high << s) + (low / 2 >> (31 - s))
}

#[derive(Clone, Copy, Debug, PartialEq, Eq)]
pub struct Parts {
    pub m: u32,
    pub e: u32,
}

// The significand and the exponent of a finite float above zero; a subnormal one is brought to 24 digits.
pub fn apart(x: f32) -> Parts
    requires { Positive x }
    ensures { Apart x result.m result.e }
{
    let b = x.to_bits();
    if b < 8388608 {
        let s = b.leading_zeros() - 8;
        Parts {
            m: b << s,
            e: 24 - s,
        }
    } else {
        Parts {
            m: b % 8388608 + 8388608,
            e: b / 8388608 + 23,
        }
    }
}

// The first 32 digits m of a number above zero, and how many zeros e of 64 stand before them. The digits are those of
// one word, the upper one where it is not zero: a chip of 32 bits has no shift of 64.
pub fn first_word(n: u64) -> Parts
    requires { 0 < n }
    ensures { (result.m ≡ n * 2 ^ count_leading_zeros 64 n / 4294967296) × (result.e ≡ count_leading_zeros 64 n) }
{
    let h = (n / 4294967296) as u32;
    if 0 < h {
        let z = h.leading_zeros();
        return Parts {
            m: upper_word(n, z),
            e: z,
        };
    }
    let l = (n % 4294967296) as u32;
    let z = l.leading_zeros();
    Parts {
        m: l << z,
        e: 32 + z,
    }
}

// The bit pattern of the float nearest to n * 2 ^ (e - 40) units: the first 25 digits of n, and one of them rounded
// off. A carry runs into the exponent. It has `first_word`'s branches of its own: over an Option of the first digits
// sin x took 3 instructions more on the chip, and sin(pi x) 4.
pub fn nearest_bits(n: u64, e: u32) -> u32
    requires { Normal n e }
    ensures { result ≡ nearest_bits n e }
{
    let h = (n / 4294967296) as u32;
    if 0 < h {
        let z = h.leading_zeros();
        return (e - z) * 8388608 + (upper_word(n, z) / 128 + 1) / 2;
    }
    let l = (n % 4294967296) as u32;
    if l == 0 {
        return 0;
    }
    let z = l.leading_zeros();
    (e - 32 - z) * 8388608 + ((l << z) / 128 + 1) / 2
}

// The same with ties to even, for n of at most 63 digits: half a digit less one is added, and one more where the digits
// are odd.
pub fn even_bits(n: u64, e: u32) -> u32
    requires { Normal n e × (n < 2 ^ 63) }
    ensures { result ≡ even_bits n e }
{
    if n == 0 {
        return 0;
    }
    let z = n.leading_zeros();
    let m = n << (z - 1);
    (e - z) * 8388608 + ((m + 274877906943 + m / 549755813888 % 2) / 549755813888) as u32
}
