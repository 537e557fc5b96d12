// A frame of samples under a window, and their products as words: a value v, in units of 2^-53, is the word v + 2^61.

ghost use Rattle.std.specs.Prelude.{◌≡◌, ℕ, ◌+◌, ◌*◌, ◌/◌, ◌%◌, ◌^◌, ◌≤◌, ◌<◌, length};
ghost use Rattle.units.specs.Tests.{Tells};
ghost use Rattle.spectrum.specs.Transform.{at};
ghost use Rattle.spectrum.specs.Floats.{digits_in, place_in};
ghost use Rattle.path.specs.Steps.{product_word, Products};
ghost use Rattle.path.specs.Ready.{Small, AllSmall};

use crate::bands::ONE;
use spectrum::floats;
use spectrum::words::UNIT;

// The sign of a pattern, and the first digit of a normal number.
const SIGN: u32 = 0x8000_0000;

const FIRST: u32 = 0x0080_0000;

// The digits of a factor by its pattern. A subnormal one is given a 24th digit, which is far below the units.
fn digits(p: u32) -> u64
    ensures { result ≡ p % 8388608 + 8388608 }
{
    u64::from(p % FIRST + FIRST)
}

// The size of a product, in units of 2^-53.
fn product_size(p: u32, q: u32) -> u64
    requires { (p ≤ 1065353216) × (q ≤ 1065353216) }
    ensures { result ≡ digits_in p * 2 ^ place_in p * (digits_in q * 2 ^ place_in q) * 2 ^ 53 / 2 ^ 298 }
{
    let n = digits(p) * (digits(q) * 128);
    n.unbounded_shr(254 - (p / FIRST + q / FIRST))
}

// A product as a word.
fn product(x: f32, w: f32) -> u64
    requires { Small x × Small w }
    ensures { result ≡ product_word x w }
{
    let a = floats::number_bits(x);
    let b = floats::number_bits(w);
    let y = product_size(a % SIGN, b % SIGN);
    // Branches: of `(a < SIGN) == (b < SIGN)` the chip gets both results and a choice, 11 instructions more a sample.
    if a < SIGN {
        if b < SIGN {
            return UNIT + y;
        }
        return UNIT - y;
    }
    if b < SIGN {
        return UNIT - y;
    }
    UNIT + y
}

// 128 samples, and as many values of a window.
#[derive(Clone, Copy)]
pub struct Frame<'a> {
    pub x: &'a [f32],
    pub w: &'a [f32],
    pub ghost samples: { length x.now ≡ 128 },
    pub ghost window: { length w.now ≡ 128 },
    pub ghost small: { AllSmall x.now w.now },
}

impl<'a> Frame<'a> {
    // Whether all of them are from -1 to 1.
    pub fn accepts(x: &[f32], w: &[f32]) -> bool
        requires { (length x.now ≡ 128) × (length w.now ≡ 128) }
        ensures { Tells (AllSmall x.now w.now) result }
    {
        floats::largest(x) <= ONE && floats::largest(w) <= ONE
    }

    // The products of all of them. By one index and no `zip`, which is wrong on the chip (docs/DECISIONS.md).
    pub fn products(&self, y: &mut [u64; 128])
        ensures { Products self.now.x.now self.now.w.now y.new }
    {
        for (i, word) in y.iter_mut().enumerate() {
            *word = product(self.x[i], self.w[i]);
        }
    }
}
