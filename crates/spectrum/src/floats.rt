// Floats to words and words to floats.

ghost use Rattle.std.specs.Prelude.{◌≡◌, ℕ, ◌+◌, ◌-◌, ◌*◌, ◌/◌, ◌^◌, ◌<◌, ◌≤◌, length, get_or};
ghost use Rattle.std.specs.Float.{binary32};
ghost use Rattle.std.specs.Float.Ieee.{to_bits};
ghost use Rattle.units.specs.Units.{mag, Number};
ghost use Rattle.spectrum.specs.Transform.{at};
ghost use Rattle.spectrum.specs.Floats.{size_in, Largest, Scale, word_of, Loaded};
ghost use Rattle.spectrum.specs.Floats.{Holdable, size_bits_of, bits_of, StoredReal, StoredImaginary};

use super::words::UNIT;

// The largest pattern of a size.
pub fn largest(x: &[f32]) -> u32
    ensures { Largest x.now (length x.now) result }
{
    let mut m = 0;
    for a in x {
        m = m.max(fixed::bits_of(*a) % 2147483648);
    }
    m
}

// The pattern of a number: no NaN, so that nothing has to be asked.
pub fn number_bits(x: f32) -> u32
    requires { Number x }
    ensures { result ≡ to_bits binary32 x }
{
    x.to_bits()
}

// How many digits the largest size of a frame has. A frame is scaled once, by that number: a word counts units of
// 2^(digits - 53) least floats, so that the largest has 53 digits, subnormal or not.
#[derive(Clone, Copy, Debug, PartialEq, Eq)]
pub struct Scaling {
    pub digits: u32,
    pub ghost high: { digits ≤ 269 },
}

impl Scaling {
    // That of a frame whose largest size has the pattern m.
    pub fn of_largest(m: u32) -> Scaling
        requires { m < 2071986176 }
        ensures { Scale m result.digits }
    {
        let digits = if m < 8388608 {
            32 - m.leading_zeros()
        } else {
            m / 8388608 + 23
        };
        Scaling { digits }
    }

    // The digits m at the place k, shifted to their place among the units.
    fn shifted(self, m: u32, k: u32) -> u64
        requires { (m < 2 ^ 24) × (k ≤ self.digits) × (m * 2 ^ k < 2 ^ self.digits) }
        ensures { result ≡ m * 2 ^ k * 2 ^ 53 / 2 ^ self.digits }
    {
        let e = self.digits;
        let p = k + 53;
        if e <= p {
            return u64::from(m) << (p - e);
        }
        u64::from(m).unbounded_shr(e - p)
    }

    // The size with the pattern b in units, cut off.
    fn scaled(self, b: u32) -> u64
        requires { (size_in b < 2 ^ self.digits) × (b < 2147483648) }
        ensures { result ≡ size_in b * 2 ^ 53 / 2 ^ self.digits }
    {
        if b < 8388608 {
            return self.shifted(b, 0);
        }
        self.shifted(b % 8388608 + 8388608, b / 8388608 - 1)
    }

    // A float as a word.
    fn load(self, x: f32) -> u64
        requires { Number x × (mag x < 2 ^ self.digits) }
        ensures { result ≡ word_of self.digits x }
    {
        let b = number_bits(x);
        let y = self.scaled(b % 2147483648);
        if b < 2147483648 { UNIT + y } else { UNIT - y }
    }

    // All of them.
    pub fn load_all(self, x: &[f32], y: &mut [u64])
        requires long { (length x.now ≡ 128) × (length y.old ≡ 128) }
        requires within { (i : ℕ) → i < 128 → Number (at x.now i) × (mag (at x.now i) < 2 ^ self.digits) }
        ensures { Loaded self.digits x.now y.new }
    {
        // by one index and no `zip`: through that no element that was written is known afterwards, and on the chip it
        // is wrong (docs/DECISIONS.md, "No reference in an Option on the chip")
        for (i, a) in x.iter().enumerate() {
            y[i] = self.load(*a);
        }
    }

    // n units as the pattern of the nearest float's size.
    fn size_bits(self, n: u64) -> u32
        requires { n < 2 ^ 60 }
        ensures { (result ≡ size_bits_of self.digits n) × (result < 2139095040) }
    {
        let e = self.digits;
        if n.leading_zeros() + 13 <= e {
            return fixed::nearest_bits(n * 16, e - 17);
        }
        if e < 53 {
            return (((n >> (52 - e)) + 1) / 2) as u32;
        }
        (n << (e - 53)) as u32
    }

    // A word's value as the pattern of a float; what is rounded to nothing is +0.
    #[tactic(auto, unfolding(crate::specs::Floats::bits_of))]
    fn bits(self, v: u64) -> u32
        requires { Holdable v }
        ensures { result ≡ bits_of self.digits v }
    {
        // no `v.abs_diff(UNIT)` for both signs: with it a frame takes 205 instructions more on the chip, of 31,300
        if v < UNIT {
            let b = self.size_bits(UNIT - v);
            return if b == 0 { 0 } else { b + 0x8000_0000 };
        }
        self.size_bits(v - UNIT)
    }

    // The patterns of the values whose words `word` finds.
    fn store<F: Fn(usize) -> u64>(self, word: F, out: &mut [u32])
        requires callable { (k : ℕ) → k < length out.old → F.pre word k }
        requires holdable { (k v : ℕ) → k < length out.old → F.post word k v → Holdable v }
        ensures { (k : ℕ) → k < length out.old
            → (v : ℕ) × F.post word k v × (get_or out.new k 0 ≡ bits_of self.digits v) }
    {
        for (k, b) in out.iter_mut().enumerate() {
            *b = self.bits(word(k));
        }
    }

    // The real parts, from the front of the block.
    pub fn store_real(self, r: &[u64], re: &mut [u32])
        requires long { (length r.now ≡ 128) × (length re.old ≡ 65) }
        requires holdable { (i : ℕ) → i < 128 → Holdable (get_or r.now i 0) }
        ensures { StoredReal self.digits r.now re.new }
    {
        self.store(|k| r[k], re);
    }

    // The imaginary parts, from its end; the first and the last are zero.
    pub fn store_imaginary(self, r: &[u64], im: &mut [u32])
        requires long { (length r.now ≡ 128) × (length im.old ≡ 65) }
        requires holdable { (i : ℕ) → i < 128 → Holdable (get_or r.now i 0) }
        ensures { StoredImaginary self.digits r.now im.new }
    {
        self.store(|k| r[127 - k], &mut im[1..64]);
        im[0] = 0;
        im[64] = 0;
    }
}
