// log2: whole numbers inside, one rounding at the end.

#![tactic(auto)]

mod rows;

ghost use Rattle.std.specs.Prelude.{◌≡◌, ◌+◌, ◌-◌, ◌*◌, ◌/◌, ◌^◌, ◌<◌, ◌≤◌, true, nat_lt};
ghost use Rattle.units.specs.Answers.{float_bits};
ghost use Rattle.units.specs.Refusals.{Gives};
ghost use Rattle.units.specs.Tests.{Tells};
ghost use Rattle.logs.specs.Log2.{Accepts, Log2};
ghost use Rattle.logs.specs.Value.{slope, Upper, fixed_bits, log_of_one, distance_of, sign_of, width_of};
ghost use Rattle.logs.specs.Value.{is_left_open, fraction_of, settled_digits, log2_digits, rounded_bits};
ghost use Rattle.logs.specs.Fixed.{FixedLog2};

use fixed::Parts;
use rows::Row;
use units::Refusal;

// log2 1 in fixed point: 127 in steps of 2 ^ -54.
const AT_ONE: u64 = 0x1fc0_0000_0000_0000;

// The logarithm over the distance from the nearer power of two: the row of the sixteenth, at the distance from its
// upper end. Inlined always, since `fixed_bits` is.
#[tactic(auto, unfolding(crate::specs::Value::slope))]
#[inline(always)]
fn slope(b: u32) -> u32
    ensures { result ≡ slope b }
{
    Row::of_sixteenth(b / 524288 % 16).at((524288 - b % 524288) * 512)
}

// The upper word of the exponent, less p where b is below k.
fn upper(b: u32, k: u32, p: u32) -> u32
    ensures { Upper b k p result }
{
    if b < k {
        (k / 2).wrapping_sub(p)
    } else {
        k / 2
    }
}

// log2 x + 127 in steps of 2 ^ -54, by the pattern b of x: the exponent of the nearer power of two, and slope times
// distance. With k for the pattern of that power, the distance is b - k, of either sign, so that both sides of the cut
// are one formula: one that is negative wraps, and its product has the slope too much in the upper word.
// Inlined always: loudness::fitted::step takes it twice, and keeps it as a call else, 8 instructions more.
#[inline(always)]
pub fn fixed_bits(b: u32) -> u64
    requires { b < 2 ^ 31 }
    ensures { result ≡ fixed_bits b }
{
    let p = slope(b);
    let k = (b + 4718592) / 8388608 * 8388608;
    let d = b.wrapping_sub(k);
    let h = upper(b, k, p);
    (u64::from(d) * u64::from(p)).wrapping_add(u64::from(h) * 4294967296)
}

// The same of a float.
pub fn fixed_log2(x: f32) -> u64
    requires { Accepts x }
    ensures { FixedLog2 x result }
{
    fixed_bits(x.to_bits())
}

// How near a middle has to be to the first 32 digits for them to leave the 24 open, in the last of them: z zeros stand
// before them.
#[tactic(auto, unfolding(crate::specs::Value::width_of))]
fn width(z: u32) -> u32
    ensures value { result ≡ width_of z }
    ensures most { result ≤ 8 }
{
    if z < 10 { 2 } else { 8 }
}

// A logarithm before it is rounded: of the float with the pattern b, and w in fixed point. Of its size, `first` has the
// first 32 digits m, and how many zeros e stand before them.
#[derive(Clone, Copy)]
struct Unrounded {
    b: u32,
    w: u64,
}

impl Unrounded {
    // Whether the float is below 1.
    fn is_negative(self) -> bool
        ensures { result ≡ nat_lt self.w log_of_one }
    {
        self.w < AT_ONE
    }

    // How far it is from log2 1.
    fn distance(self) -> u64
        ensures { result ≡ distance_of self.w }
    {
        self.w.abs_diff(AT_ONE)
    }

    // The sign's bit of its float.
    #[tactic(auto, unfolding(crate::specs::Value::sign_of))]
    fn sign(self) -> u32
        ensures { result ≡ sign_of self.w }
    {
        if self.is_negative() { 0x8000_0000 } else { 0 }
    }

    // The middle of two floats that is near the first digits: its fraction in units of 2^-64, of a negative logarithm
    // what that lacks to 1. Digits before the point run over 64 bits.
    #[tactic(auto, unfolding(crate::specs::Value::fraction_of))]
    fn fraction(self, first: Parts) -> u64
        requires { first.e ≤ 49 }
        ensures { result ≡ fraction_of self.w first.m first.e }
    {
        let middle = u64::from(2 * (first.m / 256) + 1) << (49 - first.e);
        if self.is_negative() {
            middle.wrapping_neg()
        } else {
            middle
        }
    }

    // The digits where the first 32 leave them open: x against the power of that middle, in 2 of 100 calls, and in 6
    // where the logarithm is below 1 in size.
    #[tactic(auto, unfolding(crate::specs::Value::settled_digits, crate::specs::Value::is_above))]
    fn settled(self, first: Parts) -> u32
        requires { first.e ≤ 49 }
        ensures { result ≡ settled_digits self.b self.w first.m first.e }
    {
        let power = (fine::fine(self.fraction(first)) / 2199023255552) as u32;
        let is_above = power < self.b % 8388608;
        if is_above == self.is_negative() {
            first.m / 256
        } else {
            first.m / 256 + 1
        }
    }

    // The 24 digits.
    #[tactic(auto, unfolding(crate::specs::Value::log2_digits, crate::specs::Value::is_left_open))]
    fn digits(self, first: Parts) -> u32
        requires { is_left_open first.m (width_of first.e) ≡ true → first.e ≤ 49 }
        ensures { result ≡ log2_digits self.b self.w first.m first.e }
    {
        let h = width(first.e);
        if (first.m % 256 + 128 + h) % 256 < 2 * h {
            self.settled(first)
        } else {
            (first.m / 128 + 1) / 2
        }
    }

    // Sign, exponent and digits of its float: a step of 2 ^ -54 is 2 ^ 95 units. A carry of the digits runs into the
    // exponent.
    #[tactic(auto, using(crate::proofs::Rounding::sign_few))]
    fn put_together(self, zeros: u32, digits: u32) -> u32
        requires { (zeros ≤ 63) × (digits ≤ 2 ^ 24) }
        ensures { result ≡ sign_of self.w + ((135 - zeros) * 8388608 + digits) }
    {
        self.sign() + ((135 - zeros) * 8388608 + digits)
    }

    // The bit pattern of the float nearest to it, of any w.
    fn rounded_with_care(self) -> u32
        requires { self.w < 2 ^ 63 }
        ensures { result ≡ rounded_bits self.b self.w }
    {
        let n = self.distance();
        if n == 0 {
            return 0;
        }
        let first = fixed::first_word(n);
        self.put_together(first.e, self.digits(first))
    }

    // The same, and at once where the first digits are no more than 2^-22 away from 0 nor 8 from a middle: they tell
    // what the float is, in 15 of 16 calls.
    fn rounded(self) -> u32
        requires { self.w < 2 ^ 63 }
        ensures { result ≡ rounded_bits self.b self.w }
    {
        let n = self.distance();
        if 4294967296 <= n {
            let first = fixed::first_word(n);
            if 16 <= (first.m % 256 + 136) % 256 {
                return self.put_together(first.e, (first.m / 128 + 1) / 2);
            }
        }
        self.rounded_with_care()
    }
}

// Finite and at least 2^-126: patterns from that of 2^-126 on, below the infinity's. A NaN has no pattern to read.
fn in_range(x: f32) -> bool
    ensures { Tells (Accepts x) result }
{
    !x.is_nan() && (0x0080_0000..0x7f80_0000).contains(&x.to_bits())
}

// log2 x, the nearest float, as its bit pattern; refused as out of range where x is a NaN, below 2^-126 or an infinity.
pub fn log2(x: f32) -> Result<u32, Refusal>
    ensures { Gives float_bits (Log2 x) result }
{
    if !in_range(x) {
        return Err(Refusal::OutOfRange);
    }
    let logarithm = Unrounded {
        b: x.to_bits(),
        w: fixed_log2(x),
    };
    Ok(logarithm.rounded())
}
