// The words of a fitted segment: written from a segment, read with their check, and the steps that they give.

ghost use Rattle.std.specs.Prelude.{◌≡◌, ◌+◌, ◌%◌, ◌^◌, ◌<◌, ◌≤◌, slice_index, length, MatchResult};
ghost use Rattle.units.specs.declared.refusal.Refusal.TheVariants.{BadChannel};
ghost use Rattle.loudness.specs.Segment.{Segment as IsSegment};
ghost use Rattle.loudness.specs.Words.{Passes, threshold_of, range_of, rise_to, upper_of, scaled, steps_in};
ghost use Rattle.loudness.specs.Words.{factor_of, check_of, segment_words};

use crate::channel::Channel;
use crate::segment::Segment;
use std::marker::Model;
use units::Refusal;

// What the words of a segment sum to, modulo 2^32.
const CHECK: u32 = 0xeaea_eaea;

// The words of a segment but for their check, which follows from them. A contract sees all six. They are made and read,
// and neither copied nor compared.
#[derive(Drop)]
pub struct Words {
    // 4194304 T + 4096 (C - T) + the upper digits of the factor
    steps: u32,
    // minus the logarithm of b
    low: u32,
    high: u32,
    // the power of two that brings rises to words
    power: u32,
    // the lower digits of the factor
    digits: u32,
}

impl Model for Words {
    ghost use Rattle.std.specs.Prelude.{ℕ, List};
    ghost use Rattle.loudness.specs.Words.{five_words};

    ghost Value = { List ℕ };

    ghost view = { λ w. five_words w.steps w.low w.high w.power w.digits };
}

// The upper half of n times s, of any numbers.
fn upper(n: u64, s: u32) -> u64
    ensures { result ≡ upper_of n s }
{
    n / 4294967296 * u64::from(s) + u64::from(fixed::upper_product((n % 4294967296) as u32, s))
}

// A word times a factor of two words, to the nearest whole number of steps.
fn scaled(y: u32, h: u32, l: u32) -> u32
    requires { h < 4096 }
    ensures { result ≡ scaled y h l }
{
    let p = u64::from(y) * u64::from(h) + u64::from(fixed::upper_product(y, l));
    ((p / 4294967296) as u32 + 1) / 2
}

// k steps over the span h, in steps of 2 ^ -65, and one more: two divisions of 64 digits by 32.
fn factor(k: u32, h: u32) -> u64
    requires { (k ≤ 1023) × (2 ^ 31 ≤ h) }
    ensures { result ≡ factor_of k h }
{
    let n = u64::from(k) * 8589934592;
    let q = u64::from(fixed::division::quotient(n, h));
    let r = n - q * u64::from(h);
    q * 4294967296 + u64::from(fixed::division::quotient(r * 4294967296, h)) + 1
}

// The word that makes the sum of five others the check. Five numbers, since `read` asks before there are `Words`.
fn check(s: u32, l: u32, h: u32, p: u32, r: u32) -> u32
    ensures { result ≡ check_of (s + l + h + p + r) }
{
    let sum = s
        .wrapping_add(l)
        .wrapping_add(h)
        .wrapping_add(p)
        .wrapping_add(r);
    CHECK.wrapping_sub(sum)
}

impl Words {
    // The words of a segment.
    fn of(b: f32, m: f32, t: u32, c: u32) -> Words
        requires { IsSegment b m t c }
        ensures { result ≡ segment_words b m t c }
    {
        let level = logs::fixed_log2(b);
        let span = logs::fixed_log2(m) - level;
        let places = ((span / 4294967296) as u32).leading_zeros();
        let f = factor(c - t, fixed::upper_word(span, places));
        let minus = level.wrapping_neg();
        Words {
            steps: (f / 4294967296) as u32 + 4096 * (c - t) + 4194304 * t,
            low: (minus % 4294967296) as u32,
            high: (minus / 4294967296) as u32,
            power: 1 << places,
            digits: (f % 4294967296) as u32,
        }
    }

    // They and their check, over six words. One by one: `copy_from_slice` becomes a call, and the chip's archive makes
    // none.
    fn write(&self, w: &mut [u32])
        requires { length w.old ≡ 6 }
        ensures { w.new ≡ self.now }
    {
        let Words {
            steps,
            low,
            high,
            power,
            digits,
        } = *self;
        w[0] = steps;
        w[1] = low;
        w[2] = high;
        w[3] = power;
        w[4] = digits;
        w[5] = check(steps, low, high, power, digits);
    }

    // The words of a list whose check holds.
    pub fn read(w: &[u32; 6]) -> Result<Words, Refusal>
        ensures { MatchResult result
            (λ v. (v ≡ w.now) × Passes w.now)
            (λ e. (e ≡ BadChannel) × ¬ Passes w.now) }
    {
        let [steps, low, high, power, digits, last] = *w;
        if last == check(steps, low, high, power, digits) {
            Ok(Words {
                steps,
                low,
                high,
                power,
                digits,
            })
        } else {
            Err(Refusal::BadChannel)
        }
    }

    // The step of threshold.
    pub fn threshold(&self) -> u32
        ensures { (result ≡ threshold_of (slice_index self.now 0)) × (result ≤ 1023) }
    {
        self.steps / 4194304
    }

    // How many steps there are from threshold to comfort.
    pub fn range(&self) -> u32
        ensures { (result ≡ range_of (slice_index self.now 0)) × (result ≤ 1023) }
    {
        self.steps / 4096 % 1024
    }

    // The rise of a logarithm above that of the lower level of the segment; below that it wraps.
    pub fn rise(&self, x: u64) -> u64
        ensures { result ≡ rise_to self.now x }
    {
        x.wrapping_add(u64::from(self.low) + u64::from(self.high) * 4294967296)
    }

    // The steps of a rise, whatever the words are.
    pub fn steps(&self, n: u64) -> u32
        ensures { (result ≡ steps_in self.now n) × (result ≤ 1023) }
    {
        let k = self.range();
        let y = upper(n, self.power);
        if 4294967296 <= y {
            return if 0x8000_0000_0000_0000 <= n { 0 } else { k };
        }
        scaled(y as u32, self.steps % 4096, self.digits).min(k)
    }
}

// The words of a segment, over six. Of plain numbers, as `segment_step` is: the struct and its words go through memory
// else, 44 bytes of stack more.
fn write(b: f32, m: f32, t: u32, c: u32, w: &mut [u32])
    requires { IsSegment b m t c × (length w.old ≡ 6) }
    ensures { w.new ≡ segment_words b m t c }
{
    Words::of(b, m, t, c).write(w);
}

impl Segment {
    // Its words, over six. Inlined always, as `Segment::step` is.
    #[inline(always)]
    pub(crate) fn fit(self, w: &mut [u32])
        requires { length w.old ≡ 6 }
        ensures { w.new ≡ segment_words self.channel.b self.channel.m self.channel.t self.channel.c }
    {
        let Channel { b, m, t, c } = self.channel;
        write(b, m, t, c, w);
    }
}
