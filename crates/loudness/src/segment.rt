// A segment of a map: straight in the logarithm from step t at the level b to step c at the level m.

ghost use Rattle.std.specs.Prelude.{◌≡◌, ◌-◌};
ghost use Rattle.loudness.specs.Map.{Envelope};
ghost use Rattle.loudness.specs.Value.{rise_of, nearest_step, steps_of, step_of};
ghost use Rattle.loudness.specs.Segment.{Segment as IsSegment, Inside, Quotient};

use crate::channel::Channel;

// A channel of some stimulator.
#[derive(Clone, Copy, Debug, PartialEq)]
pub struct Segment {
    pub channel: Channel,
    pub ghost is_segment: { IsSegment channel.b channel.m channel.t channel.c },
}

// k n / h to the nearest whole number, at most 1,023: one division of 32 digits, at most 1 too small.
fn nearest_step(k: u32, n: u32, h: u32) -> u32
    requires { Quotient k n h }
    ensures { result ≡ nearest_step k n h }
{
    let w = u64::from(h);
    let p = u64::from(k) * u64::from(n) + u64::from(h / 2);
    let q = (p / 2048) as u32 / (h / 2048 + 1);
    if p - u64::from(q) * w < w { q } else { q + 1 }
}

// The steps from b to an envelope value between b and m: one logarithm for each, and their rises as words of 32 digits.
fn steps_between(b: f32, m: f32, t: u32, c: u32, a: f32) -> u32
    requires { Inside b m t c a }
    ensures { result ≡ steps_of (c - t) (rise_of b a) (rise_of b m) }
{
    let low = logs::fixed_log2(b);
    let d = logs::fixed_log2(m) - low;
    let n = logs::fixed_log2(a) - low;
    let s = ((d / 4294967296) as u32).leading_zeros();
    nearest_step(c - t, fixed::upper_word(n, s), fixed::upper_word(d, s))
}

// The step of an envelope value in a segment. Of plain numbers: a struct of four is passed through memory, on the chip
// 10 instructions and 16 bytes of stack more a call.
fn segment_step(b: f32, m: f32, t: u32, c: u32, a: f32) -> u32
    requires { IsSegment b m t c × Envelope a }
    ensures { result ≡ step_of b m t c a }
{
    let p = crate::size_bits(a);
    if p <= b.to_bits() {
        return t;
    }
    if m.to_bits() <= p {
        return c;
    }
    t + steps_between(b, m, t, c, a)
}

impl Segment {
    // The step of an envelope value. Inlined always: `segment_step` is inlined here else, and the struct passed.
    #[inline(always)]
    pub fn step(self, a: f32) -> u32
        requires { Envelope a }
        ensures { result ≡ step_of self.channel.b self.channel.m self.channel.t self.channel.c a }
    {
        let Channel { b, m, t, c } = self.channel;
        segment_step(b, m, t, c, a)
    }
}
