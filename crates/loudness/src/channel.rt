// A channel of a stimulator: its levels and steps, and the test of them.
// Levels are compared by their patterns, which are in the order of their sizes.

ghost use Rattle.std.specs.Prelude.{◌≡◌, Ok, Err, MatchResult};
ghost use Rattle.units.specs.Tests.{Tells};
ghost use Rattle.units.specs.declared.refusal.Refusal.TheVariants.{BadChannel};
ghost use Rattle.loudness.specs.Map.{Levels, Channel as IsChannel};

use crate::segment::Segment;
use units::Refusal;

// The sound levels b and m, and the steps t and c of threshold and comfort. Any numbers: whether they are in order
// depends on the stimulator too.
#[derive(Clone, Copy, Debug, PartialEq)]
pub struct Channel {
    pub b: f32,
    pub m: f32,
    pub t: u32,
    pub c: u32,
}

// Whether 2 ^ -24 <= b and 2 b <= m <= 1: a pattern with one more in its exponent is that of twice the size. That of
// a NaN is above them all.
fn in_order(b: f32, m: f32) -> bool
    ensures { Tells (Levels b m) result }
{
    let l = fixed::bits_of(b);
    let h = fixed::bits_of(m);
    0x3380_0000 <= l && h <= 0x3f80_0000 && l <= h && 0x0080_0000 <= h - l
}

impl Channel {
    // Whether this is a channel of a stimulator with the steps 0 to top.
    pub fn suits(self, top: u32) -> bool
        ensures { Tells (IsChannel top self.b self.m self.t self.c) result }
    {
        in_order(self.b, self.m) && self.t <= self.c && self.c <= top && top <= 1023
    }

    // The segment of a channel that suits a stimulator with the steps 0 to top.
    pub(crate) fn segment(self, top: u32) -> Result<Segment, Refusal>
        ensures { MatchResult result
            (λ s. (s.channel ≡ self) × IsChannel top self.b self.m self.t self.c)
            (λ e. (e ≡ BadChannel) × ¬ IsChannel top self.b self.m self.t self.c) }
    {
        if self.suits(top) {
            Ok(Segment { channel: self })
        } else {
            Err(Refusal::BadChannel)
        }
    }
}
