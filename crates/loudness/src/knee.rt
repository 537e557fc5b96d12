// The loudness map with a knee: two segments of the straight map.

ghost use Rattle.std.specs.Prelude.{◌≡◌, Ok, Err, MatchResult};
ghost use Rattle.units.specs.Answers.{itself};
ghost use Rattle.units.specs.Refusals.{Gives};
ghost use Rattle.units.specs.declared.refusal.Refusal.TheVariants.{BadChannel};
ghost use Rattle.loudness.specs.Knee.{BentChannel as IsBentChannel, LoudnessKnee};

use crate::channel::Channel;
use crate::segment::Segment;
use units::Refusal;

// A channel that is straight from b to k with the steps t to s, and from k to m with the steps s to c.
#[derive(Clone, Copy, Debug, PartialEq)]
pub struct BentChannel {
    pub b: f32,
    pub k: f32,
    pub m: f32,
    pub t: u32,
    pub s: u32,
    pub c: u32,
}

impl BentChannel {
    // Its part up to the knee, and the one from there on.
    pub(crate) fn lower(self) -> Channel
        ensures { result ≡ record { b = self.b; m = self.k; t = self.t; c = self.s } }
    {
        let BentChannel { b, k, t, s, .. } = self;
        Channel { b, m: k, t, c: s }
    }

    pub(crate) fn upper(self) -> Channel
        ensures { result ≡ record { b = self.k; m = self.m; t = self.s; c = self.c } }
    {
        let BentChannel { k, m, s, c, .. } = self;
        Channel { b: k, m, t: s, c }
    }

    // The segments of a channel that suits a stimulator with the steps 0 to top.
    pub(crate) fn segments(self, top: u32) -> Result<(Segment, Segment), Refusal>
        ensures { MatchResult result
            (λ s. (s.0.channel ≡ record { b = self.b; m = self.k; t = self.t; c = self.s })
            × (s.1.channel ≡ record { b = self.k; m = self.m; t = self.s; c = self.c })
            × IsBentChannel top self.b self.k self.m self.t self.s self.c)
            (λ e. (e ≡ BadChannel) × ¬ IsBentChannel top self.b self.k self.m self.t self.s self.c) }
    {
        let lower = self.lower().segment(top)?;
        let upper = self.upper().segment(top)?;
        Ok((lower, upper))
    }
}

// The step of an envelope value in a bent channel: that of the segment in which it lies. Refused: what makes no such
// channel, then a value that is no envelope value.
pub fn loudness_knee(top: u32, channel: BentChannel, a: f32) -> Result<u32, Refusal>
    ensures { Gives itself (LoudnessKnee top channel.b channel.k channel.m channel.t channel.s channel.c a) result }
{
    let (lower, upper) = channel.segments(top)?;
    let p = crate::envelope_bits(a)?;
    if p <= channel.k.to_bits() {
        return Ok(lower.step(a));
    }
    Ok(upper.step(a))
}
