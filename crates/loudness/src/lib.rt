// The loudness map: from an envelope value to a current step, straight in the logarithm between threshold and comfort.

#![tactic(auto)]

mod channel;
pub mod fitted;
pub mod knee;
mod segment;

ghost use Rattle.std.specs.Prelude.{◌≡◌, MatchResult, not, T, is_nan};
ghost use Rattle.units.specs.Answers.{itself};
ghost use Rattle.units.specs.Refusals.{Gives};
ghost use Rattle.units.specs.declared.refusal.Refusal.TheVariants.{OutOfRange};
ghost use Rattle.loudness.specs.Map.{Envelope, Loudness};
ghost use Rattle.loudness.specs.Segment.{size_bits};

pub use channel::Channel;
pub use segment::Segment;
use units::Refusal;

// The pattern of a, with 0 for -0.
fn size_bits(a: f32) -> u32
    requires { T (not (is_nan a)) }
    ensures { result ≡ size_bits a }
{
    let p = a.to_bits();
    if p == 0x8000_0000 { 0 } else { p }
}

// The same of an envelope value, 0 <= a <= 1.
fn envelope_bits(a: f32) -> Result<u32, Refusal>
    ensures { MatchResult result (λ p. Envelope a × (p ≡ size_bits a)) (λ e. (e ≡ OutOfRange) × ¬ Envelope a) }
{
    if a.is_nan() {
        return Err(Refusal::OutOfRange);
    }
    let p = size_bits(a);
    if p <= 0x3f80_0000 {
        Ok(p)
    } else {
        Err(Refusal::OutOfRange)
    }
}

// The step of an envelope value in a channel of a stimulator with the steps 0 to top. Refused: what makes no channel,
// then a value that is no envelope value.
pub fn loudness_top(top: u32, channel: Channel, a: f32) -> Result<u32, Refusal>
    ensures { Gives itself (Loudness top channel.b channel.m channel.t channel.c a) result }
{
    let segment = channel.segment(top)?;
    envelope_bits(a)?;
    Ok(segment.step(a))
}

// The same of a stimulator with 256 steps.
pub fn loudness(channel: Channel, a: f32) -> Result<u32, Refusal>
    ensures { Gives itself (Loudness 255 channel.b channel.m channel.t channel.c a) result }
{
    loudness_top(255, channel, a)
}
