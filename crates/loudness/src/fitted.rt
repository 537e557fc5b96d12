// Fitted channels: what the map needs of a channel, worked out once. A segment is six words: the steps and the upper
// digits of a factor in one word; minus the logarithm of b, the lower word first; the power of two that brings its
// rises to words; the lower digits of the factor; and a check, which makes the sum of all six 0xeaeaeaea. The factor is
// the quotient of the map, the number of steps over the word of the span, with digits enough to give the same step.

mod words;

ghost use Rattle.std.specs.Prelude.{◌≡◌, length, MatchResult};
ghost use Rattle.units.specs.Answers.{Ends, itself};
ghost use Rattle.units.specs.Refusals.{code_in, Gives};
ghost use Rattle.loudness.specs.Map.{Channel as IsChannel};
ghost use Rattle.loudness.specs.Knee.{BentChannel as IsBentChannel};
ghost use Rattle.loudness.specs.Words.{ChosenWords};
ghost use Rattle.loudness.specs.Fitted.{straight_words, bent_words, as_they_are, fitted_of, fitted_knee, Fits, Step};

use crate::channel::Channel;
use crate::knee::BentChannel;
use units::Refusal;
use words::Words;

// The words that answer a: six of a straight channel, and of a bent one those of the segment in which the value lies.
fn chosen(w: &[u32], a: f32) -> Result<&[u32; 6], Refusal>
    ensures { MatchResult result (λ v. ChosenWords w.now a v.now) (λ e. Gives itself (Step w.now a) (Err e)) }
{
    // No call here returns an Option of one reference: compiled for a chip of 32 bits from the module of 64, it is
    // lost.
    let Some((lower, rest)) = w.split_first_chunk() else {
        return Err(Refusal::BadLength);
    };
    if rest.is_empty() {
        return Ok(lower);
    }
    let Some((upper, more)) = rest.split_first_chunk() else {
        return Err(Refusal::BadLength);
    };
    if !more.is_empty() {
        return Err(Refusal::BadLength);
    }
    let (below, above) = (Words::read(lower)?, Words::read(upper)?);
    if above.threshold() < below.threshold() + below.range() {
        return Err(Refusal::BadChannel);
    }
    let p = crate::envelope_bits(a)?;
    if above.rise(logs::fixed_bits(p)) < 0x8000_0000_0000_0000 {
        return Ok(upper);
    }
    Ok(lower)
}

// The step of an envelope value by the words of a fitted channel. Refused: another number of words, then words whose
// check does not hold or segments out of order, then what is no envelope value. The words of a segment are answered in
// one place, so that the compiler has them there. The pattern is taken once there, for the test and for the logarithm.
pub fn step(w: &[u32], a: f32) -> Result<u32, Refusal>
    ensures { Gives itself (Step w.now a) result }
{
    let words = Words::read(chosen(w, a)?)?;
    let p = crate::envelope_bits(a)?;
    Ok(words.threshold() + words.steps(words.rise(logs::fixed_bits(p))))
}

// The words of a channel of a stimulator with the steps 0 to top. Refused: another number of words, then what makes no
// channel.
pub fn fit(top: u32, channel: Channel, w: &mut [u32]) -> Result<(), Refusal>
    ensures { Ends as_they_are
        (Fits (IsChannel top channel.b channel.m channel.t channel.c)
        (fitted_of channel.b channel.m channel.t channel.c) straight_words (length w.old))
        (code_in result) w.old w.new }
{
    if w.len() != 6 {
        return Err(Refusal::BadLength);
    }
    let segment = channel.segment(top)?;
    segment.fit(w);
    Ok(())
}

// The words of a bent channel, likewise: those of its two segments. Not one function with `fit`: all that they share is
// the test of a length.
pub fn fit_knee(top: u32, channel: BentChannel, w: &mut [u32]) -> Result<(), Refusal>
    ensures { Ends as_they_are
        (Fits (IsBentChannel top channel.b channel.k channel.m channel.t channel.s channel.c)
        (fitted_knee channel.b channel.k channel.m channel.t channel.s channel.c) bent_words (length w.old))
        (code_in result) w.old w.new }
{
    if w.len() != 12 {
        return Err(Refusal::BadLength);
    }
    let (lower, upper) = channel.segments(top)?;
    lower.fit(&mut w[..6]);
    upper.fit(&mut w[6..]);
    Ok(())
}
