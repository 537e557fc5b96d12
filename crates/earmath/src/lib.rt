// Earmath for Rattle: each function with its whole promise as its contract. An answer is a result's bit pattern, which
// no float instruction touches, or a refusal. The crate earmath_c exports them for C, by codes and result places. Lists
// are plain slices: a type that holds how long they are would ask more of callers, who get BadLength instead.

#![tactic(auto)]

ghost use Rattle.std.specs.Prelude.{length};
ghost use Rattle.units.specs.Answers.{Ends, float_bits, list_bits, itself};
ghost use Rattle.units.specs.Refusals.{code_in, Gives};
ghost use Rattle.roots.specs.Sqrt.{Sqrt};
ghost use Rattle.roots.specs.Rsqrt.{Rsqrt};
ghost use Rattle.loudness.specs.Map.{Channel as IsChannel, Loudness};
ghost use Rattle.loudness.specs.Knee.{BentChannel as IsBentChannel, LoudnessKnee};
ghost use Rattle.loudness.specs.Fitted.{straight_words, bent_words, as_they_are, fitted_of, fitted_knee, Fits, Step};
ghost use Rattle.powers.specs.Exp2.{Exp2};
ghost use Rattle.powers.specs.Exp.{Exp};
ghost use Rattle.logs.specs.Log2.{Log2};
ghost use Rattle.circle.specs.Promise.{SinPi, CosPi, Sin, Cos};
ghost use Rattle.sums.specs.Dot.{Dot};
ghost use Rattle.spectrum.specs.Transform.{Transform, both_bits};
ghost use Rattle.path.specs.Path.{Currents};
ghost use Rattle.exactsums.specs.Nearest.{NearestDot};
ghost use Rattle.powers.specs.Base.{two, natural};
ghost use Rattle.weights.specs.Softmax.{Softmax, floats_of};

pub use loudness::Channel;
pub use loudness::knee::BentChannel;
pub use units::Refusal;

// The square root of every bit pattern: the nearest float, or OutOfRange.
pub fn ear_sqrt(x: f32) -> Result<u32, Refusal>
    ensures { Gives float_bits (Sqrt x) result }
{
    roots::sqrt(x)
}

// 1 over the square root of every bit pattern: the nearest float, or OutOfRange.
pub fn ear_rsqrt(x: f32) -> Result<u32, Refusal>
    ensures { Gives float_bits (Rsqrt x) result }
{
    roots::rsqrt(x)
}

// 2 to the power of every bit pattern: the nearest float, or OutOfRange.
pub fn ear_exp2(x: f32) -> Result<u32, Refusal>
    ensures { Gives float_bits (Exp2 x) result }
{
    powers::exp2(x)
}

// e to the power of every bit pattern: within 515 / 2^33 of it, or OutOfRange.
pub fn ear_exp(x: f32) -> Result<u32, Refusal>
    ensures { Gives float_bits (Exp x) result }
{
    powers::natural::exp(x)
}

// The logarithm to base two of every bit pattern: the nearest float, of 1 it is +0; or OutOfRange.
pub fn ear_log2(x: f32) -> Result<u32, Refusal>
    ensures { Gives float_bits (Log2 x) result }
{
    logs::log2(x)
}

// sin(pi x) of every bit pattern below 2^22 in size: within 17 / 2^29 of it, or OutOfRange.
pub fn ear_sinpi(x: f32) -> Result<u32, Refusal>
    ensures { Gives float_bits (SinPi x) result }
{
    circle::sinpi(x)
}

// cos(pi x), likewise.
pub fn ear_cospi(x: f32) -> Result<u32, Refusal>
    ensures { Gives float_bits (CosPi x) result }
{
    circle::cospi(x)
}

// sin x of every bit pattern that is a finite float: within 17 / 2^29 of it, or OutOfRange.
pub fn ear_sin(x: f32) -> Result<u32, Refusal>
    ensures { Gives float_bits (Sin x) result }
{
    circle::sin(x)
}

// cos x, likewise.
pub fn ear_cos(x: f32) -> Result<u32, Refusal>
    ensures { Gives float_bits (Cos x) result }
{
    circle::cos(x)
}

// The sum of the products of two lists, neighbours added in pairs, within G times the sum of their sizes; or BadLength,
// OutOfRange or Overflow.
pub fn ear_dot(a: &[f32], b: &[f32]) -> Result<u32, Refusal>
    ensures { Gives float_bits (Dot a.now b.now) result }
{
    sums::dot(a, b)
}

// 2 to the power of each element of a list over the sum of all these powers: within 273 / 2^32 of the quotient and from
// below one least float, or BadLength or OutOfRange and nothing written.
pub fn ear_softmax2(x: &[f32], p: &mut [u32]) -> Result<(), Refusal>
    ensures { Ends list_bits (Softmax two x.now (length p.old)) (code_in result) p.old p.new }
{
    weights::softmax2(x, p)
}

// The same with e in the place of 2, and the same bounds.
pub fn ear_softmax(x: &[f32], p: &mut [u32]) -> Result<(), Refusal>
    ensures { Ends list_bits (Softmax natural x.now (length p.old)) (code_in result) p.old p.new }
{
    weights::softmax(x, p)
}

// The loudness map of an envelope value a in a channel: a step within 0.500001 of the exact map, or
// BadChannel or OutOfRange.
pub fn ear_loudness(channel: Channel, a: f32) -> Result<u32, Refusal>
    ensures { Gives itself (Loudness 255 channel.b channel.m channel.t channel.c a) result }
{
    loudness::loudness(channel, a)
}

// The softmax of the floats that a list holds, in their place: within 273 / 2^32 of the quotient and from below one
// least float, or BadLength or OutOfRange and nothing written.
pub fn ear_softmax2_in_place(p: &mut [u32]) -> Result<(), Refusal>
    ensures { Ends list_bits (Softmax two (floats_of p.old) (length p.old)) (code_in result) p.old p.new }
{
    weights::softmax2_in_place(p)
}

// The loudness map of a stimulator with the steps 0 to top, at most 1,023: a step within 0.500004 of the exact map,
// 0.500001 where top is at most 255.
pub fn ear_loudness_top(top: u32, channel: Channel, a: f32) -> Result<u32, Refusal>
    ensures { Gives itself (Loudness top channel.b channel.m channel.t channel.c a) result }
{
    loudness::loudness_top(top, channel, a)
}

// The map with a knee: straight from b to k with the steps t to s, and from k to m with the steps s to c.
pub fn ear_loudness_knee(top: u32, channel: BentChannel, a: f32) -> Result<u32, Refusal>
    ensures { Gives itself (LoudnessKnee top channel.b channel.k channel.m channel.t channel.s channel.c a) result }
{
    loudness::knee::loudness_knee(top, channel, a)
}

// What the map needs of a channel, worked out once, in 6 words: those that ear_step takes; or BadLength or BadChannel
// and nothing written.
pub fn ear_fit(top: u32, channel: Channel, words: &mut [u32]) -> Result<(), Refusal>
    ensures { Ends as_they_are
        (Fits (IsChannel top channel.b channel.m channel.t channel.c)
        (fitted_of channel.b channel.m channel.t channel.c) straight_words (length words.old))
        (code_in result) words.old words.new }
{
    loudness::fitted::fit(top, channel, words)
}

// The same of a bent channel, in 12 words.
pub fn ear_fit_knee(top: u32, channel: BentChannel, words: &mut [u32]) -> Result<(), Refusal>
    ensures { Ends as_they_are
        (Fits (IsBentChannel top channel.b channel.k channel.m channel.t channel.s channel.c)
        (fitted_knee channel.b channel.k channel.m channel.t channel.s channel.c) bent_words (length words.old))
        (code_in result) words.old words.new }
{
    loudness::fitted::fit_knee(top, channel, words)
}

// The step of an envelope value by the words of a fitted channel: the map's; or BadLength, BadChannel or OutOfRange.
pub fn ear_step(words: &[u32], a: f32) -> Result<u32, Refusal>
    ensures { Gives itself (Step words.now a) result }
{
    loudness::fitted::step(words, a)
}

// The transform of 128 floats, parts 0 to 64: each within 2^-24 of its size, 2^-42 of the largest value and 2^-150, or
// BadLength or OutOfRange and nothing written.
pub fn ear_transform128(x: &[f32], re: &mut [u32], im: &mut [u32]) -> Result<(), Refusal>
    ensures { Ends both_bits (Transform x.now (length re.old) (length im.old)) (code_in result)
        (re.old, im.old) (re.new, im.new) }
{
    spectrum::transform(x, re, im)
}

// The currents of up to 65 bands of a windowed frame, each within 0.504 of a step of the exact path's, or BadLength,
// BadChannel or OutOfRange and nothing written.
pub fn ear_currents(
    top: u32,
    x: &[f32],
    w: &[f32],
    bands: &[u32],
    out: &mut [u32],
) -> Result<(), Refusal>
    ensures { Ends as_they_are (Currents top x.now w.now bands.now (length out.old)) (code_in result) out.old out.new }
{
    path::currents(top, x, w, bands, out)
}

// The sum of the products of two lists: the float nearest to the exact sum, or BadLength or OutOfRange.
pub fn ear_dot_nearest(a: &[f32], b: &[f32]) -> Result<u32, Refusal>
    ensures { Gives float_bits (NearestDot a.now b.now) result }
{
    exactsums::dot_nearest(a, b)
}
