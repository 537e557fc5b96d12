// The C interface: one exported function for each of earmath's, with the same promise. include/earmath.h says the same
// in words. C is why an answer is a code and a place here, why a channel is loose numbers, and why each function stands
// by itself, generic over nothing.

#![tactic(auto)]

ghost use Rattle.std.specs.Prelude.{◌≡◌, length, MatchResult};
ghost use Rattle.units.specs.Answers.{Ends, float_bits, list_bits, itself};
ghost use Rattle.units.specs.Refusals.{code_in};
ghost use Rattle.roots.specs.Sqrt.{Sqrt};
ghost use Rattle.roots.specs.Rsqrt.{Rsqrt};
ghost use Rattle.loudness.specs.Map.{Channel as IsChannel, Loudness};
ghost use Rattle.loudness.specs.Knee.{BentChannel as IsBentChannel, LoudnessKnee};
ghost use Rattle.loudness.specs.Fitted.{straight_words, bent_words, as_they_are, fitted_of, fitted_knee, Fits, Step};
ghost use Rattle.powers.specs.Exp2.{Exp2};
ghost use Rattle.powers.specs.Exp.{Exp};
ghost use Rattle.logs.specs.Log2.{Log2};
ghost use Rattle.circle.specs.Promise.{SinPi, CosPi, Sin, Cos};
ghost use Rattle.sums.specs.Dot.{Dot};
ghost use Rattle.spectrum.specs.Transform.{Transform, both_bits};
ghost use Rattle.path.specs.Path.{Currents};
ghost use Rattle.exactsums.specs.Nearest.{NearestDot};
ghost use Rattle.powers.specs.Base.{two, natural};
ghost use Rattle.weights.specs.Softmax.{Softmax, floats_of};

use earmath::{BentChannel, Channel, Refusal};

// The code of an answer, 0 where it is no refusal.
fn code(answer: Result<(), Refusal>) -> u32
    ensures { result ≡ code_in answer }
{
    match answer {
        Ok(()) => 0,
        Err(refusal) => refusal.into(),
    }
}

// The same, and what is answered goes to its place; where it is a refusal the place stays as it is.
// By `code(answer.map(|bits| *place = bits))` it was tried: that the place is written was left open.
fn write(answer: Result<u32, Refusal>, place: &mut u32) -> u32
    ensures code { result ≡ code_in answer }
    ensures place { MatchResult answer (λ bits. place.new ≡ bits) (λ _. place.new ≡ place.old) }
{
    match answer {
        Ok(bits) => {
            *place = bits;
            0
        }
        Err(refusal) => refusal.into(),
    }
}

// The square root of every bit pattern: the nearest float, or code 1 and nothing written.
#[unsafe(no_mangle)]
pub extern "C" fn ear_sqrt(x: f32, out: &mut u32) -> u32
    ensures { Ends float_bits (Sqrt x) result out.old out.new }
{
    write(earmath::ear_sqrt(x), out)
}

// 1 over the square root of every bit pattern: the nearest float, or code 1 and nothing written.
#[unsafe(no_mangle)]
pub extern "C" fn ear_rsqrt(x: f32, out: &mut u32) -> u32
    ensures { Ends float_bits (Rsqrt x) result out.old out.new }
{
    write(earmath::ear_rsqrt(x), out)
}

// 2 to the power of every bit pattern: the nearest float, or code 1 and nothing written.
#[unsafe(no_mangle)]
pub extern "C" fn ear_exp2(x: f32, out: &mut u32) -> u32
    ensures { Ends float_bits (Exp2 x) result out.old out.new }
{
    write(earmath::ear_exp2(x), out)
}

// e to the power of every bit pattern: within 515 / 2^33 of it, or code 1 and nothing written.
#[unsafe(no_mangle)]
pub extern "C" fn ear_exp(x: f32, out: &mut u32) -> u32
    ensures { Ends float_bits (Exp x) result out.old out.new }
{
    write(earmath::ear_exp(x), out)
}

// The logarithm to base two of every bit pattern: the nearest float, of 1 it is +0; or code 1 and nothing written.
#[unsafe(no_mangle)]
pub extern "C" fn ear_log2(x: f32, out: &mut u32) -> u32
    ensures { Ends float_bits (Log2 x) result out.old out.new }
{
    write(earmath::ear_log2(x), out)
}

// sin(pi x) of every bit pattern below 2^22 in size: within 17 / 2^29 of it, or code 1 and nothing written.
#[unsafe(no_mangle)]
pub extern "C" fn ear_sinpi(x: f32, out: &mut u32) -> u32
    ensures { Ends float_bits (SinPi x) result out.old out.new }
{
    write(earmath::ear_sinpi(x), out)
}

// cos(pi x), likewise.
#[unsafe(no_mangle)]
pub extern "C" fn ear_cospi(x: f32, out: &mut u32) -> u32
    ensures { Ends float_bits (CosPi x) result out.old out.new }
{
    write(earmath::ear_cospi(x), out)
}

// sin x of every bit pattern that is a finite float: within 17 / 2^29 of it, or code 1 and nothing written.
#[unsafe(no_mangle)]
pub extern "C" fn ear_sin(x: f32, out: &mut u32) -> u32
    ensures { Ends float_bits (Sin x) result out.old out.new }
{
    write(earmath::ear_sin(x), out)
}

// cos x, likewise.
#[unsafe(no_mangle)]
pub extern "C" fn ear_cos(x: f32, out: &mut u32) -> u32
    ensures { Ends float_bits (Cos x) result out.old out.new }
{
    write(earmath::ear_cos(x), out)
}

// The sum of the products of two lists, neighbours added in pairs, within G times the sum of their sizes; or code 2, 1
// or 3 and nothing written.
#[unsafe(no_mangle)]
pub extern "C" fn ear_dot(a: &[f32], b: &[f32], out: &mut u32) -> u32
    ensures { Ends float_bits (Dot a.now b.now) result out.old out.new }
{
    write(earmath::ear_dot(a, b), out)
}

// 2 to the power of each element of a list over the sum of all these powers: within 273 / 2^32 of the quotient and from
// below one least float, or code 2 or 1 and nothing written.
#[unsafe(no_mangle)]
pub extern "C" fn ear_softmax2(x: &[f32], p: &mut [u32]) -> u32
    ensures { Ends list_bits (Softmax two x.now (length p.old)) result p.old p.new }
{
    code(earmath::ear_softmax2(x, p))
}

// The same with e in the place of 2, and the same bounds.
#[unsafe(no_mangle)]
pub extern "C" fn ear_softmax(x: &[f32], p: &mut [u32]) -> u32
    ensures { Ends list_bits (Softmax natural x.now (length p.old)) result p.old p.new }
{
    code(earmath::ear_softmax(x, p))
}

// The loudness map of an envelope value a in the channel b, m, t, c: a step within 0.500001 of the exact map, or code 4
// or 1 and nothing written.
#[unsafe(no_mangle)]
pub extern "C" fn ear_loudness(b: f32, m: f32, t: u32, c: u32, a: f32, out: &mut u32) -> u32
    ensures { Ends itself (Loudness 255 b m t c a) result out.old out.new }
{
    write(earmath::ear_loudness(Channel { b, m, t, c }, a), out)
}

// The softmax of the floats that a list holds, in their place: within 273 / 2^32 of the quotient and from below one
// least float, or code 2 or 1 and nothing written.
#[unsafe(no_mangle)]
pub extern "C" fn ear_softmax2_in_place(p: &mut [u32]) -> u32
    ensures { Ends list_bits (Softmax two (floats_of p.old) (length p.old)) result p.old p.new }
{
    code(earmath::ear_softmax2_in_place(p))
}

// The loudness map of a stimulator with the steps 0 to top, at most 1,023: a step within 0.500004 of the exact map,
// 0.500001 where top is at most 255.
#[unsafe(no_mangle)]
pub extern "C" fn ear_loudness_top(
    top: u32,
    b: f32,
    m: f32,
    t: u32,
    c: u32,
    a: f32,
    out: &mut u32,
) -> u32
    ensures { Ends itself (Loudness top b m t c a) result out.old out.new }
{
    write(
        earmath::ear_loudness_top(top, Channel { b, m, t, c }, a),
        out,
    )
}

// The map with a knee: straight from b to k with the steps t to kk, and from k to m with the steps kk to c.
#[unsafe(no_mangle)]
pub extern "C" fn ear_loudness_knee(
    top: u32,
    b: f32,
    k: f32,
    m: f32,
    t: u32,
    kk: u32,
    c: u32,
    a: f32,
    out: &mut u32,
) -> u32
    ensures { Ends itself (LoudnessKnee top b k m t kk c a) result out.old out.new }
{
    write(
        earmath::ear_loudness_knee(
            top,
            BentChannel {
                b,
                k,
                m,
                t,
                s: kk,
                c,
            },
            a,
        ),
        out,
    )
}

// What the map needs of a channel, worked out once, in 6 words: those that ear_step takes; or code 2 or 4 and nothing
// written.
#[unsafe(no_mangle)]
pub extern "C" fn ear_fit(top: u32, b: f32, m: f32, t: u32, c: u32, words: &mut [u32]) -> u32
    ensures { Ends as_they_are (Fits (IsChannel top b m t c) (fitted_of b m t c) straight_words (length words.old)) result words.old words.new }
{
    code(earmath::ear_fit(top, Channel { b, m, t, c }, words))
}

// The same of a bent channel, in 12 words.
#[unsafe(no_mangle)]
pub extern "C" fn ear_fit_knee(
    top: u32,
    b: f32,
    k: f32,
    m: f32,
    t: u32,
    kk: u32,
    c: u32,
    words: &mut [u32],
) -> u32
    ensures { Ends as_they_are (Fits (IsBentChannel top b k m t kk c) (fitted_knee b k m t kk c) bent_words (length words.old)) result words.old words.new }
{
    code(earmath::ear_fit_knee(
        top,
        BentChannel {
            b,
            k,
            m,
            t,
            s: kk,
            c,
        },
        words,
    ))
}

// The step of an envelope value by the words of a fitted channel: the map's; or code 2, 4 or 1 and nothing written.
#[unsafe(no_mangle)]
pub extern "C" fn ear_step(words: &[u32], a: f32, out: &mut u32) -> u32
    ensures { Ends itself (Step words.now a) result out.old out.new }
{
    write(earmath::ear_step(words, a), out)
}

// The transform of 128 floats, parts 0 to 64: each within 2^-24 of its size, 2^-42 of the largest value and 2^-150, or
// code 2 or 1 and nothing written.
#[unsafe(no_mangle)]
pub extern "C" fn ear_transform128(x: &[f32], re: &mut [u32], im: &mut [u32]) -> u32
    ensures { Ends both_bits (Transform x.now (length re.old) (length im.old)) result (re.old, im.old) (re.new, im.new) }
{
    code(earmath::ear_transform128(x, re, im))
}

// The currents of up to 65 bands of a windowed frame, each within 0.504 of a step of the exact path's, or code 2, 4 or
// 1 and nothing written.
#[unsafe(no_mangle)]
pub extern "C" fn ear_currents(
    top: u32,
    x: &[f32],
    w: &[f32],
    bands: &[u32],
    out: &mut [u32],
) -> u32
    ensures { Ends as_they_are (Currents top x.now w.now bands.now (length out.old)) result out.old out.new }
{
    code(earmath::ear_currents(top, x, w, bands, out))
}

// The sum of the products of two lists: the float nearest to the exact sum, or code 2 or 1 and nothing written.
#[unsafe(no_mangle)]
pub extern "C" fn ear_dot_nearest(a: &[f32], b: &[f32], out: &mut u32) -> u32
    ensures { Ends float_bits (NearestDot a.now b.now) result out.old out.new }
{
    write(earmath::ear_dot_nearest(a, b), out)
}
