// Softmax of either base: the powers as whole numbers, one sum of them, one division, and one rounding for each output.
// What is weighed is another list, or the floats whose patterns the places of the outputs hold.

#![tactic(auto)]

mod scaling;
mod sources;

ghost use Rattle.std.specs.Prelude.{◌≡◌, map, ℕ, ◌+◌, ◌-◌, ◌*◌, ◌/◌, ◌%◌, ◌^◌, ◌≤◌, ◌<◌, length};
ghost use Rattle.std.specs.Float.{binary32};
ghost use Rattle.std.specs.Float.Ieee.{of_bits};
ghost use Rattle.units.specs.Answers.{Ends, list_bits};
ghost use Rattle.units.specs.Refusals.{code_in};
ghost use Rattle.units.specs.Tests.{Tells};
ghost use Rattle.powers.specs.Base.{two, natural};
ghost use Rattle.powers.specs.Fixed.{fixed_exponent};
ghost use Rattle.weights.specs.Lists.{at, sum};
ghost use Rattle.weights.specs.Softmax.{Element, floats_of, Softmax};
ghost use Rattle.weights.specs.Value.{key_of, pattern_of, top_key, share_at, factor_of, places_of, weight_bits};
ghost use Rattle.weights.specs.Weight.{source_of, Sized, Weighable, IsJudged, DigitsIn, Kept, Weighs, power_sum, AtMostOne};

use powers::bases::{Base, Natural, Two};
use powers::fixed_point;
use scaling::Factor;
use sources::{InPlace, Source};
use units::Refusal;

// From -64 to 64: the pattern of the size tells, of a NaN too.
fn is_accepted(b: u32) -> bool
    ensures { Tells (Element (of_bits binary32 b)) result }
{
    b % 2147483648 <= 0x4280_0000
}

// A number in the order of the floats, of which `max` finds the largest. By hand, since std has no such key.
fn key(b: u32) -> u32
    ensures { result ≡ key_of b }
{
    if b < 2147483648 {
        b + 2147483648
    } else {
        4294967295 - b
    }
}

// The pattern with that key.
fn unlocked(k: u32) -> u32
    ensures { result ≡ pattern_of k }
{
    if k < 2147483648 {
        4294967295 - k
    } else {
        k - 2147483648
    }
}

// The largest key of all elements, where every one is accepted. Source and places, x and p, stay two parameters here
// and below: in place the source is p itself and is written over, so that a struct of both would have no lasting
// invariant.
fn judge<S: Source>(x: S, p: &[u32]) -> Result<u32, Refusal>
    requires { Sized (S.source x) p.now × (length p.now ≤ 1024) }
    ensures { IsJudged (source_of (S.source x) p.now) result }
{
    // All three loops go by an index, since the source may be p itself. It is a u32: a usize has 64 bits, and the
    // chip's registers have 32.
    let n = p.len() as u32;
    let mut top: u32 = 0;
    for i in 0..n {
        let b = x.pattern(p, i as usize);
        if !is_accepted(b) {
            return Err(Refusal::OutOfRange);
        }
        top = top.max(key(b));
    }
    Ok(top)
}

// The sum of all powers in steps of 2^(e - 178), each rounded up: what is left of its digits, and one step more. The
// digits are kept.
fn total<B: Base, S: Source>(x: S, p: &mut [u32], e: u32) -> u64
    requires judged { Weighable (S.source x) p.old }
    requires most { (i : ℕ) → i < length p.old → fixed_exponent B.base (at (source_of (S.source x) p.old) i) ≤ e }
    ensures value { result ≡ sum (share_at B.base e (source_of (S.source x) p.old)) (length p.old) }
    ensures kept { Kept B.base (S.source x) p.old p.new }
{
    let n = p.len() as u32;
    let mut s = u64::from(n);
    for j in 0..n {
        let i = j as usize;
        let c = fixed_point::argument::<B>(x.element(p, i));
        let q = fixed_point::digits(c);
        x.keep(p, i, q);
        s += scaling::left(q, e - fixed_point::exponent(c));
    }
    s
}

// One over the sum of the powers of all elements, the largest of which has the key k; their digits are kept.
fn scale<B: Base, S: Source>(x: S, p: &mut [u32], k: u32) -> Factor
    requires judged { Weighable (S.source x) p.old }
    requires some { 0 < length p.old }
    requires top { k ≡ top_key (source_of (S.source x) p.old) }
    ensures factor { result.r ≡ factor_of B.base (source_of (S.source x) p.old) }
    ensures places { result.c ≡ places_of B.base (source_of (S.source x) p.old) }
    ensures kept { Kept B.base (S.source x) p.old p.new }
{
    let top = f32::from_bits(unlocked(k));
    let e = fixed_point::exponent(fixed_point::argument::<B>(top));
    let s = total::<B, S>(x, p, e);
    scaling::reciprocal(s, e)
}

// All weights, of a list whose digits were kept.
fn fill<B: Base, S: Source>(x: S, p: &mut [u32], factor: Factor)
    requires judged { Weighable (S.source x) p.old }
    requires digits { DigitsIn B.base (S.source x) p.old }
    requires at_most_one { AtMostOne (power_sum B.base (source_of (S.source x) p.old)) factor.r factor.c }
    ensures { p.new ≡ map (weight_bits B.base factor.r factor.c) (source_of (S.source x) p.old) }
{
    let n = p.len() as u32;
    for k in 0..n {
        let i = k as usize;
        let a = fixed_point::argument::<B>(x.element(p, i));
        p[i] = factor.weight(x.digits(p, i, a), fixed_point::exponent(a));
    }
}

// The weights of the list; refused, and nothing written, where its length or an element is not accepted.
fn weigh<B: Base, S: Source>(x: S, p: &mut [u32]) -> Result<(), Refusal>
    requires { Sized (S.source x) p.old }
    ensures { Ends list_bits (Weighs B.base (S.source x) p.old) (code_in result) p.old p.new }
{
    if !(1..=1024).contains(&p.len()) {
        return Err(Refusal::BadLength);
    }
    let top = judge(x, p)?;
    let factor = scale::<B, S>(x, p, top);
    fill::<B, S>(x, p, factor);
    Ok(())
}

// The same of x, into another list; refused too where that has another length.
fn weigh_into<B: Base>(x: &[f32], p: &mut [u32]) -> Result<(), Refusal>
    ensures { Ends list_bits (Softmax B.base x.now (length p.old)) (code_in result) p.old p.new }
{
    if x.len() != p.len() {
        return Err(Refusal::BadLength);
    }
    weigh::<B, &[f32]>(x, p)
}

// 2 to the power of each element over the sum of all these powers; refused, and nothing written, where lengths or an
// element are not accepted.
pub fn softmax2(x: &[f32], p: &mut [u32]) -> Result<(), Refusal>
    ensures { Ends list_bits (Softmax two x.now (length p.old)) (code_in result) p.old p.new }
{
    weigh_into::<Two>(x, p)
}

// The same of the floats whose patterns the list holds, in their place.
pub fn softmax2_in_place(p: &mut [u32]) -> Result<(), Refusal>
    ensures { Ends list_bits (Softmax two (floats_of p.old) (length p.old)) (code_in result) p.old p.new }
{
    weigh::<Two, InPlace>(InPlace, p)
}

// e to the power of each element over the sum of all these powers, likewise.
pub fn softmax(x: &[f32], p: &mut [u32]) -> Result<(), Refusal>
    ensures { Ends list_bits (Softmax natural x.now (length p.old)) (code_in result) p.old p.new }
{
    weigh_into::<Natural>(x, p)
}
