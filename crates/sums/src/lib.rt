// The dot product: neighbours are added in pairs, and finiteness is tested once, at the end.

#![tactic(auto)]

ghost use Rattle.std.specs.Prelude.{◌≡◌, ℕ, ◌+◌, ◌*◌, ◌/◌, ◌^◌, ◌≤◌, ◌<◌};
ghost use Rattle.std.specs.Prelude.{◌↔◌, length, slice_index_or, EachIndex, IsTrue, IfOk, IfErr};
ghost use Rattle.std.specs.Float.{nan, float_is_finite};
ghost use Rattle.std.specs.Float.Ieee.Scale.{finite};
ghost use Rattle.units.specs.declared.refusal.Refusal.TheVariants.{BadLength};
ghost use Rattle.units.specs.Answers.{float_bits};
ghost use Rattle.units.specs.Refusals.{Gives};
ghost use Rattle.sums.specs.Dot.{Lengths, Dot, dot_of};
ghost use Rattle.sums.specs.Value.{Behind, block_of, behind_last, Held};

use std::marker::PhantomData;
use units::Refusal;

// Two lists of the same length, 65,536 elements at most.
#[derive(Clone, Copy)]
struct Pair<'a> {
    a: &'a [f32],
    b: &'a [f32],
    ghost lengths: { Lengths a.now b.now },
}

impl<'a> Pair<'a> {
    fn new(a: &'a [f32], b: &'a [f32]) -> Result<Pair<'a>, Refusal>
        ensures of { IfOk result (λ p. (p.a.now ≡ a.now) × (p.b.now ≡ b.now)) }
        ensures refusal { IfErr result (λ refusal. (refusal ≡ BadLength) × (¬ Lengths a.now b.now)) }
    {
        if a.len() != b.len() || 65536 < a.len() {
            return Err(Refusal::BadLength);
        }
        Ok(Pair { a, b })
    }

    // What is left behind the first i elements.
    fn behind(self, i: usize) -> Pair<'a>
        requires { i ≤ length self.a.now }
        ensures first { Behind i self.entry.a.now result.a.now }
        ensures second { Behind i self.entry.b.now result.b.now }
    {
        Pair {
            a: &self.a[i..],
            b: &self.b[i..],
        }
    }

    // By sixteens, which the compiler puts in place: called for each block, it would not do so with thirty-twos, as a
    // `Twice` of them has it.
    fn sixty_four(self) -> f32
        requires { 64 ≤ length self.a.now }
        ensures { result ≡ block_of 6 self.entry.a.now self.entry.b.now }
    {
        let c = self.behind(32);
        (Sixteen::sum(self) + Sixteen::sum(self.behind(16)))
            + (Sixteen::sum(c) + Sixteen::sum(c.behind(16)))
    }

    // From the sum of what lies behind the last multiple of a block to that behind the last multiple of two blocks.
    fn with_block<B: Block>(self, s: f32) -> f32
        requires small { 2 ^ B.level < 2 ^ 31 }
        requires sum { s ≡ behind_last (2 ^ B.level) self.a.now self.b.now }
        ensures { result ≡ behind_last (2 ^ B.level * 2) self.entry.a.now self.entry.b.now }
    {
        let w = B::size();
        let n = self.a.len();
        if n / w % 2 == 1 {
            B::sum(self.behind(n / (w * 2) * (w * 2))) + s
        } else {
            s
        }
    }

    // The products behind the last multiple of 64, in pieces of powers of two: each piece added in pairs, and the
    // pieces from the last to the first, as neighbours in pairs come to. -0 where there are none: it changes no sum
    // that it is added to.
    fn rest(self) -> f32
        ensures { result ≡ behind_last 64 self.entry.a.now self.entry.b.now }
    {
        let n = self.a.len();
        let mut s = f32::from_bits(0x8000_0000);
        if n % 64 == 0 {
            return s;
        }
        if n % 2 == 1 {
            s = self.a[n - 1] * self.b[n - 1];
        }
        let s = self.with_block::<Two>(s);
        let s = self.with_block::<Four>(s);
        let s = self.with_block::<Eight>(s);
        let s = self.with_block::<Sixteen>(s);
        self.with_block::<ThirtyTwo>(s)
    }

    // All blocks of 64 counted, and what the tally holds added to the rest. By number: a block's number says how far
    // its carry runs.
    fn blocks(self, rest: f32) -> f32
        requires { (64 ≤ length self.a.now) × (rest ≡ behind_last 64 self.a.now self.b.now) }
        ensures { result ≡ dot_of self.entry.a.now self.entry.b.now }
    {
        let mut tally = Tally { held: [rest; 11] };
        for i in 0..(self.a.len() / 64) as u32 {
            tally.carry(self, i);
        }
        tally.total(self, rest)
    }

    // The sum of the products, added in pairs.
    fn in_pairs(self) -> f32
        ensures { result ≡ dot_of self.entry.a.now self.entry.b.now }
    {
        if self.a.is_empty() {
            return 0.0;
        }
        let s = self.rest();
        if self.a.len() < 64 {
            return s;
        }
        self.blocks(s)
    }
}

// The first 2^level products of a pair, added in pairs. A list is cut and not indexed further on: the places of a block
// are then fixed distances from its first, which the chip adds for nothing.
trait Block {
    ghost level: { ℕ };

    fn size() -> usize
        requires { 2 ^ level < 2 ^ 32 }
        ensures { result ≡ 2 ^ level };

    fn sum(pair: Pair<'_>) -> f32
        requires { 2 ^ level ≤ length pair.a.now }
        ensures { result ≡ block_of level pair.entry.a.now pair.entry.b.now };
}

// Two products. As `Twice` it is never made: the type alone says how long a block is, so that nothing is derived.
struct Two;

impl Block for Two {
    ghost level = { 1 };

    fn size() -> usize {
        2
    }

    fn sum(pair: Pair<'_>) -> f32 {
        pair.a[0] * pair.b[0] + pair.a[1] * pair.b[1]
    }
}

// The sum of two blocks, one behind the other.
struct Twice<B> {
    half: PhantomData<B>,
}

type Four = Twice<Two>;

type Eight = Twice<Four>;

type Sixteen = Twice<Eight>;

type ThirtyTwo = Twice<Sixteen>;

impl<B: Block> Block for Twice<B> {
    ghost level = { B.level + 1 };

    fn size() -> usize {
        2 * B::size()
    }

    fn sum(pair: Pair<'_>) -> f32 {
        B::sum(pair) + B::sum(pair.behind(B::size()))
    }
}

// The sums of 1, 2, 4, .. blocks of 64 products, as the digits of a binary number. They are lent, and neither copied
// nor compared.
#[derive(Drop)]
struct Tally {
    held: [f32; 11],
}

impl Tally {
    // Block i of 64 products: two sums of as many blocks become one of twice as many, as a carry does, through
    // the lowest digits of i that are 1.
    fn carry(&mut self, pair: Pair<'_>, i: u32)
        requires { (i < 1024) × (64 * i + 64 ≤ length pair.a.now) × Held pair.a.now pair.b.now i self.old.held }
        ensures { Held pair.entry.a.now pair.entry.b.now (i + 1) self.new.held }
    {
        let mut s = pair.behind((64 * i) as usize).sixty_four();
        let places = i.trailing_ones() as usize;
        for l in 0..places {
            s = self.held[l] + s;
        }
        self.held[places] = s;
    }

    // What it holds of all blocks, added to the rest, from the last piece to the first.
    fn total(&self, pair: Pair<'_>, rest: f32) -> f32
        requires held { (64 ≤ length pair.a.now) × Held pair.a.now pair.b.now (length pair.a.now / 64) self.now.held }
        requires rest { rest ≡ behind_last 64 pair.a.now pair.b.now }
        ensures { result ≡ dot_of pair.entry.a.now pair.entry.b.now }
    {
        let mut s = rest;
        let mut l = 0;
        let mut c = (pair.a.len() / 64) as u32;
        // A `while`: it ends behind the highest digit, where a `for` would go over all 11 places.
        while 0 < c {
            if c % 2 == 1 {
                s = self.held[l] + s;
            }
            l += 1;
            c /= 2;
        }
        s
    }
}

// Between the greatest float and its opposite: no NaN and no infinity. By two comparisons and no `x.is_finite()`: std
// takes x from itself, which of an infinity raises "invalid".
fn is_finite(x: f32) -> bool
    ensures told { result ≡ finite x }
    ensures value { result ≡ float_is_finite x }
{
    f32::from_bits(0xff7f_ffff) <= x && x <= f32::from_bits(0x7f7f_ffff)
}

// Is every element finite? A `for`, since `all` asks for an `Option` of a reference each time: the chip's archive is
// compiled from the module that is laid out for 64-bit addresses, and there finds the reference at another place.
fn all_finite(a: &[f32]) -> bool
    ensures { IsTrue result ↔ EachIndex a.now (λ k. IsTrue (float_is_finite (slice_index_or a.now k nan))) }
{
    for x in a {
        if !is_finite(*x) {
            return false;
        }
    }
    true
}

// The sum of the products a_i b_i; refused where lengths, an element or an intermediate result are. An infinity or a
// NaN among the elements or the intermediate results never becomes finite again: so one test, of the result, serves for
// all of them, and only where it fails a second pass tells an element from an overflow.
pub fn dot(a: &[f32], b: &[f32]) -> Result<u32, Refusal>
    ensures { Gives float_bits (Dot a.now b.now) result }
{
    let s = Pair::new(a, b)?.in_pairs();
    if is_finite(s) {
        return Ok(s.to_bits());
    }
    if all_finite(a) && all_finite(b) {
        Err(Refusal::Overflow)
    } else {
        Err(Refusal::OutOfRange)
    }
}
