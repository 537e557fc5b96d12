// The functions by their names, and their answers as text.

ghost use Rattle.std.specs.Prelude.{◌≡◌, ◌↔◌, ◌<◌, ◌≤◌, length, Some, IsErrOf};
ghost use Rattle.std.specs.Iterator.{IsFinite};
ghost use Rattle.ear.specs.declared.functions.Function.TheVariants.{Loudness};
ghost use Rattle.ear.specs.Names.{name_of, Names};

use crate::complaint::Complaint;
use crate::floats::{Floats, MOST};
use earmath::Channel;
use std::fmt;
use std::iter::once;
use units::Refusal;

#[derive(Clone, Copy, Debug, PartialEq, Eq)]
pub enum Function {
    Sqrt,
    Rsqrt,
    Exp2,
    Exp,
    Log2,
    Sinpi,
    Cospi,
    Sin,
    Cos,
    Dot,
    DotNearest,
    Softmax2,
    Softmax,
    Loudness,
}

impl Function {
    // All functions, in the order in which they are listed.
    pub const ALL: [Function; 14] = [
        Function::Sqrt,
        Function::Rsqrt,
        Function::Exp2,
        Function::Exp,
        Function::Log2,
        Function::Sinpi,
        Function::Cospi,
        Function::Sin,
        Function::Cos,
        Function::Dot,
        Function::DotNearest,
        Function::Softmax2,
        Function::Softmax,
        Function::Loudness,
    ];

    fn name(self) -> &'static str
        ensures { result.now ≡ name_of self }
    {
        match self {
            Function::Sqrt => "sqrt",
            Function::Rsqrt => "rsqrt",
            Function::Exp2 => "exp2",
            Function::Exp => "exp",
            Function::Log2 => "log2",
            Function::Sinpi => "sinpi",
            Function::Cospi => "cospi",
            Function::Sin => "sin",
            Function::Cos => "cos",
            Function::Dot => "dot",
            Function::DotNearest => "dot_nearest",
            Function::Softmax2 => "softmax2",
            Function::Softmax => "softmax",
            Function::Loudness => "loudness",
        }
    }
}

impl fmt::Display for Function {
    ghost output = { λ function. Some (name_of function) };

    fn fmt<W: fmt::Write>(&self, f: &mut fmt::Formatter<W>) -> fmt::Result {
        f.write_str(self.name())
    }
}

// The function that a word names.
impl<'a> TryFrom<&'a [u8]> for Function {
    type Error = Complaint<'a>;

    ghost try_from_gives = { λ word answer. Names word.now answer };

    fn try_from(word: &'a [u8]) -> Result<Function, Complaint<'a>> {
        Function::ALL
            .iter()
            .copied()
            .find(|function| function.name().as_bytes() == word)
            .ok_or(Complaint::NoFunction(word))
    }
}

// Results and refusals in one line, with a blank between two.
fn listed<W: fmt::Write, I: Iterator<Item = Result<u32, Refusal>>>(
    f: &mut fmt::Formatter<W>,
    answers: I,
) -> fmt::Result
where
    I: Drop,
    requires can { I.can_next answers }
    requires ends { IsFinite (I.remaining answers) }
{
    let mut is_first = true;
    for answer in answers {
        if !is_first {
            f.write_str(" ")?;
        }
        is_first = false;
        match answer {
            Ok(bits) => write!(f, "{bits:08x}")?,
            Err(refusal) => write!(f, "{refusal}")?,
        }
    }
    Ok(())
}

// A function of one argument, at each of the floats.
fn each<W: fmt::Write, F: Fn(f32) -> Result<u32, Refusal>>(
    f: &mut fmt::Formatter<W>,
    floats: &[f32],
    function: F,
) -> fmt::Result
    requires { F.IsAlwaysCallable function }
{
    listed(f, floats.iter().map(|x| function(*x)))
}

// A function of two lists, of the first half and the second.
fn halves<W: fmt::Write, F: Fn(&[f32], &[f32]) -> Result<u32, Refusal>>(
    f: &mut fmt::Formatter<W>,
    floats: &[f32],
    function: F,
) -> fmt::Result
    requires { F.IsAlwaysCallable function }
{
    let (a, b) = floats.split_at(floats.len() / 2);
    listed(f, once(function(a, b)))
}

// The weight of each of the floats among all of them, or one refusal.
fn weights<W: fmt::Write, F: Fn(&[f32], &mut [u32]) -> Result<(), Refusal>>(
    f: &mut fmt::Formatter<W>,
    floats: &[f32],
    function: F,
) -> fmt::Result
    requires call { F.IsAlwaysCallable function }
    requires most { length floats.now ≤ 2048 }
{
    let mut buffer = [0; MOST];
    let weights = &mut buffer[..floats.len()];
    match function(floats, weights) {
        Ok(()) => listed(f, weights.iter().map(|weight| Ok(*weight))),
        Err(refusal) => listed(f, once(Err(refusal))),
    }
}

// A step for each of the values behind the channel b, m, T, C.
fn loudness<W: fmt::Write>(f: &mut fmt::Formatter<W>, floats: &[f32]) -> fmt::Result
    requires { 4 ≤ length floats.now }
{
    let (channel, values) = floats.split_at(4);
    let channel = Channel {
        b: channel[0],
        m: channel[1],
        t: fixed::bits_of(channel[2]),
        c: fixed::bits_of(channel[3]),
    };
    each(f, values, |a| earmath::ear_loudness(channel, a))
}

// What a function answers to floats. It is computed as it is written, since there is no room for its text.
#[derive(Drop)]
pub struct Answer<'a> {
    function: Function,
    floats: &'a [f32],
    ghost most: { length floats.now ≤ 2048 },
    ghost values: { function ≡ Loudness → 4 < length floats.now },
}

impl<'a> Answer<'a> {
    pub fn new(function: Function, floats: &'a Floats) -> Result<Answer<'a>, Complaint<'static>>
        ensures { IsErrOf result Complaint.NoValue ↔ (function ≡ Function.Loudness) × (length floats.now < 5) }
    {
        let floats = floats.as_slice();
        if matches!(function, Function::Loudness) && floats.len() < 5 {
            return Err(Complaint::NoValue);
        }
        Ok(Answer { function, floats })
    }
}

// A match and no table of functions: `rt ci` refuses a function pointer that is handed out.
impl fmt::Display for Answer<'_> {
    fn fmt<W: fmt::Write>(&self, f: &mut fmt::Formatter<W>) -> fmt::Result {
        match self.function {
            Function::Sqrt => each(f, self.floats, earmath::ear_sqrt),
            Function::Rsqrt => each(f, self.floats, earmath::ear_rsqrt),
            Function::Exp2 => each(f, self.floats, earmath::ear_exp2),
            Function::Exp => each(f, self.floats, earmath::ear_exp),
            Function::Log2 => each(f, self.floats, earmath::ear_log2),
            Function::Sinpi => each(f, self.floats, earmath::ear_sinpi),
            Function::Cospi => each(f, self.floats, earmath::ear_cospi),
            Function::Sin => each(f, self.floats, earmath::ear_sin),
            Function::Cos => each(f, self.floats, earmath::ear_cos),
            Function::Dot => halves(f, self.floats, earmath::ear_dot),
            Function::DotNearest => halves(f, self.floats, earmath::ear_dot_nearest),
            Function::Softmax2 => weights(f, self.floats, earmath::ear_softmax2),
            Function::Softmax => weights(f, self.floats, earmath::ear_softmax),
            Function::Loudness => loudness(f, self.floats),
        }
    }
}
