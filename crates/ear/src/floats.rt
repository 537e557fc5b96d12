// What the words of a line say, as floats.

ghost use Rattle.std.specs.Prelude.{◌≡◌, ◌≤◌, ◌<◌, ◌∷◌, [], ◌++◌, List, Float, OnOk, IfOk, length, map, take};
ghost use Rattle.ear.specs.Words.{float_of, words_of};

use crate::complaint::Complaint;
use crate::words;
use std::marker::Model;

// How many patterns a line may have.
pub const MOST: usize = 2048;

#[derive(Drop)]
pub struct Floats {
    floats: [f32; MOST],
    len: usize,
}

impl Model for Floats {
    ghost Value = { List Float };

    ghost view = { λ floats. take floats.len floats.floats };

    ghost invariant = { λ floats. floats.len ≤ 2048 };
}

impl Floats {
    pub fn new() -> Floats
        ensures { result ≡ [] }
    {
        Floats {
            floats: [0.0; MOST],
            len: 0,
        }
    }

    fn len(&self) -> usize
        ensures { result ≡ length self.now }
    {
        self.len
    }

    pub fn as_slice(&self) -> &[f32]
        ensures value { result.now ≡ self.now }
        ensures most { length result.now ≤ 2048 }
    {
        &self.floats[..self.len]
    }

    fn push(&mut self, float: f32)
        requires { length self.old < 2048 }
        ensures { self.new ≡ self.old ++ float ∷ [] }
    {
        self.floats[self.len] = float;
        self.len += 1;
    }

    // The floats that the words of a line say, in the place of those before.
    pub fn fill<'a>(&mut self, line: &'a [u8]) -> Result<(), Complaint<'a>>
        ensures each { OnOk result (self.new ≡ map float_of (words_of line.now)) }
        ensures most { OnOk result (length self.new ≤ 2048) }
    {
        self.len = 0;
        let mut rest = line;
        while let Some((word, others)) = words::split_first(rest) {
            let bits = words::pattern(word).ok_or(Complaint::NoPattern(word))?;
            if self.len() == MOST {
                return Err(Complaint::OneTooMany(word));
            }
            self.push(patterns::float(bits));
            rest = others;
        }
        Ok(())
    }
}
