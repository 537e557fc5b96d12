// A line of the input or of the command line, as bytes.

ghost use Rattle.std.specs.Prelude.{◌≡◌, ℕ, ◌≤◌, ◌+◌, ◌∷◌, [], ◌++◌, List, length, take};

use std::marker::Model;

// Which length of a line is too long.
pub const TOO_LONG: usize = 65536;

// The bytes lie in the value itself: the program has always answered without a heap, so it cannot run out of memory.
#[derive(Drop)]
pub struct Line {
    bytes: [u8; TOO_LONG],
    len: usize,
}

impl Model for Line {
    ghost Value = { List ℕ };

    ghost view = { λ line. take line.len line.bytes };

    ghost invariant = { λ line. line.len ≤ 65536 };
}

impl Line {
    pub fn new() -> Line
        ensures { result ≡ [] }
    {
        Line {
            bytes: [0; TOO_LONG],
            len: 0,
        }
    }

    pub fn len(&self) -> usize
        ensures value { result ≡ length self.now }
        ensures most { result ≤ 65536 }
    {
        self.len
    }

    pub fn as_slice(&self) -> &[u8]
        ensures { result.now ≡ self.now }
    {
        &self.bytes[..self.len]
    }

    pub fn clear(&mut self)
        ensures { self.new ≡ [] }
    {
        self.len = 0;
    }

    // Bytes behind the others, as far as there is room.
    pub fn append(&mut self, bytes: &[u8])
        ensures cut { self.new ≡ take 65536 (self.old ++ bytes.now) }
        ensures whole { length self.old + length bytes.now ≤ 65536 → self.new ≡ self.old ++ bytes.now }
    {
        let n = (TOO_LONG - self.len).min(bytes.len());
        self.bytes[self.len..self.len + n].copy_from_slice(&bytes[..n]);
        self.len += n;
    }

    // A word of the command line and a blank, as far as there is room.
    pub fn append_word(&mut self, word: &[u8])
        ensures { self.new ≡ take 65536 (self.old ++ (word.now ++ 32 ∷ [])) }
    {
        self.append(word);
        self.append(b" ");
    }
}
