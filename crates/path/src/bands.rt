// The bands: six words each, the bins from low to high, the patterns of the levels b and m, the steps t and c.

ghost use Rattle.std.specs.Prelude.{◌≡◌, ℕ, ◌<◌, length, MatchResult};
ghost use Rattle.units.specs.declared.refusal.Refusal.TheVariants.{BadChannel};
ghost use Rattle.path.specs.Path.{Band as IsBand};
ghost use Rattle.path.specs.Steps.{envelope_of};
ghost use Rattle.path.specs.Ready.{words_of, Accepted, AllBands, current_of, SteppedBy};

use crate::sizes::Sizes;
use loudness::{Channel, Segment};
use units::Refusal;

// The pattern of 1, and a sum of sizes that makes it.
pub const ONE: u32 = 0x3f80_0000;

const FULL: u64 = 0x0100_0000_0000_0000;

// Refused: six words with bins out of order or above 64, or that make no channel of a stimulator with the steps 0
// to top.
fn check(top: u32, words: &[u32; 6]) -> Result<(), Refusal>
    ensures { MatchResult result (λ _. Accepted top words.now) (λ e. (e ≡ BadChannel) × ¬ IsBand top words.now 0) }
{
    let [low, high, b, m, t, c] = *words;
    if high < low || 64 < high || ONE < b || ONE < m {
        return Err(Refusal::BadChannel);
    }
    let channel = Channel {
        b: f32::from_bits(b),
        m: f32::from_bits(m),
        t,
        c,
    };
    if channel.suits(top) {
        Ok(())
    } else {
        Err(Refusal::BadChannel)
    }
}

// A sum over 64 as a float, at most 1.
fn envelope(s: u64) -> f32
    ensures { result ≡ envelope_of s }
{
    if FULL <= s {
        f32::from_bits(ONE)
    } else {
        f32::from_bits(fixed::nearest_bits(s, 133))
    }
}

// Six words for each band, all of them accepted with the steps 0 to top.
#[derive(Clone, Copy)]
pub struct Bands<'a> {
    pub top: u32,
    pub words: &'a [[u32; 6]],
    pub ghost accepted: { (i : ℕ) → i < length words.now → Accepted top (words_of words.now i) },
}

impl<'a> Bands<'a> {
    // Refused: words of which six make no band.
    pub fn accept(top: u32, words: &'a [[u32; 6]]) -> Result<Bands<'a>, Refusal>
        ensures { MatchResult result
            (λ b. (b.words.now ≡ words.now) × AllBands top words.now)
            (λ e. (e ≡ BadChannel) × ¬ AllBands top words.now) }
    {
        for six in words {
            check(top, six)?;
        }
        Ok(Bands { top, words })
    }

    // The current of the band i. Its words are read a second time, here: a band that `check` answers and that is
    // unwrapped here was tried, and the chip made all tests again, 22 instructions a band.
    fn current(&self, i: usize, sizes: Sizes) -> u32
        requires { i < length self.now.words.now }
        ensures { result ≡ current_of sizes.entry.words.now (words_of self.now.words.now i) }
    {
        let [low, high, b, m, t, c] = self.words[i];
        let channel = Channel {
            b: f32::from_bits(b),
            m: f32::from_bits(m),
            t,
            c,
        };
        Segment { channel }.step(envelope(sizes.sum(low, high)))
    }

    // Those of all of them. By one index and no `zip`, which is wrong on the chip (docs/DECISIONS.md).
    pub fn steps(&self, sizes: Sizes, out: &mut [u32])
        requires { length self.now.words.now ≡ length out.old }
        ensures { SteppedBy sizes.entry.words.now self.now.words.now (length out.old) out.new }
    {
        for (i, step) in out.iter_mut().enumerate() {
            *step = self.current(i, sizes);
        }
    }
}
