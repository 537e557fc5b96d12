// The phase of an angle: how many turns it is, in units of 2^-64, whole turns left out. Angles come as the bit pattern
// of a float's size.

ghost use Rattle.std.specs.Prelude.{◌≡◌, ◌+◌, ◌-◌, ◌*◌, ◌/◌, ◌%◌, ◌^◌, ◌<◌, ◌≤◌, MatchOption};
ghost use Rattle.circle.specs.Phase.{significand_of, half_turns, word_of, joined_of, window_of, radians};

// The pattern of 2^22, which phases of pi x are below.
const LATEST: u32 = 0x4a80_0000;

// The pattern of 2^23, below which a phase is taken the short way.
const FAR: u32 = 0x4b00_0000;

// The pattern of infinity, which that of every finite size is below.
const INFINITY: u32 = 0x7f80_0000;

// The first 31 digits of 1 / (2 pi), and the first 63.
const FIRST_WORD: u32 = 0x145f_306d;

const FIRST_DIGITS: u64 = 0x145f_306d_c9c8_82a5;

// The binary digits of 1 / (2 pi), after 64 zeros. tools/circle.py prints them. What is proved of them is one test over
// all windows, in proofs/Window.antt.
static WORDS: [u32; 8] = [
    0,
    0,
    0x28be_60db,
    0x9391_054a,
    0x7f09_d5f4,
    0x7d4d_3770,
    0x36d8_a566,
    0x4f10_e410,
];

// The first 24 digits of a size.
fn significand(size: u32) -> u64
    ensures { result ≡ significand_of size }
{
    u64::from(size % 8388608 + 8388608)
}

// pi times the size, below 2^22: half as many turns. The digits are shifted to their place; above it whole turns fall
// out, and below it the rest.
#[tactic(auto, using(crate::proofs::Shifts::shifts), unfolding(crate::specs::Phase::half_turns))]
pub fn half_turns(size: u32) -> Option<u64>
    ensures { MatchOption result (0x4a800000 ≤ size) (λ phase. (size < 0x4a800000) × (phase ≡ half_turns size)) }
{
    if LATEST <= size {
        return None;
    }
    let m = significand(size);
    Some(match size / 8388608 {
        0..63 => 0,
        e @ 63..87 => (m << (e - 63)) / 16777216,
        e => m << (e - 87),
    })
}

// A word's digits from the s-th on, and the next word's first ones: shifts of 32 bits, and no digit meets another.
// `fixed::upper_word` is no twin: there no digit may fall out, and here the word's first s do.
fn joined(word: u32, next: u32, s: u32) -> u32
    requires { s < 32 }
    ensures { result ≡ joined_of word next s }
{
    (word << s) + (next / 2 >> (31 - s))
}

// The 64 digits up to the i-th after the point.
#[tactic(auto, unfolding(crate::specs::Phase::window_of))]
fn window(i: u32) -> u64
    requires { (64 ≤ i) × (i < 169) }
    ensures { result ≡ window_of i }
{
    let j = (i / 32) as usize;
    let s = i % 32;
    let high = joined(WORDS[j], WORDS[j + 1], s);
    let low = joined(WORDS[j + 1], WORDS[j + 2], s);
    u64::from(high) * 4294967296 + u64::from(low)
}

// The window at an exponent below 150 has only the first 63 digits: a shift, and no table. Below 2^-9 a word of them is
// enough. The remainder changes nothing, but tells a compiler for 32 bits that it shifts by less than a word.
fn first_window(e: u32) -> u64
    requires { e < 150 }
    ensures { result ≡ window_of (e - 86) }
{
    if e < 118 {
        return u64::from(FIRST_WORD >> (31 - e.saturating_sub(86)));
    }
    FIRST_DIGITS >> ((149 - e) % 32)
}

// The digits of a size times a window. Whole turns fall out of the product.
fn turns(size: u32, w: u64) -> u64
    ensures { result ≡ significand_of size * w % 2 ^ 64 }
{
    let m = significand(size);
    ((m * (w / 4294967296)) << 32).wrapping_add(m * (w % 4294967296))
}

// The size itself, where it is finite: its digits times the window at its exponent, which below 2^23 is a shorter one.
#[tactic(auto, unfolding(crate::specs::Phase::radians))]
pub fn radians(size: u32) -> Option<u64>
    ensures { MatchOption result (0x7f800000 ≤ size) (λ phase. (size < 0x7f800000) × (phase ≡ radians size)) }
{
    let e = size / 8388608;
    if size < FAR {
        Some(turns(size, first_window(e)))
    } else if size < INFINITY {
        Some(turns(size, window(e - 86)))
    } else {
        None
    }
}
