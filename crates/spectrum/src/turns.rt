// The turns of the butterflies. tools/turns.py finds them. What is proved of them are tests over all rows, in
// proofs/Turning.antt and proofs/Cosines.antt.

ghost use Rattle.std.specs.Prelude.{◌≡◌, ◌*◌, ◌≤◌, ◌<◌, [], ◌∷◌};
ghost use Rattle.spectrum.specs.Table.{entry};
ghost use Rattle.spectrum.specs.Words.{row_of};

use super::words::UNIT;

// 8 times the cosine and the sine of j / 128 turns, in units of 2^-61; z = 2^62 - (c + s) / 8 and
// y = 2^62 + (s - c) / 8.
#[derive(Clone, Copy, Debug, PartialEq, Eq)]
pub struct Turn {
    pub c: u64,
    pub s: u64,
    pub z: u64,
    pub y: u64,
}

// 8 times the cosines of 1 / 128, 2 / 128, .. 31 / 128 turns.
// The sine of j / 128 turns is the cosine of (32 - j) / 128.
static COSINES: [u64; 31] = [
    0xffb10f1bcb6bef20,
    0xfec46d1e89292cf0,
    0xfd3aabf84528b508,
    0xfb14be7fbae58158,
    0xf853f7dc9186b950,
    0xf4fa0ab6316ed2f0,
    0xf1090827b4372600,
    0xec835e79946a3148,
    0xe76bd7a1e63b9788,
    0xe1c5978c05ed8690,
    0xdb941a28cb71ec88,
    0xd4db3148750d1818,
    0xcd9f023f9c3a05a0,
    0xc5e40358a8ba05a8,
    0xbdaef913557d76f0,
    0xb504f333f9de6488,
    0xabeb49a46764fd18,
    0xa267992848eeb0c0,
    0x987fbfe70b81a708,
    0x8e39d9cd73464368,
    0x839c3cc917ff6cb8,
    0x78ad74e01bd8ec78,
    0x6d744027857300b0,
    0x61f78a9abaa58b48,
    0x563e69d6ac7f73f8,
    0x4a5018bb567c16a0,
    0x3e33f2f642be3560,
    0x31f17078d34c1570,
    0x259020dd1cc27448,
    0x1917a6bc29b42be0,
    0x0c8fb2f886ec09f0,
];

// 8 times the cosine of j / 128 turns.
#[inline]
fn cosine(j: u32) -> u64
    requires { (1 ≤ j) × (j < 32) }
    ensures { result ≡ 8 * entry j }
{
    COSINES[(j - 1) as usize]
}

// The row j, 1 to 31. A bare number here and in `words`, since a butterfly has it as a product, k times a stage's st.
pub fn row(j: u32) -> Turn
    requires { (1 ≤ j) × (j < 32) }
    ensures { (result.c ∷ result.s ∷ result.z ∷ result.y ∷ []) ≡ row_of j }
{
    let c = cosine(j);
    let s = cosine(32 - j);
    Turn {
        c,
        s,
        z: 2 * UNIT - (c / 8 + s / 8),
        y: 2 * UNIT + s / 8 - c / 8,
    }
}
