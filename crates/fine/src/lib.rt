// 2^t - 1 for a fraction t, to 58 digits after the point: by Horner's rule on the power series, in words of 64 bits out
// of products of 32. It takes ten times what a power in 32 digits takes, and is asked where that leaves open which
// float is the nearest.

#![tactic(auto)]

ghost use Rattle.std.specs.Prelude.{◌≡◌, ◌*◌, ◌/◌, ◌^◌, ◌≤◌};
ghost use Rattle.fine.specs.Value.{fine_of};

// The power series of 2^t after the 1, in units of 2^-64, cut off, the highest power first; tools/enclosure.py finds
// the coefficients. Up to some power what is made of them is one word, and two of a product's four parts are enough.
// The loops over them are unrolled: no table is left in the machine code.
const FIRST: u32 = 0x66;

static SHORT: [u32; 5] = [0x9c7, 0xe1b7, 0x13_1496, 0x181_6193, 0x1c3b_d650];

static LONG: [u64; 11] = [
    0x1_e8ca_c735,
    0x1e_4cf5_158b,
    0x1b5_253d_395e,
    0x162c_0223_a5c8,
    0xffe5_fe2c_4586,
    0xa_1848_97c3_63c3,
    0x57_61ff_9e29_9cc4,
    0x276_556d_f749_cee5,
    0xe35_846b_8250_5fc5,
    0x3d7f_7bff_058b_1d50,
    0xb172_17f7_d1cf_79ab,
];

// The upper half of a product of two words of 64 bits: of three of its four parts with what they carry, which one
// `fixed::upper_product` is too short for.
fn upper(p: u64, t: u64) -> u64
    ensures value { result ≡ p * t / 2 ^ 64 }
    ensures below { result ≤ p }
{
    let low = (p % 4294967296) * (t % 4294967296);
    let first = (p / 4294967296) * (t % 4294967296) + low / 4294967296;
    let second = (p % 4294967296) * (t / 4294967296) + first % 4294967296;
    (p / 4294967296) * (t / 4294967296) + first / 4294967296 + second / 4294967296
}

// 2 to the power t / 2^64, less 1, in units of 2^-64: at most 63 of them below, and never above.
pub fn fine(t: u64) -> u64
    ensures { result ≡ fine_of t }
{
    let mut word = FIRST;
    for c in &SHORT {
        word = *c + upper(u64::from(word), t) as u32;
    }
    let mut words = u64::from(word);
    for c in &LONG {
        words = *c + upper(words, t);
    }
    upper(words, t)
}
