// The shares of the powers in their sum, and what each is multiplied by in the end.

ghost use Rattle.std.specs.Prelude.{◌≡◌, ◌+◌, ◌-◌, ◌*◌, ◌/◌, ◌^◌, ◌≤◌};
ghost use Rattle.std.specs.Int.Count.{count_leading_zeros};
ghost use Rattle.weights.specs.Value.{inverse_of, unit_bits};
ghost use Rattle.weights.specs.Weight.{Scaling, AtMostOne};

// What is left of the digits 2^32 + q of a power in steps of an exponent that is larger by k, of 2^-20 each. Where
// none of the digits is lost, a product of 32-bit words takes half of what a shift of 64 bits takes.
pub(crate) fn left(q: u32, k: u32) -> u64
    ensures { result ≡ (q + 2 ^ 32) * 1048576 / 2 ^ k }
{
    if k <= 20 {
        let u: u32 = 1048576 >> k;
        return u64::from(q) * u64::from(u) + u64::from(u) * 4294967296;
    }
    (u64::from(q) + 4294967296).unbounded_shr(k - 20)
}

// What each power is multiplied by: r * 2^-c, up to a constant.
#[derive(Clone, Copy, Debug, PartialEq, Eq)]
pub(crate) struct Factor {
    pub(crate) r: u32,
    pub(crate) c: u32,
    ghost scaling: { Scaling r c },
}

impl Factor {
    // The pattern of a power, the digits 2^32 + q with the exponent g, times the factor: n * 2^(g + 75 - c) least
    // floats, rounded once; below 2^-125 there are 24 digits at most, and the rest is cut off; below 2^-149 nothing
    // is left.
    pub(crate) fn weight(self, q: u32, g: u32) -> u32
        requires { (g ≤ 218) × AtMostOne ((q + 2 ^ 32) * 2 ^ g) self.r self.c }
        ensures { result ≡ unit_bits ((q + 2 ^ 32) * self.r) (g + 115) self.c }
    {
        let n = (u64::from(q) + 4294967296) * u64::from(self.r);
        let e = g + 115;
        let c = self.c;
        if c < e {
            fixed::nearest_bits(n, e - c)
        } else {
            n.unbounded_shr(c + 40 - e) as u32
        }
    }
}

// The reciprocal of a sum in steps of 2^(e - 178), rounded down: 31 digits of it, by one division.
pub(crate) fn reciprocal(s: u64, e: u32) -> Factor
    requires { (2 ^ 52 ≤ s) × (33 ≤ e) × (e ≤ 218) }
    ensures { (result.r ≡ inverse_of s (count_leading_zeros 64 s)) × (result.c ≡ e - count_leading_zeros 64 s) }
{
    let z = s.leading_zeros();
    Factor {
        r: fixed::division::quotient_of_next(4611686018427387904, ((s << z) / 4294967296) as u32),
        c: e - z,
    }
}
