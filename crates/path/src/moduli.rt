// The sizes of the parts: |X_k| in units of 2^-50.

ghost use Rattle.std.specs.Prelude.{◌≡◌, ℕ, ◌+◌, ◌*◌, ◌/◌, ◌<◌, ◌≤◌, ◌^◌, get_or};
ghost use Rattle.path.specs.Steps.{rooted, Rooted, modulus_of, Modulus, real_size, imaginary_size, Moduli, part_most, Parts};

use spectrum::words::UNIT;

// From here on a sum of squares has 63 digits.
const LONG: u64 = 0x4000_0000_0000_0000;

// The root of the squares n of parts that were shifted up by z places. Two cuts by known shifts: one by a shift that is
// computed takes the chip more instructions.
fn rooted(n: u64, z: u32) -> u64
    requires { (2 ^ 60 ≤ n) × (n < 2 ^ 63) × (z < 64) }
    ensures { (result ≡ rooted n z) × Rooted n z result }
{
    if LONG <= n {
        (roots::nearest_root(n / 65536) << 38) >> z
    } else {
        (roots::nearest_root(n / 16384) << 37) >> z
    }
}

// The first 31 digits of x, shifted up by z places.
fn first(x: u64, z: u32) -> u64
    requires { (z < 64) × (x * 2 ^ z < 2 ^ 64) }
    ensures { result ≡ x * 2 ^ z / 8589934592 }
{
    (x << z) / 8589934592
}

// The sizes of the real and of the imaginary part of an X_k.
#[derive(Clone, Copy, Debug, PartialEq, Eq)]
struct Part {
    re: u64,
    im: u64,
    ghost real_fits: { re ≤ part_most },
    ghost imaginary_fits: { im ≤ part_most },
}

impl Part {
    // The part k of a block; the first and the last have no imaginary part.
    fn of(r: &[u64; 128], k: usize) -> Part
        requires { (k ≤ 64) × Parts r.now }
        ensures { (result.re ≡ real_size r.now k) × (result.im ≡ imaginary_size r.now k) }
    {
        Part {
            re: r[k].abs_diff(UNIT),
            im: if k % 64 == 0 {
                0
            } else {
                r[128 - k].abs_diff(UNIT)
            },
        }
    }

    // The root of re^2 + im^2, in units eight times as large.
    fn modulus(self) -> u64
        ensures { (result ≡ modulus_of self.re self.im) × Modulus self.re self.im result }
    {
        let m = self.re.max(self.im);
        if m == 0 {
            return 0;
        }
        let z = m.leading_zeros();
        let a = first(self.re, z);
        let b = first(self.im, z);
        rooted(a * a + b * b, z)
    }
}

// The moduli of all of them, from the front of y on: the products there are done with, so that no third list is needed.
// By number: a part k is made of the words k and 128 - k.
pub fn moduli(r: &[u64; 128], y: &mut [u64; 128])
    requires { Parts r.now }
    ensures { Moduli r.now y.new }
{
    for k in 0..65 {
        y[k] = Part::of(r, k).modulus();
    }
}
