// Division of a 64-bit number by a 32-bit one, out of 32-bit divisions and products: two digits of 16 bits.

ghost use Rattle.std.specs.Prelude.{◌≡◌, ◌+◌, ◌*◌, ◌/◌, ◌^◌, ◌≤◌, ◌<◌};
ghost use Rattle.fixed.specs.Division.{IsQuotient};

// A quotient, and what is left.
#[derive(Clone, Copy)]
struct Divided {
    q: u32,
    r: u32,
}

// One digit, the quotient of r * 2^16 + b by a divisor with its top bit set. The first one tried is never too large,
// and at most 2 too small.
fn digit(r: u32, b: u32, d: u32) -> Divided
    requires { (2 ^ 31 ≤ d) × (r < d) × (b < 65536) }
    ensures { IsQuotient (r * 65536 + b) d result.q result.r × (result.q < 65536) }
{
    let w = u64::from(d);
    let q = r / (d / 65536 + 1);
    let m = u64::from(r) * 65536 + u64::from(b) - u64::from(q) * w;
    if m < w {
        Divided { q, r: m as u32 }
    } else if m < 2 * w {
        Divided {
            q: q + 1,
            r: (m - w) as u32,
        }
    } else {
        Divided {
            q: q + 2,
            r: (m - 2 * w) as u32,
        }
    }
}

// n / d, cut off, where that has 32 digits at most: both shifted until d has its top bit set, then digit by digit.
pub fn quotient(n: u64, d: u32) -> u32
    requires { n < d * 4294967296 }
    ensures { result ≡ n / d }
{
    let z = d.leading_zeros();
    let v = d << z;
    let m = n << z;
    let h = digit((m / 4294967296) as u32, (m / 65536 % 65536) as u32, v);
    let l = digit(h.r, (m % 65536) as u32, v);
    h.q * 65536 + l.q
}

// n / (d + 1), cut off: of divisors up to 2^32.
pub fn quotient_of_next(n: u64, d: u32) -> u32
    requires { n < (d + 1) * 4294967296 }
    ensures { result ≡ n / (d + 1) }
{
    match d.checked_add(1) {
        Some(next) => quotient(n, next),
        None => (n / 4294967296) as u32,
    }
}
