// Square root and reciprocal root: whole numbers inside, one pattern put together at the end.

#![tactic(auto)]

mod guess;

ghost use Rattle.std.specs.Prelude.{◌≡◌, ℕ, ◌+◌, ◌-◌, ◌*◌, ◌/◌, ◌^◌, ◌<◌, ◌≤◌, true, false};
ghost use Rattle.units.specs.Answers.{float_bits};
ghost use Rattle.units.specs.Refusals.{Gives};
ghost use Rattle.units.specs.Units.{Positive};
ghost use Rattle.roots.specs.Value.{IsNear, sqrt_bits, IsNearRecip, rsqrt_bits};
ghost use Rattle.roots.specs.Sqrt.{Sqrt};
ghost use Rattle.roots.specs.Rsqrt.{Rsqrt};

use fixed::Parts;
use units::Refusal;

// The pattern of the least normal float.
const LEAST_NORMAL: u32 = 0x0080_0000;

// The pattern of infinity, which that of every finite float above zero is below.
const INFINITY: u32 = 0x7f80_0000;

// Whether s is the whole number nearest to the root of n, in one test: n - s^2 + s - 1 is from 0 to 2 s - 1, and below
// 0 it wraps to far more.
fn is_root(n: u64, s: u32) -> bool
    requires { (n < 2 ^ 48) × (s < 2 ^ 26) }
    ensures { result ≡ true → IsNear n s }
{
    let w = u64::from(s);
    (n + w).wrapping_sub(w * w + 1) < 2 * w
}

// The least number that is not too small, whatever the guess: up while it is too small, down while the one below is
// not. Two loops walk a counter, since `find` in a range would answer an Option, and nearly always no step is taken.
// That a guess is below 2^26 stands in the contracts and in no type: it is counted up and down.
fn settle<F: Fn(u32) -> bool>(guess: u32, is_too_small: F) -> u32
    requires digits { guess < 2 ^ 26 }
    requires may { (s : ℕ) → s < 2 ^ 26 → F.pre is_too_small s }
    requires room_above { (s : ℕ) → s < 2 ^ 26 → F.post is_too_small s true → s + 1 < 2 ^ 26 }
    requires room_below { ¬ F.post is_too_small 0 false }
    ensures enough { F.post is_too_small result false }
    ensures least { F.post is_too_small (result - 1) true }
    ensures above_zero { 0 < result }
{
    let mut s = guess;
    while is_too_small(s) {
        s += 1;
    }
    while !is_too_small(s - 1) {
        s -= 1;
    }
    s
}

// The whole number nearest to the root of n, whatever the guess: nearly always it is the guess.
fn settle_root(n: u64, guess: u32) -> u32
    requires { (2 ^ 46 ≤ n) × (n < 2 ^ 48) × (guess < 2 ^ 26) }
    ensures { IsNear n result }
{
    if is_root(n, guess) {
        return guess;
    }
    settle(
        guess,
        move |s| u64::from(s) * u64::from(s) + u64::from(s) < n,
    )
}

// The same from the number alone: its first 24 digits give the guess, as a float's would.
pub fn nearest_root(n: u64) -> u64
    requires { (2 ^ 46 ≤ n) × (n < 2 ^ 48) }
    ensures { IsNear n result }
{
    let odd = (n / 140737488355328) as u32;
    u64::from(settle_root(n, guess::root((n / 8388608) as u32 >> odd, odd)))
}

// The root of a float above zero, as a bit pattern: n has 47 or 48 digits, its root 24.
fn root_bits(x: f32) -> u32
    requires { Positive x }
    ensures { result ≡ sqrt_bits x }
{
    let Parts { m, e } = fixed::apart(x);
    let n = u64::from(m << (e % 2)) * 8388608;
    (e / 2 + 51) * 8388608 + settle_root(n, guess::root(m, e))
}

// The nearest float to the root of x, of a zero the same zero; a NaN, what is below zero and an infinity are refused.
// One test of the pattern tells the normal floats above zero. The zeros are told one by one: of one test for both the
// compiler makes one of floats, which takes a subnormal for a zero where the float unit reads it so.
pub fn sqrt(x: f32) -> Result<u32, Refusal>
    ensures { Gives float_bits (Sqrt x) result }
{
    if x.is_nan() {
        return Err(Refusal::OutOfRange);
    }
    let b = x.to_bits();
    if !(LEAST_NORMAL..INFINITY).contains(&b) {
        match b {
            0 => return Ok(0),
            0x8000_0000 => return Ok(0x8000_0000),
            _ if LEAST_NORMAL <= b => return Err(Refusal::OutOfRange),
            _ => {}
        }
    }
    Ok(root_bits(x))
}

// (2 h + 1)^2 m in steps of 2 ^ 64, cut off: the product has up to 78 digits, and is taken in two limbs.
fn odd_square(h: u32, m: u32) -> u32
    requires { (h < 2 ^ 26) × (m < 2 ^ 24) }
    ensures { result ≡ (2 * h + 1) * (2 * h + 1) * m / 18446744073709551616 }
{
    let o = u64::from(2 * h + 1);
    let a = o * o;
    let low = fixed::upper_product((a % 4294967296) as u32, m);
    ((a / 4294967296 * u64::from(m) + u64::from(low)) / 4294967296) as u32
}

// The whole number nearest to the root of t 2 ^ 62 / m, whatever the guess.
fn settle_reciprocal(m: u32, t: u32, guess: u32) -> u32
    requires { (2 ^ 23 ≤ m) × (m < 2 ^ 24) × (1 ≤ t) × (t ≤ 2 ^ 9) × (guess < 2 ^ 26) }
    ensures { IsNearRecip (t * 2 ^ 62) m result }
{
    settle(guess, move |h| odd_square(h, m) < t)
}

// The reciprocal root of a float above zero, as a bit pattern: the power of two over the significand has 47 or 48
// digits before the point, its root 24.
fn reciprocal_bits(x: f32) -> u32
    requires { Positive x }
    ensures { result ≡ rsqrt_bits x }
{
    let Parts { m, e } = fixed::apart(x);
    let k = 401 - e;
    k / 2 * 8388608 + settle_reciprocal(m, 1 << (8 + k % 2), guess::reciprocal(m, e))
}

// The nearest float to 1 over the root of x; a NaN, what is at most zero and an infinity are refused.
pub fn rsqrt(x: f32) -> Result<u32, Refusal>
    ensures { Gives float_bits (Rsqrt x) result }
{
    if x.is_nan() || !(1..INFINITY).contains(&x.to_bits()) {
        return Err(Refusal::OutOfRange);
    }
    Ok(reciprocal_bits(x))
}
