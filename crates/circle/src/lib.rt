// Sine and cosine, of x and of pi x: whole numbers inside, one rounding at the end. An angle is its phase, a whole
// number of 2^-64 turns.

#![tactic(auto)]

mod phase;

ghost use Rattle.std.specs.Prelude.{◌≡◌, ℕ, ◌-◌, ◌*◌, ◌/◌, ◌%◌, ◌^◌, ◌<◌, ◌≤◌, cond, Some, None, MatchResult};
ghost use Rattle.std.specs.Float.{binary32};
ghost use Rattle.std.specs.Float.Ieee.{to_bits};
ghost use Rattle.units.specs.declared.refusal.Refusal.TheVariants.{OutOfRange};
ghost use Rattle.units.specs.Answers.{float_bits};
ghost use Rattle.units.specs.Refusals.{Gives};
ghost use Rattle.units.specs.Units.{Number};
ghost use Rattle.circle.specs.Kernel.{quarter_sine};
ghost use Rattle.circle.specs.Wave.{place_of, wave_bits, half_on, quarter_on};
ghost use Rattle.circle.specs.Promise.{SinPi, CosPi, Sin, Cos};

use units::Refusal;

// A quarter and half a turn, in units of 2^-64 turns.
const QUARTER: u64 = 0x4000_0000_0000_0000;

const HALF: u64 = 0x8000_0000_0000_0000;

// One step of Horner's rule with alternating signs: the upper word of a product is taken away. Not one function with
// the step of powers, which adds: this one must not fall below zero, that one must not run over.
fn step(c: u32, p: u32, z: u32) -> u32
    requires { p ≤ c }
    ensures { (result ≡ c - p * z / 4294967296) × (result ≤ c) }
{
    c - fixed::upper_product(p, z)
}

// The sine of w / 2^32 quarter turns, in units of 2^-32: seven products of two 32-bit numbers. Its steps stand one by
// one: that none falls below zero is a fact of two neighbours among the coefficients, which a fold would need told for
// each.
fn quarter_sine(w: u32) -> u64
    ensures { result ≡ quarter_sine w }
{
    let z = fixed::upper_product(w, w);
    let p4 = step(0x000a_8033, 0x0000_396a, z);
    let p3 = step(0x0132_d0c8, p4, z);
    let p2 = step(0x1466_bbde, p3, z);
    let p1 = step(0xa55d_e723, p2, z);
    let p0 = 0xc90f_daa2 - fixed::upper_product(p1, z) / 2;
    u64::from(w) * u64::from(p0) / 2147483648
}

// How far the phase is into its quarter; in the second and the fourth, how far it is from the quarter's end.
#[tactic(auto, unfolding(crate::specs::Wave::place_of, crate::specs::Wave::forward, crate::specs::Wave::into_quarter))]
fn place(phase: u64) -> u32
    ensures { result ≡ place_of phase }
{
    let w = (phase / 1073741824 % 4294967296) as u32;
    if phase / QUARTER % 2 == 0 {
        w
    } else {
        u32::MAX - w
    }
}

// The bit pattern of the sine of a phase: the size in its quarter, and the sign of its half. Where nothing is left it
// is +0.
fn wave_bits(phase: u64) -> u32
    ensures { result ≡ wave_bits phase }
{
    let n = quarter_sine(place(phase));
    if n == 0 {
        return 0;
    }
    (phase / HALF) as u32 * 0x8000_0000 + fixed::nearest_bits(n, 157)
}

// An angle: the phase of its size, and its sign. A bool and no enum of two signs: `sine` takes it as none or one half
// of a turn, with no branch.
#[derive(Clone, Copy, Debug, PartialEq, Eq)]
struct Angle {
    phase: u64,
    is_negative: bool,
}

impl Angle {
    // The angle of x by the phase of its size, given as a bit pattern, where that has one.
    fn of<F: FnOnce(u32) -> Option<u64>>(x: f32, phase_of: F) -> Result<Angle, Refusal>
        requires { (size : ℕ) → size < 2 ^ 31 → F.pre phase_of size }
        ensures { let b = to_bits binary32 x in
            let phase_is = F.post phase_of (b % 2147483648) in
            MatchResult result
            (λ angle. phase_is (Some angle.phase) × (cond angle.is_negative 1 0 ≡ b / 2147483648))
            (λ refusal. (refusal ≡ OutOfRange) × (Number x → phase_is None)) }
    {
        if x.is_nan() {
            return Err(Refusal::OutOfRange);
        }
        let b = x.to_bits();
        let phase = phase_of(b % 0x8000_0000).ok_or(Refusal::OutOfRange)?;
        Ok(Angle {
            phase,
            is_negative: 0x8000_0000 <= b,
        })
    }

    // The sine: of an angle below zero it is that of its size, half a turn on.
    fn sine(self) -> u32
        ensures { result ≡ wave_bits (half_on self.phase (cond self.is_negative 1 0)) }
    {
        wave_bits(self.phase.wrapping_add(u64::from(self.is_negative) * HALF))
    }

    // The cosine: the sine a quarter on, whatever the sign.
    #[tactic(auto, unfolding(crate::specs::Wave::quarter_on))]
    fn cosine(self) -> u32
        ensures { result ≡ wave_bits (quarter_on self.phase) }
    {
        wave_bits(self.phase.wrapping_add(QUARTER))
    }
}

// sin(pi x), |x| < 2^22; any other x is refused. This and the next three are what C calls, each with a promise of its
// own; what they share is `Angle`.
pub fn sinpi(x: f32) -> Result<u32, Refusal>
    ensures { Gives float_bits (SinPi x) result }
{
    Angle::of(x, phase::half_turns).map(Angle::sine)
}

// cos(pi x), likewise.
pub fn cospi(x: f32) -> Result<u32, Refusal>
    ensures { Gives float_bits (CosPi x) result }
{
    Angle::of(x, phase::half_turns).map(Angle::cosine)
}

// sin x of every finite x; a NaN and an infinity are refused.
pub fn sin(x: f32) -> Result<u32, Refusal>
    ensures { Gives float_bits (Sin x) result }
{
    Angle::of(x, phase::radians).map(Angle::sine)
}

// cos x, likewise.
pub fn cos(x: f32) -> Result<u32, Refusal>
    ensures { Gives float_bits (Cos x) result }
{
    Angle::of(x, phase::radians).map(Angle::cosine)
}
