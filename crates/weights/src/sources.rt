// What is weighed: another list, or the floats whose patterns stand in the places of the outputs.

ghost use Rattle.std.specs.Prelude.{◌≡◌, ◌+◌, ◌%◌, ◌^◌, ◌<◌, length};
ghost use Rattle.std.specs.Float.{binary32};
ghost use Rattle.std.specs.Float.Ieee.{of_bits};
ghost use Rattle.powers.specs.Raised.{raised};
ghost use Rattle.weights.specs.Lists.{at};
ghost use Rattle.weights.specs.Softmax.{Element};
ghost use Rattle.weights.specs.Weight.{Source, own, other, source_of, Sized, kept_at, HoldsDigits};

// A list to weigh, where p are the places of the outputs.
pub(crate) trait Source: Copy {
    // which of the two it is
    ghost source: { Self → Source };

    // The pattern of the element i; of a NaN one of its patterns.
    fn pattern(self, p: &[u32], i: usize) -> u32
        requires { Sized (source self) p.now × (i < length p.now) }
        ensures { of_bits binary32 result ≡ at (source_of (source self) p.now) i };

    // The element i of a list that was judged.
    fn element(self, p: &[u32], i: usize) -> f32
        requires { Sized (source self) p.now × (i < length p.now) × Element (at (source_of (source self) p.now) i) }
        ensures { result ≡ at (source_of (source self) p.now) i };

    // Keeps the digits q of the power i where the place of its output is free.
    fn keep(self, p: &mut [u32], i: usize, q: u32)
        requires { i < length p.old }
        ensures { p.new ≡ kept_at (source self) p.old i q };

    // The digits of the power with the argument a, that of the element i: those that were kept, or raised again.
    fn digits(self, p: &[u32], i: usize, a: u64) -> u32
        requires { (i < length p.now) × HoldsDigits (source self) p.now i (raised (a % 2 ^ 32)) }
        ensures { result + 2 ^ 32 ≡ raised (a % 2 ^ 32) };
}

// Another list: until the weights are written the places of the outputs are free, and keep the digits of the powers.
impl Source for &[f32] {
    ghost source = { λ x. other x.now };

    fn pattern(self, _p: &[u32], i: usize) -> u32 {
        fixed::bits_of(self[i])
    }

    fn element(self, _p: &[u32], i: usize) -> f32 {
        self[i]
    }

    fn keep(self, p: &mut [u32], i: usize, q: u32) {
        p[i] = q;
    }

    fn digits(self, p: &[u32], i: usize, _a: u64) -> u32 {
        p[i]
    }
}

// The floats whose patterns the places of the outputs hold: there is no room for digits.
#[derive(Clone, Copy, Debug, PartialEq, Eq)]
pub(crate) struct InPlace;

impl Source for InPlace {
    ghost source = { λ _. own };

    fn pattern(self, p: &[u32], i: usize) -> u32 {
        p[i]
    }

    fn element(self, p: &[u32], i: usize) -> f32 {
        f32::from_bits(p[i])
    }

    fn keep(self, _p: &mut [u32], _i: usize, _q: u32) {}

    fn digits(self, _p: &[u32], _i: usize, a: u64) -> u32 {
        powers::fixed_point::digits(a)
    }
}
