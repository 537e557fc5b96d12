// Every bit pattern as a float.

#![tactic(auto)]

ghost use Rattle.std.specs.Prelude.{◌≡◌, from_bits};
ghost use Rattle.std.specs.Float.{binary32};

// The float of any bit pattern; a NaN's pattern stands for some NaN. By a function of std::num, since `f32::from_bits`
// must not be given a NaN's pattern.
pub fn float(bits: u32) -> f32
    ensures { result ≡ from_bits binary32 bits }
{
    std::num::f32_from_bits_with_nan(bits)
}
