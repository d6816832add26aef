// Numbers (document 01, module 1): smaller, larger, order and rounding down of doubles, and a
// double from a job's bits. Contracts speak of IEEE 754 as the kit's lib.Ieee states it.
#![tactic(auto)]

ghost use Rattle.std.specs.Prelude.{◌≡◌, from_bits, to_bits};
ghost use Rattle.std.specs.Float.{binary64};
ghost use Rattle.std.specs.Float.Ieee.{lt, to_unsigned};
ghost use Rattle.std.specs.Float.Ieee.Scale.{finite};
ghost use Rattle.numbers.specs.Numbers.{smaller, larger, plus_zero, double_of};

// The smaller of two, the first where they are equal: of two zeros `f64::min` may return either.
#[tactic(auto, unfolding(crate::specs::Numbers::smaller))]
pub fn smaller(a: f64, b: f64) -> f64
    ensures { result ≡ smaller a b }
{
    if b < a { b } else { a }
}

// The larger of two, the first where they are equal: of two zeros `f64::max` may return either.
#[tactic(auto, unfolding(crate::specs::Numbers::larger))]
pub fn larger(a: f64, b: f64) -> f64
    ensures { result ≡ larger a b }
{
    if a < b { b } else { a }
}

// The order: whether a is below b.
pub fn less(a: f64, b: f64) -> bool
    ensures { result ≡ lt a b }
{
    a < b
}

// A minus zero becomes plus zero.
#[tactic(auto, unfolding(crate::specs::Numbers::plus_zero))]
pub fn plus_zero(x: f64) -> f64
    ensures { result ≡ plus_zero x }
{
    if x == 0.0 { 0.0 } else { x }
}

// x rounded down and held to 0..2^64 - 1: 0 for what is negative, 2^64 - 1 for what is too large.
pub fn floor(x: f64) -> u64
    ensures { result ≡ to_unsigned 64 x }
{
    if x >= 18446744073709551616.0 {
        return 0xffff_ffff_ffff_ffff;
    }
    if x >= 1.0 {
        return std::num::truncating_f64_to_u64(x);
    }
    0 // below one, or a NaN
}

// The double with the bit pattern n, if it is finite; a minus zero becomes plus zero.
#[tactic(auto, using(crate::proofs::Patterns::finite_tested), unfolding(crate::specs::Numbers::double_of))]
pub fn from_bits(n: u64) -> Option<f64>
    ensures { result ≡ double_of n }
{
    let x = std::num::f64_from_bits_with_nan(n);
    if x.is_finite() {
        Some(plus_zero(x))
    } else {
        None
    }
}

// The bits of x; of all NaNs' the pattern that `to_bits` names.
pub fn bits_of(x: f64) -> u64
    ensures { result ≡ to_bits binary64 x }
{
    std::num::f64_to_bits_with_nan(x)
}
