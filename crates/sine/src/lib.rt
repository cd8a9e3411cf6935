// Sine, cosine and tangent in fixed point. Qk is a whole number that stands for itself over 2^k.
#![tactic(auto)]

ghost use Rattle.std.specs.Prelude.{◌≡◌, not, ◌+◌, ◌-◌, ◌*◌, ◌/◌, ◌^◌, ◌<◌, ◌≤◌, T};
ghost use Rattle.sine.specs.Exact.{folded};
ghost use Rattle.sine.specs.Sine.{sinc_of, sine_fix, wave_of, ratio_of, sin_of, cos_of, tan_of, Sine, Tangent, quarter31};

use fixed::{Parts, pack, size, times};

// A quarter turn in Q31.
const QUARTER_TURN: u64 = 3373259426;

// sin z / z in Q32, for v = z^2 / 4 in Q32: by pairs of terms, which do not wait for each other.
#[tactic(auto, unfolding(crate::specs::Sine::sinc_of, crate::specs::Series::paired), using(crate::proofs::Pairs::sinc_le))]
fn sinc(v: u64) -> u64
    requires { v < 4294967296 }
    ensures { (result ≡ sinc_of v) × (result ≤ 4294967296) }
{
    let w = times(v, v); // Q32
    let a = 4294967296 - times(2863311531, v);
    let b = 572662306 - times(54539267, v);
    let c = 3029959 - times(108525, v);
    a + times(b + times(c, w), w)
}

// The sine of the angle z in Q31, up to a quarter turn, in Q63, and 1 more, so that it is not 0.
#[tactic(auto, unfolding(crate::specs::Sine::sine_fix))]
fn sine_fix(z: u64) -> u64
    requires { z ≤ quarter31 }
    ensures { (result ≡ sine_fix z) × (0 < result) }
{
    z * sinc(times(z, z)) + 1
}

// The angle within a quarter turn.
fn fold(k: u64, m: u64) -> u64
    requires { m ≤ quarter31 }
    ensures { (result ≡ folded k quarter31 m) × (result ≤ quarter31) }
{
    if k % 2 == 0 {
        return m;
    }
    QUARTER_TURN - m
}

// The sine of x in Q31 and j quarter turns. The sign goes into the pattern: a negation is a branch, 2 ns of a sine's 17 where it is not foreseen.
fn wave(x: u64, j: u64) -> f32
    requires { j ≤ 1 }
    ensures { result ≡ wave_of j x }
{
    let n = x / QUARTER_TURN;
    let k = n + j;
    let z = fold(k, x - n * QUARTER_TURN); // Q31
    let q = sine_fix(z); // Q63
    let r = pack(q, 63);
    let sign = (k % 4 / 2) as u32;
    f32::from_bits(f32::to_bits(r) + sign * 2147483648)
}

// The sine, for x from 0 to 8.
#[tactic(auto, using(crate::proofs::Tests::sin_tests))]
pub fn sin(x: f32) -> f32
    ensures is { result ≡ sin_of x }
    ensures near { Sine 0 x result }
{
    if (x >= 0.0009765625) & (x <= 8.0) {
        return wave(size(x) / 2, 0);
    }
    if (x >= 0.0) & (x < 0.0009765625) {
        return x;
    }
    f32::NAN
}

// The cosine, for x from 0 to 8.
#[tactic(auto, using(crate::proofs::Tests::cos_tests))]
pub fn cos(x: f32) -> f32
    ensures is { result ≡ cos_of x }
    ensures near { Sine 1 x result }
{
    if (x >= 0.0) & (x <= 8.0) {
        return wave(size(x) / 2, 1);
    }
    f32::NAN
}

// sin z / z over cos z in Q32, for the angle z in Q31, up to 1.5.
#[tactic(auto, unfolding(crate::specs::Sine::ratio_of), using(crate::proofs::Quotient::cos_low, crate::proofs::Quotient::ratio_low, crate::proofs::Quotient::ratio_high))]
fn ratio(z: u64) -> u64
    requires { z ≤ 3221225472 }
    ensures { (result ≡ ratio_of z) × (0 < result) × (result ≤ 137438953472) }
{
    let y = sinc(times(z, z)); // Q32
    let c = sine_fix(QUARTER_TURN - z) / 4294967296; // Q31
    y * 2147483648 / c
}

// The tangent, for x from 0 to 1.5: the digits of x, times the ratio.
#[tactic(auto, using(crate::proofs::Tests::tan_tests))]
pub fn tan(x: f32) -> f32
    ensures is { result ≡ tan_of x }
    ensures near { Tangent x result }
{
    if (x >= 0.0) & (x <= 1.5) {
        if x < 0.000000059604644775390625 {
            return x;
        }
        let p = Parts::of(x);
        let q = p.digits * ratio(size(x) / 2); // Q(182 - the exponent)
        return pack(q, 182 - p.exponent);
    }
    f32::NAN
}
