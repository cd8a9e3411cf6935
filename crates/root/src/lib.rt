// The square root of an f32, by the whole number nearest to the root of a scaled significand.
#![tactic(auto)]

ghost use Rattle.std.specs.Prelude.{◌≡◌, ◌+◌, ◌*◌, ◌^◌, ◌<◌, ◌≤◌};
ghost use Rattle.root.specs.Root.{nearest_root, root_at, sqrt_of, Root};

use fixed::Parts;

// The line nearest to the root from 1 to 2, and that times the root of 2 from 2 to 4: within one part in 130.
fn line(z: f32) -> f32 {
    if z < 2.0 {
        return 0.590528 + 0.417 * z;
    }
    0.8351327 + 0.29486352 * z
}

// About the root of the float with the pattern p, a number from 1 to 4, in units of 2^-23: Heron's rule twice, from the line.
// What `sqrt` answers does not depend on it, only how soon.
#[tactic(auto, using(crate::proofs::Branches::no_nans))]
fn guess(p: u32) -> u64
    requires { p < 1090519040 }
    ensures { result < 16777216 }
{
    let z = f32::from_bits(p);
    let a = line(z);
    let b = (a + z / a) * 0.5;
    let c = (b + z / b) * 0.5;
    if c < 1.0 {
        return 8388608;
    }
    if c < 2.0 {
        return Parts::of(c).digits;
    }
    16777215
}

// The whole number nearest to the root of q, counted up or down from g. No `for`: what is counted is the answer itself, with no end known before.
#[tactic(auto, using(crate::proofs::Whole::counts))]
fn nearest_root(q: u64, g: u64) -> u64
    requires { (0 < q) × (q < 281474976710656) × (g < 16777216) }
    ensures { result ≡ nearest_root q }
{
    let mut n = g;
    while q + n <= n * n {
        n -= 1;
    }
    while n * n + n < q {
        n += 1;
    }
    n
}

// The pattern of the root of d * 2^(x - 150).
#[tactic(auto, using(crate::proofs::Scaled::root_sizes))]
fn root_bits(d: u64, x: u64) -> u64
    requires { (0 < d) × (d < 16777216) × (1 ≤ x) × (x ≤ 254) }
    ensures { (result ≡ root_at d x) × (result < 2139095040) }
{
    let z = u64::leading_zeros(d) as u64;
    let odd = (x + z + 1) % 2;
    let p = (126 + odd) * 8388608 + (d << (z - 40));
    let g = guess(p as u32);
    let n = nearest_root(d << (z + odd - 17), g);
    (x + 165 - z - odd) / 2 * 8388608 + n
}

// The square root, correctly rounded.
#[tactic(auto, using(crate::proofs::Branches::sqrt_tests))]
pub fn sqrt(x: f32) -> f32
    ensures is { result ≡ sqrt_of x }
    ensures nearest { Root x result }
{
    if x > 0.0 {
        if x >= f32::INFINITY {
            return x;
        }
        let p = Parts::of(x);
        if p.exponent == 0 {
            let r = root_bits(p.digits - 8388608, 1);
            return f32::from_bits(r as u32);
        }
        let s = root_bits(p.digits, p.exponent);
        return f32::from_bits(s as u32);
    }
    if x == 0.0 {
        return x;
    }
    f32::NAN
}
