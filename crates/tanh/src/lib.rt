// The hyperbolic tangent. Qk is a whole number that stands for itself over 2^k.
#![tactic(auto)]

ghost use Rattle.std.specs.Prelude.{◌≡◌, ◌≤◌, T};
ghost use Rattle.std.specs.Float.Ieee.{le};
ghost use Rattle.power.specs.Power.{zero_f};
ghost use Rattle.tanh.specs.Tanh.{decay_of, quotient_of, above_of, tanh_of};
ghost use Rattle.tanh.specs.Near.{TanhNear};

// 2 log2 e in Q32
const TWO_LOG2_E: u64 = 12392656037;

// 2^-u in Q32, for a u of Q32
#[tactic(auto, unfolding(crate::specs::Tanh::decay_of), using(crate::proofs::Method::decay_le))]
fn decay(u: u64) -> u64
    requires { u ≤ 128849018880 }
    ensures { (result ≡ decay_of u) × (result ≤ 4294967296) }
{
    let w = 549755813888 - u; // Q32
    power::fraction(w % 4294967296) >> (128 - w / 4294967296)
}

// (1 - e) / (1 + e) in Q31, for an e of Q32
#[tactic(auto, unfolding(crate::specs::Tanh::quotient_of))]
fn quotient(e: u64) -> u64
    requires { e ≤ 4294967296 }
    ensures { result ≡ quotient_of e }
{
    (4294967296 - e) * 2147483648 / (4294967296 + e)
}

// of an a that is not below 0
#[tactic(auto, using(crate::proofs::Tests::above_tests))]
fn above(a: f32) -> f32
    requires { T (le zero_f a) }
    ensures { result ≡ above_of a }
{
    if a < 0.0009765625 {
        return a;
    }
    if a >= 10.0 {
        return 1.0;
    }
    let e = decay(power::product(fixed::size(a), TWO_LOG2_E)); // Q32
    fixed::pack(quotient(e), 31)
}

#[tactic(auto, using(crate::proofs::Tests::tanh_tests))]
pub fn tanh(x: f32) -> f32
    ensures is { result ≡ tanh_of x }
    ensures near { TanhNear x result }
{
    if x.is_nan() {
        return x;
    }
    if x < 0.0 {
        return -above(-x);
    }
    above(x)
}
