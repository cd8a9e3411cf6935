// The logarithm to base 10. Qk is a whole number that stands for itself over 2^k.
#![tactic(auto)]

ghost use Rattle.std.specs.Prelude.{◌≡◌, ◌<◌, ◌≤◌};
ghost use Rattle.log10.specs.Log10.{rest_of, part_of, pack_zero, tenth_of, log10_of};
ghost use Rattle.log10.specs.Near.{Log10Near};

use fixed::{Parts, times};

// log10 2 in Q32
const LOG10_TWO: u64 = 1292913986;

// log2(1 + j / 64) in Q32, for j from 0
static LOGS: [u64; 64] = [
    0, 96069025, 190671290, 283850911, 375650042, 466108992, 555266329, 643158980, 729822323,
    815290272, 899595355, 982768792, 1064840562, 1145839467, 1225793196, 1304728378, 1382670639,
    1459644647, 1535674166, 1610782092, 1684990500, 1758320681, 1830793180, 1902427828, 1973243776,
    2043259527, 2112492963, 2180961372, 2248681478, 2315669461, 2381940980, 2447511201, 2512394809,
    2576606037, 2640158677, 2703066100, 2765341278, 2826996792, 2888044852, 2948497312, 3008365682,
    3067661139, 3126394546, 3184576457, 3242217133, 3299326552, 3355914416, 3411990165, 3467562986,
    3522641820, 3577235372, 3631352117, 3685000314, 3738188006, 3790923031, 3843213029, 3895065449,
    3946487553, 3997486425, 4048068976, 4098241947, 4148011917, 4197385310, 4246368395,
];

// r - r^2 / 2 + r^3 / 3 in Q32, for what r is left of the significand 1 + t / 2^23 after six digits
#[tactic(auto, unfolding(crate::specs::Log10::rest_of), using(crate::proofs::Method::r_small, crate::proofs::Method::rest_le))]
fn rest(t: u64) -> u64
    requires { t < 8388608 }
    ensures { (result ≡ rest_of t) × (result ≤ 67108864) }
{
    let r = t % 131072 * 32768 / (64 + t / 131072); // Q32
    let s = times(r, r); // Q32
    r - s / 2 + times(s, r) / 3
}

// log2(1 + t / 2^23) in Q32
fn part(t: u64) -> u64
    requires { t < 8388608 }
    ensures { (result ≡ part_of t) × (result ≤ 8589934592) }
{
    let l = LOGS[(t / 131072) as usize]; // Q32
    l + power::product(rest(t), power::LOG2_E)
}

// q of Q32 as a float
#[tactic(auto, unfolding(crate::specs::Log10::pack_zero))]
fn pack_zero(q: u64) -> f32
    ensures { result ≡ pack_zero q }
{
    if q == 0 {
        return 0.0;
    }
    fixed::pack(q, 32)
}

// log10 of 2^(w - 127), for a w of Q32
#[tactic(auto, unfolding(crate::specs::Log10::tenth_of))]
fn tenth(w: u64) -> f32
    requires { w ≤ 1099511627776 }
    ensures { result ≡ tenth_of w }
{
    if w >= 545460846592 {
        return pack_zero(power::product(w - 545460846592, LOG10_TWO));
    }
    -pack_zero(power::product(545460846592 - w, LOG10_TWO))
}

#[tactic(auto, using(crate::proofs::Branches::log10_tests))]
pub fn log10(x: f32) -> f32
    ensures is { result ≡ log10_of x }
    ensures near { Log10Near x result }
{
    if x >= 0.000001 {
        if x >= f32::INFINITY {
            return x;
        }
        let p = Parts::of(x);
        return tenth(p.exponent * 4294967296 + part(p.digits - 8388608));
    }
    f32::NAN
}
