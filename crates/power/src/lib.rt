// The two-power, the exponential and the power of ten, by one core in fixed point. Qk is a whole number that stands for itself over 2^k.
#![tactic(auto)]

ghost use Rattle.std.specs.Prelude.{◌≡◌, ◌+◌, ◌*◌, ◌/◌, ◌<◌, ◌≤◌};
ghost use Rattle.fixed.specs.Fixed.{shifted};
ghost use Rattle.power.specs.Power.{scaled_of, fraction_of, power_of, product_of, exp2_of, exp_of, pow10_of};
ghost use Rattle.power.specs.Near.{Exp2Near, ExpNear, Pow10Near};

use fixed::times;

// log2 e and log2 10 in Q32
pub const LOG2_E: u64 = 6196328018;

pub const LOG2_TEN: u64 = 14267572527;

// 2^-23, which one of Q23 stands for
const Q23: f32 = 1.0 / 8388608.0;

// 2^(i / 32) in Q30, for i from 0
static ROOTS: [u64; 32] = [
    1073741824, 1097253708, 1121280435, 1145833280, 1170923761, 1196563653, 1222764985, 1249540052,
    1276901416, 1304861916, 1333434672, 1362633089, 1392470868, 1422962010, 1454120821, 1485961920,
    1518500249, 1551751075, 1585729999, 1620452965, 1655936264, 1692196547, 1729250826, 1767116488,
    1805811301, 1845353419, 1885761398, 1927054195, 1969251187, 2012372173, 2056437386, 2101467501,
];

// 2^h in Q62, for an h of Q32 below 1
fn scaled(h: u64) -> u64
    requires { h < 4294967296 }
    ensures { (result ≡ scaled_of h) × (4611686018427387904 ≤ result) × (result ≤ 9223372036854775808) }
{
    let k = h % 134217728 * 32; // Q32
    let y2 = 1007582 + times(7275, k);
    let y1 = 93032639 + times(y2, k);
    let y = 4294967296 + times(y1, k); // Q32
    y * ROOTS[(h / 134217728) as usize]
}

// the same in Q32
#[tactic(auto, unfolding(crate::specs::Power::fraction_of), using(crate::proofs::Method::fraction_lo, crate::proofs::Method::fraction_hi))]
pub fn fraction(h: u64) -> u64
    requires { h < 4294967296 }
    ensures { (result ≡ fraction_of h) × (4294967296 ≤ result) × (result ≤ 8589934592) }
{
    scaled(h) / 1073741824
}

// 2^(w - 128), for a w of Q32: 24 digits from 1 to 2, times the power of two in the table. Both products are exact
pub fn power(w: u64) -> f32
    requires { (8589934592 ≤ w) × (w < 1095216660480) }
    ensures { result ≡ power_of w }
{
    let m = ((scaled(w % 4294967296) + 274877906944) / 549755813888) as u32; // Q23
    (m as f32) * Q23 * pow2::at((w / 4294967296 - 2) as u8)
}

// v * k of Q32, both of Q32, in two parts so that no product passes 64 bits; that of `fixed::times`, whose factors are below 1, is one product
#[tactic(auto, using(crate::proofs::Ranges::product_room, crate::proofs::Ranges::product_parts))]
pub fn product(v: u64, k: u64) -> u64
    requires { (v ≤ 1099511627776) × (k < 17179869184) }
    ensures { result ≡ product_of v k }
{
    (v / 65536 * k + v % 65536 * k / 65536) / 65536
}

// 128 ± u of Q32. `Parts::place` does so in Q56, before it cuts: a function for both would take the 128 too, for one line
fn side(negative: bool, u: u64) -> u64
    requires { u ≤ 541165879296 }
    ensures { result ≡ shifted negative u 4294967296 }
{
    if negative {
        549755813888 - u
    } else {
        549755813888 + u
    }
}

// What lies past the ends is said in each of this and `pow10`: a function for both would not know what the test before it has ruled out.
#[tactic(auto, using(crate::proofs::Tests::exp2_tests))]
pub fn exp2(t: f32) -> f32
    ensures is { result ≡ exp2_of t }
    ensures near { Exp2Near t result }
{
    if (t >= -126.0) & (t < 127.0) {
        return power(fixed::spot(t));
    }
    if t.is_nan() {
        return t;
    }
    if t < -126.0 {
        return 0.0;
    }
    f32::INFINITY
}

#[tactic(auto, using(crate::proofs::Tests::exp_tests))]
pub fn exp(t: f32) -> f32
    ensures is { result ≡ exp_of t }
    ensures near { ExpNear t result }
{
    if (t >= -3.0) & (t <= 0.0) {
        return power(549755813888 - product(fixed::size(t), LOG2_E));
    }
    f32::NAN
}

#[tactic(auto, using(crate::proofs::Tests::ten_tests))]
pub fn pow10(x: f32) -> f32
    ensures is { result ≡ pow10_of x }
    ensures near { Pow10Near x result }
{
    if (x >= -37.0) & (x <= 37.0) {
        let u = product(fixed::size(x), LOG2_TEN); // Q32
        return power(side(x < 0.0, u));
    }
    if x.is_nan() {
        return x;
    }
    if x < -37.0 {
        return 0.0;
    }
    f32::INFINITY
}
