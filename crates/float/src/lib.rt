// Rust's functions on f32 as the source uses them, and its casts. Each gives what Rust gives for every argument.
#![tactic(auto)]

ghost use Rattle.std.specs.Prelude.{◌≡◌, ◌+◌, ◌-◌, ◌^◌, min, Bool, false, pos, if◌then◌else◌};
ghost use Rattle.std.specs.Float.{binary32};
ghost use Rattle.std.specs.Float.Ieee.{rem, lt, of_int, to_signed};
ghost use Rattle.std.specs.Float.Ieee.Scale.{finite};
ghost use Rattle.float.specs.Consts.{k0, k1};
ghost use Rattle.float.specs.Floats.{abs_of, signum_of, min_of, max_of, clamp_of, same_bits, fract_of, rem_euclid_of, to24_of};

// The sample rate.
pub const FS: f32 = 48000.0;

pub const TAU: f32 = 6.2831855;

pub const PI: f32 = 3.1415927;
// Envelope levels per 6 dB.
pub const LEVELS_PER_6DB: f32 = 16.0;

// The functions of this file are Rust's by definitions that say what comes of every value, NaN and zeros too. std's `abs`, `signum` and `clamp`
// promise other words of them (`clamp` only where its ends are in order), and laws of all crates above speak of these.

// 0 less either zero is +0, and less any other number that with its sign turned: the greater of the two is the size.
pub fn abs(x: f32) -> f32
    ensures { result ≡ abs_of x }
{
    let n = 0.0 - x;
    if n < x { x } else { n }
}

// The sign of a zero is that of one over it.
pub fn signum(x: f32) -> f32
    ensures { result ≡ signum_of x }
{
    if x < 0.0 {
        -1.0
    } else if 0.0 < x {
        1.0
    } else if x != 0.0 {
        x
    } else if 1.0 / x < 0.0 {
        -1.0
    } else {
        1.0
    }
}

// The source's `min` and `max`, with the first argument kept where the two are equal; std's promise leaves open which zero is given. Two
// functions: one for both would be told by a bool which it is. Where the second argument is a constant, one comparison is left.
pub fn min(a: f32, b: f32) -> f32
    ensures { result ≡ min_of a b }
{
    if a <= b {
        a
    } else if b != b {
        a
    } else {
        b
    }
}

pub fn max(a: f32, b: f32) -> f32
    ensures { result ≡ max_of a b }
{
    if b <= a {
        a
    } else if b != b {
        a
    } else {
        b
    }
}

#[tactic(auto, unfolding(crate::specs::Floats::clamp_of))]
pub fn clamp(x: f32, lo: f32, hi: f32) -> f32
    ensures { result ≡ clamp_of x lo hi }
{
    if x < lo {
        lo
    } else if hi < x {
        hi
    } else {
        x
    }
}

// `a.to_bits() == b.to_bits()`, where two values that are no numbers have the same: std's `to_bits` promises nothing of them. Unequal numbers have
// unlike bits, so that one comparison is enough where the two are alike, and three where not.
#[tactic(auto, unfolding(crate::specs::Floats::same_bits))]
pub fn same_bits(a: f32, b: f32) -> bool
    ensures { result ≡ same_bits a b }
{
    if a == b {
        return a.to_bits() == b.to_bits();
    }
    (a != a) & (b != b)
}

// By std's `is_finite`, or a NaN found by `is_nan` above, the proof did not close: the definitions compare.
pub fn is_finite(x: f32) -> bool
    ensures { result ≡ finite x }
{
    x - x == 0.0
}

// The whole part of an x below 2^23 is an i32, and taking it off is exact; from there on every float is whole, and an infinity has no remainder.
fn part(x: f32) -> f32
    requires { lt x k0 ≡ false }
    ensures { result ≡ rem binary32 x k1 }
{
    if x < 1.0 {
        return x;
    }
    if x < 2.0 {
        return x - 1.0;
    }
    if x < 8388608.0 {
        return x - from_i32(to_i32(x));
    }
    x - x
}

// `x % 1.0`, which would be a call of C's `fmodf`: what follows the point, with x's sign.
fn rem_one(x: f32) -> f32
    ensures { result ≡ rem binary32 x k1 }
{
    if x < 0.0 {
        return -part(-x);
    }
    part(x)
}

#[tactic(auto, unfolding(crate::specs::Floats::fract_of))]
pub fn fract(x: f32) -> f32
    ensures { result ≡ fract_of x }
{
    rem_one(x) + 0.0
}

// `x.rem_euclid(1.0)`
#[tactic(auto, unfolding(crate::specs::Floats::rem_euclid_of, crate::specs::Floats::abs_of))]
pub fn rem_euclid_one(x: f32) -> f32
    ensures { result ≡ rem_euclid_of x k1 }
{
    let r = rem_one(x);
    if r < 0.0 { r + 1.0 } else { r }
}

// One of two values, without a branch in the caller.
pub fn choose(c: bool, a: f32, b: f32) -> f32
    ensures { result ≡ (if c then a else b) }
{
    if c { a } else { b }
}

// `n as f32`, rounded to the nearest.
pub fn from_u32(n: u32) -> f32
    ensures { result ≡ of_int binary32 (pos n) }
{
    std::num::nearest_u32_to_f32(n)
}

// By the plain cast where it loses nothing, as of each DAC word: the library's conversion by halves takes twice its time.
#[tactic(auto, using(crate::proofs::Cast::in_float_lem))]
pub fn from_i32(n: i32) -> f32
    ensures { result ≡ of_int binary32 n }
{
    if (-16777216 <= n) & (n <= 16777216) {
        return n as f32;
    }
    std::num::nearest_i32_to_f32(n)
}

// `y as i32`: toward zero, to the nearest end where it is out of range, 0 where it is no number. The library's conversion goes through f64,
// fifty instructions where these are eight: with twelve in a step 500 of 13,500 more, where a step just keeps to its 1.3 times the Rust's time.
pub fn to_i32(y: f32) -> i32
    ensures { result ≡ to_signed 31 y }
{
    if y < 2147483648.0 {
        if -2147483648.0 <= y {
            return std::num::truncating_f32_to_i64(y) as i32;
        }
        return -2147483648;
    }
    if y != y {
        return 0;
    }
    2147483647
}

// The word of a sample of 1.
const FULL_SCALE: f32 = 8388607.0;

// A sample as a 24-bit word.
#[tactic(auto, unfolding(crate::specs::Floats::to24_of))]
pub fn to24(x: f32) -> i32
    ensures { result ≡ to24_of x }
{
    to_i32(clamp(x, -1.0, 1.0) * FULL_SCALE)
}

pub fn saturating_add(a: u32, b: u32) -> u32
    ensures { result ≡ min (a + b) (2 ^ 32 - 1) }
{
    a.saturating_add(b)
}
