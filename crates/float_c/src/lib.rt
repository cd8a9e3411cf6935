// The functions of `float` under C names, for the comparison with Rust's own.
#![tactic(auto)]

ghost use Rattle.std.specs.Prelude.{◌≡◌, Bool, ◌+◌, ◌-◌, ◌^◌, min, pos};
ghost use Rattle.std.specs.Float.{binary32};
ghost use Rattle.std.specs.Float.Ieee.{of_int, to_signed};
ghost use Rattle.std.specs.Float.Ieee.Scale.{finite};
ghost use Rattle.float.specs.Consts.{k1};
ghost use Rattle.float.specs.Floats.{abs_of, signum_of, min_of, max_of, clamp_of, same_bits, fract_of, rem_euclid_of, to24_of};

#[unsafe(no_mangle)]
pub extern "C" fn rytm_abs(x: f32) -> f32
    ensures { result ≡ abs_of x }
{
    float::abs(x)
}

#[unsafe(no_mangle)]
pub extern "C" fn rytm_signum(x: f32) -> f32
    ensures { result ≡ signum_of x }
{
    float::signum(x)
}

#[unsafe(no_mangle)]
pub extern "C" fn rytm_min(a: f32, b: f32) -> f32
    ensures { result ≡ min_of a b }
{
    float::min(a, b)
}

#[unsafe(no_mangle)]
pub extern "C" fn rytm_max(a: f32, b: f32) -> f32
    ensures { result ≡ max_of a b }
{
    float::max(a, b)
}

#[unsafe(no_mangle)]
pub extern "C" fn rytm_clamp(x: f32, lo: f32, hi: f32) -> f32
    ensures { result ≡ clamp_of x lo hi }
{
    float::clamp(x, lo, hi)
}

#[unsafe(no_mangle)]
pub extern "C" fn rytm_same_bits(a: f32, b: f32) -> bool
    ensures { result ≡ same_bits a b }
{
    float::same_bits(a, b)
}

#[unsafe(no_mangle)]
pub extern "C" fn rytm_is_finite(x: f32) -> bool
    ensures { result ≡ finite x }
{
    float::is_finite(x)
}

#[unsafe(no_mangle)]
pub extern "C" fn rytm_fract(x: f32) -> f32
    ensures { result ≡ fract_of x }
{
    float::fract(x)
}

#[unsafe(no_mangle)]
pub extern "C" fn rytm_rem_euclid_one(x: f32) -> f32
    ensures { result ≡ rem_euclid_of x k1 }
{
    float::rem_euclid_one(x)
}

#[unsafe(no_mangle)]
pub extern "C" fn rytm_from_u32(n: u32) -> f32
    ensures { result ≡ of_int binary32 (pos n) }
{
    float::from_u32(n)
}

#[unsafe(no_mangle)]
pub extern "C" fn rytm_from_i32(n: i32) -> f32
    ensures { result ≡ of_int binary32 n }
{
    float::from_i32(n)
}

#[unsafe(no_mangle)]
pub extern "C" fn rytm_to_i32(y: f32) -> i32
    ensures { result ≡ to_signed 31 y }
{
    float::to_i32(y)
}

#[unsafe(no_mangle)]
pub extern "C" fn rytm_to24(x: f32) -> i32
    ensures { result ≡ to24_of x }
{
    float::to24(x)
}

#[unsafe(no_mangle)]
pub extern "C" fn rytm_saturating_add(a: u32, b: u32) -> u32
    ensures { result ≡ min (a + b) (2 ^ 32 - 1) }
{
    float::saturating_add(a, b)
}
