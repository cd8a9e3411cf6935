// The curves under C names: floats to floats, an answer for every bit pattern, and each with the promise of its crate.
#![tactic(auto)]

ghost use Rattle.std.specs.Prelude.{◌≡◌};
ghost use Rattle.power.specs.Power.{exp2_of, exp_of, pow10_of};
ghost use Rattle.power.specs.Near.{Exp2Near, ExpNear, Pow10Near};
ghost use Rattle.sine.specs.Sine.{sin_of, cos_of, tan_of, Sine, Tangent};
ghost use Rattle.tanh.specs.Tanh.{tanh_of};
ghost use Rattle.tanh.specs.Near.{TanhNear};
ghost use Rattle.log10.specs.Log10.{log10_of};
ghost use Rattle.log10.specs.Near.{Log10Near};
ghost use Rattle.root.specs.Root.{sqrt_of, Root};

#[unsafe(no_mangle)]
pub extern "C" fn rytm_exp2(x: f32) -> f32
    ensures is { result ≡ exp2_of x }
    ensures near { Exp2Near x result }
{
    power::exp2(x)
}

#[unsafe(no_mangle)]
pub extern "C" fn rytm_exp(x: f32) -> f32
    ensures is { result ≡ exp_of x }
    ensures near { ExpNear x result }
{
    power::exp(x)
}

#[unsafe(no_mangle)]
pub extern "C" fn rytm_pow10(x: f32) -> f32
    ensures is { result ≡ pow10_of x }
    ensures near { Pow10Near x result }
{
    power::pow10(x)
}

#[unsafe(no_mangle)]
pub extern "C" fn rytm_sin(x: f32) -> f32
    ensures is { result ≡ sin_of x }
    ensures near { Sine 0 x result }
{
    sine::sin(x)
}

#[unsafe(no_mangle)]
pub extern "C" fn rytm_cos(x: f32) -> f32
    ensures is { result ≡ cos_of x }
    ensures near { Sine 1 x result }
{
    sine::cos(x)
}

#[unsafe(no_mangle)]
pub extern "C" fn rytm_tan(x: f32) -> f32
    ensures is { result ≡ tan_of x }
    ensures near { Tangent x result }
{
    sine::tan(x)
}

#[unsafe(no_mangle)]
pub extern "C" fn rytm_tanh(x: f32) -> f32
    ensures is { result ≡ tanh_of x }
    ensures near { TanhNear x result }
{
    tanh::tanh(x)
}

#[unsafe(no_mangle)]
pub extern "C" fn rytm_log10(x: f32) -> f32
    ensures is { result ≡ log10_of x }
    ensures near { Log10Near x result }
{
    log10::log10(x)
}

#[unsafe(no_mangle)]
pub extern "C" fn rytm_sqrt(x: f32) -> f32
    ensures is { result ≡ sqrt_of x }
    ensures nearest { Root x result }
{
    root::sqrt(x)
}
