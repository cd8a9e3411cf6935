// What decays: a one-pole low-pass, by its cutoff, and what a sample keeps of a ring or an envelope, by its time.
#![tactic(auto)]

ghost use Rattle.std.specs.Prelude.{◌≡◌};
ghost use Rattle.pole.specs.Pole.{coefficient_of, moved_of, one_pole_of, kept_of};

// The low-pass's coefficient, of its cutoff.
pub fn coefficient(hz: f32) -> f32
    ensures { result ≡ coefficient_of hz }
{
    1.0 - power::exp(-float::TAU * hz / float::FS)
}

// The low-pass after a sample x, by its coefficient.
pub fn moved(was: f32, x: f32, a: f32) -> f32
    ensures { result ≡ moved_of was x a }
{
    was + a * (x - was)
}

// The same, by its cutoff.
pub fn one_pole(was: f32, x: f32, hz: f32) -> f32
    ensures { result ≡ one_pole_of was x hz }
{
    moved(was, x, coefficient(hz))
}

// What a sample keeps, by a time in seconds.
pub fn kept(t: f32) -> f32
    ensures { result ≡ kept_of t }
{
    power::exp(-1.0 / (t * float::FS))
}
