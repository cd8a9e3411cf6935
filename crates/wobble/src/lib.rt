// The imperfections of analog parts: the random source that all voices share, and an oscillator's slow drift.
#![tactic(auto)]

ghost use Rattle.std.specs.Prelude.{◌≡◌, Bool};
ghost use Rattle.wobble.specs.Wobble.{xorshift_of, new_of, uni_of, detune_of, phase_of, drift_new, drift_of};

// A board's seed where none is given.
pub const DEFAULT_SEED: u32 = 0x2545F491;
// How far a hit is detuned at most.
pub const DETUNE_CENTS: f32 = 3.0;
// How far an oscillator drifts.
const DRIFT_CENTS: f32 = 1.5;
// Within how many seconds.
const DRIFT_TAU: f32 = 0.5;
// In how many samples the drift moves once.
const DRIFT_EVERY: u32 = 32;

#[repr(C)]
#[derive(Clone, Copy)]
pub struct Wobble {
    pub s: u32,
    // 1 normally, 0 for ideal components.
    pub depth: f32,
}

// The random source after draws, and what they gave.
#[derive(Clone, Copy)]
pub struct Drawn<T> {
    pub w: Wobble,
    pub x: T,
}

#[tactic(auto, unfolding(crate::specs::Wobble::xorshift_of))]
fn xorshift(s: u32) -> u32
    ensures { result ≡ xorshift_of s }
{
    let a = s ^ (s << 13);
    let b = a ^ (a >> 17);
    b ^ (b << 5)
}

impl Wobble {
    // Seed 0 counts as 1.
    #[tactic(auto, unfolding(crate::specs::Wobble::new_of))]
    pub fn new(seed: u32, ideal: bool) -> Wobble
        ensures { result ≡ new_of seed ideal }
    {
        let depth = float::choose(ideal, 0.0, 1.0);
        Wobble {
            s: if seed == 0 { 1 } else { seed },
            depth,
        }
    }

    // Uniform in -1..1; `u32::MAX as f32` is 2^32.
    #[tactic(auto, unfolding(crate::specs::Wobble::uni_of))]
    pub fn uni(self) -> Drawn<f32>
        ensures { result ≡ uni_of self }
    {
        let s = xorshift(self.s);
        Drawn {
            w: Wobble {
                s,
                depth: self.depth,
            },
            x: float::from_u32(s) / 4294967296.0 * 2.0 - 1.0,
        }
    }

    // A frequency ratio of up to ± `cents`.
    #[tactic(auto, unfolding(crate::specs::Wobble::detune_of))]
    pub fn detune(self, cents: f32) -> Drawn<f32>
        ensures { result ≡ detune_of self cents }
    {
        let d = self.uni();
        Drawn {
            w: d.w,
            x: power::exp2(d.x * cents * self.depth / 1200.0),
        }
    }

    // A random phase, or 0 for ideal components.
    #[tactic(auto, unfolding(crate::specs::Wobble::phase_of))]
    pub fn phase(self) -> Drawn<f32>
        ensures { result ≡ phase_of self }
    {
        let d = self.uni();
        Drawn {
            w: d.w,
            x: float::choose(0.0 < self.depth, 0.5 * (d.x + 1.0), 0.0),
        }
    }
}

// An oscillator's slow pitch wander: a random walk in cents, pulled back to the centre.
#[repr(C)]
#[derive(Clone, Copy)]
pub struct Drift {
    pub cents: f32,
    pub ratio: f32,
    pub n: u32,
}

impl Drift {
    #[tactic(auto, unfolding(crate::specs::Wobble::drift_new))]
    pub fn new() -> Drift
        ensures { result ≡ drift_new }
    {
        Drift {
            cents: 0.0,
            ratio: 1.0,
            n: 0,
        }
    }

    // On every `DRIFT_EVERY`th tick a kick, and the pull back.
    #[tactic(auto, unfolding(crate::specs::Wobble::drift_of, crate::specs::Wobble::cents_of))]
    pub fn tick(self, w: Wobble) -> Drawn<Drift>
        ensures { result ≡ drift_of self w }
    {
        if self.n < DRIFT_EVERY - 1 {
            return Drawn {
                x: Drift {
                    cents: self.cents,
                    ratio: self.ratio,
                    n: self.n + 1,
                },
                w,
            };
        }
        let a = DRIFT_EVERY as f32 / float::FS / DRIFT_TAU;
        let d = w.uni();
        let kick = d.x * root::sqrt(3.0) * DRIFT_CENTS * root::sqrt(2.0 * a);
        let cents = self.cents + (-a * self.cents + kick * w.depth);
        Drawn {
            x: Drift {
                cents,
                ratio: power::exp2(cents / 1200.0),
                n: 0,
            },
            w: d.w,
        }
    }
}
