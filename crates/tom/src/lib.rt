// A tom: a resonator that the DAC word of its exciter rings.
#![tactic(auto)]

ghost use Rattle.std.specs.Prelude.{◌≡◌, Bool};
ghost use Rattle.tom.specs.Tom.{tom_new, excite_of, hz_of, decay_of, ring_of, sample_of};

use frame::Frame;
use wobble::{DETUNE_CENTS, Drawn, Wobble};

// The calibration's law: a tune CV of x * x / 2048 is x times this.
const TOM_HZ_PER_X: f32 = 0.1;
// Zero words that make a rest.
const TOM_REST: u32 = 64;

#[repr(C)]
#[derive(Clone, Copy)]
pub struct Tom {
    pub y1: f32,
    pub y2: f32,
    // This hit's detune.
    pub det: f32,
    // Zero words since the exciter last moved.
    pub quiet: u32,
}

// Each source has such a struct of its own, since a call from C takes no generic one.
#[repr(C)]
#[derive(Clone, Copy)]
pub struct TomOut {
    pub tom: Tom,
    pub w: Wobble,
    pub y: f32,
}

#[tactic(auto, unfolding(crate::specs::Tom::hz_of))]
fn hz(cv: f32, det: f32) -> f32
    ensures { result ≡ hz_of cv det }
{
    TOM_HZ_PER_X * root::sqrt(2048.0 * cv) * det
}

// How much of its ring a sample keeps: 30 ms at 0 to 1.5 s at full scale.
#[tactic(auto, unfolding(crate::specs::Tom::decay_of))]
fn decay(d: f32) -> f32
    ensures { result ≡ decay_of d }
{
    let tau = 0.03 * power::exp2(float::max(d, 0.0) * 5.64);
    pole::kept(tau)
}

// The resonator's next sample, its input scaled so that the ring's peak does not grow with its length.
#[tactic(auto, unfolding(crate::specs::Tom::ring_of))]
fn ring(t: Tom, hz: f32, r: f32, x: f32) -> f32
    ensures { result ≡ ring_of t hz r x }
{
    let w = float::TAU * float::min(hz, 12000.0) / float::FS;
    2.0 * r * sine::cos(w) * t.y1 - r * r * t.y2 + x * (1.0 - r)
}

impl Tom {
    #[tactic(auto, unfolding(crate::specs::Tom::tom_new))]
    pub fn new() -> Tom
        ensures { result ≡ tom_new }
    {
        Tom {
            y1: 0.0,
            y2: 0.0,
            det: 1.0,
            quiet: TOM_REST,
        }
    }

    // A nonzero word after a rest is a hit, which draws its detune.
    #[tactic(auto, unfolding(crate::specs::Tom::excite_of))]
    fn excite(self, d: i32, w: Wobble) -> Drawn<Tom>
        ensures { result ≡ excite_of d self w }
    {
        if d == 0 {
            return Drawn {
                x: Tom {
                    quiet: float::saturating_add(self.quiet, 1),
                    ..self
                },
                w,
            };
        }
        if self.quiet < TOM_REST {
            return Drawn {
                x: Tom { quiet: 0, ..self },
                w,
            };
        }
        let h = w.detune(DETUNE_CENTS);
        Drawn {
            x: Tom {
                det: h.x,
                quiet: 0,
                ..self
            },
            w: h.w,
        }
    }

    // One sample of tom t (0 BT, 1 LT, 2 MT/HT), whose exciter's DAC word is d. An enum is no plainer: t is a place in two arrays, the board's in
    // a `for` over it and the table of specs, and every number is one.
    #[tactic(auto, using(frame::proofs::Tables::tom_inside_lem), unfolding(crate::specs::Tom::sample_of))]
    pub fn sample(self, f: &Frame, t: usize, d: i32, w: Wobble) -> TomOut
        ensures { result ≡ sample_of f.now t d self w }
    {
        let spec = frame::tom_spec(t);
        let Drawn { x: tom, w } = self.excite(d, w);
        let cv = frame::word_f32(f.as_slice(), spec.tune);
        let hz = hz(cv, tom.det);
        if (65535.0 <= cv) | (hz < 10.0) {
            // Parked, or no pitch: let it die.
            let y = self.y1 * 0.99;
            return TomOut {
                tom: Tom {
                    y1: y,
                    y2: self.y2 * 0.99,
                    ..tom
                },
                w,
                y,
            };
        }
        let x = float::from_i32(d) / 8388608.0;
        let r = decay(frame::signed_f32(f.as_slice(), spec.decay) / 32767.0);
        let y = ring(self, hz, r, x);
        TomOut {
            tom: Tom {
                y1: y,
                y2: self.y1,
                ..tom
            },
            w,
            y,
        }
    }
}
