// What the hat and the cymbal share: draws on a hit, a bank of six square waves, a state-variable filter.
#![tactic(auto)]

ghost use Rattle.std.specs.Prelude.{◌≡◌, ◌+◌, ◌≤◌, ◌<◌, List};
ghost use Rattle.frame.specs.Offsets.{FRAME_BYTES};
ghost use Rattle.lists.specs.Turns.{turns_of};
ghost use Rattle.metal.specs.Metal.{draw, hit_draws, turn_of, bank_of, svf_coefficient, svf_of};

use frame::Frame;
use wobble::{DETUNE_CENTS, Drawn, Wobble};

// A bank field's units per Hz.
const HAT_UNITS_PER_HZ: f32 = 43.62;

// ---- draws

// Each of the six drawn anew, in turn.
#[tactic(auto, unfolding(lists::specs::Turns::turns_of, crate::specs::Metal::draw))]
fn draw_six<F: Fn(Wobble) -> Drawn<f32>>(one: F, d: Drawn<[f32; 6]>) -> Drawn<[f32; 6]>
    requires { F.IsAlwaysCallable one }
    ensures { (g : _) → ((w : _) (r : _) → F.post one w r → r ≡ g w) → result ≡ turns_of 6 (draw g) d }
{
    let mut s = d;
    for k in 0..6 {
        let p = one(s.w);
        s.x[k] = p.x;
        s.w = p.w;
    }
    s
}

// The phases, the detunes and the random source of a voice.
#[derive(Clone, Copy)]
pub struct Drawn6 {
    pub ph: [f32; 6],
    pub det: [f32; 6],
    pub w: Wobble,
}

// A hit draws detunes, and before them phases where it follows silence.
#[tactic(auto, unfolding(crate::specs::Metal::hit_draws))]
pub fn on_hit(hit: bool, silent: bool, was: Drawn6) -> Drawn6
    ensures { result ≡ hit_draws hit silent was.ph was.det was.w }
{
    if !hit {
        return was;
    }
    let Drawn6 { ph, det, w } = was;
    let mut p = Drawn { x: ph, w };
    if silent {
        p = draw_six(|w: Wobble| w.phase(), p);
    }
    let d = draw_six(|w: Wobble| w.detune(DETUNE_CENTS), Drawn { x: det, w: p.w });
    let Drawn { x: ph, .. } = p;
    let Drawn { x: det, w } = d;
    Drawn6 { ph, det, w }
}

// ---- the bank

#[derive(Clone, Copy)]
pub struct Bank {
    pub ph: [f32; 6],
    // The sum of the squares, and how many of them run.
    pub metal: f32,
    pub running: u32,
}

impl Bank {
    // Oscillator k, whose field is v. `skip`: a field of 0 leaves it off.
    #[tactic(auto, unfolding(crate::specs::Metal::turn_of))]
    fn turn(&mut self, k: usize, v: u32, det: &[f32; 6], skip: bool)
        requires { (k < 6) × (self.old.running ≤ k) }
        ensures { (self.new ≡ turn_of v det.now skip k self.old) × (self.new.running ≤ k + 1) }
    {
        if skip & (v == 0) {
            return;
        }
        let ph = vco::advance(
            self.ph[k],
            float::from_u32(v) / HAT_UNITS_PER_HZ * det[k],
            float::FS,
        );
        self.ph[k] = ph;
        self.metal += float::choose(ph < 0.5, 1.0, -1.0);
        self.running += 1;
    }
}

// The six in turn; their fields stand from `o` on. Phases and detunes come apart, since the hat and the cymbal keep them apart for C.
#[tactic(auto, unfolding(lists::specs::Turns::turns_of, crate::specs::Metal::bank_of))]
pub fn run(f: &Frame, o: usize, ph: [f32; 6], det: &[f32; 6], skip: bool) -> Bank
    requires { o + 24 ≤ FRAME_BYTES }
    ensures { (result ≡ bank_of f.now o ph det.now skip) × (result.running ≤ 6) }
{
    let bytes = f.as_slice();
    let mut b = Bank {
        ph,
        metal: 0.0,
        running: 0,
    };
    for k in 0..6 {
        b.turn(k, frame::field(bytes, o + 4 * k), det, skip);
    }
    b
}

// ---- the filter

// The filter's coefficient of a cutoff in Hz.
pub fn coefficient(fc: f32) -> f32
    ensures { result ≡ svf_coefficient fc }
{
    2.0 * sine::sin(float::PI * fc / float::FS)
}

#[repr(C)]
#[derive(Clone, Copy)]
pub struct Svf {
    pub low: f32,
    pub band: f32,
}

// A filter after its sample, and the high-pass; the band-pass is in the state. A struct of its own, as `ChainOut`: its fields say what they are.
#[derive(Clone, Copy)]
pub struct SvfOut {
    pub svf: Svf,
    pub high: f32,
}

impl Svf {
    #[tactic(auto, unfolding(crate::specs::Metal::svf_of))]
    pub fn tick(self, x: f32, g: f32, damp: f32) -> SvfOut
        ensures { result ≡ svf_of self x g damp }
    {
        let high = x - self.low - damp * self.band;
        let band = self.band + g * high;
        SvfOut {
            svf: Svf {
                low: self.low + g * band,
                band,
            },
            high,
        }
    }
}
