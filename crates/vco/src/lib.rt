// The dual-oscillator core of the BD, SD and RS voices: two oscillators, each with a waveform, and FM and ring modulation between them.
#![tactic(auto)]

ghost use Rattle.std.specs.Prelude.{◌≡◌, Bool};
ghost use Rattle.vco.specs.Vco.{wave_from_bits, wave_at, asym_of, osc_of, ring_of, modulated, advanced, advanced_fm, KeepsBelowOne, pair_of};

// FM depth: units of oscillator 2's level word per 1.0 of relative frequency deviation.
pub const FM_UNITS: f32 = 4096.0;

#[derive(Clone, Copy)]
pub enum Wave {
    Off,
    Sine,
    AsymSine,
    Triangle,
    SineSaw,
    Saw,
    Square,
}

// The asymmetric sine's place in its turn: the first half-cycle takes 35 % of the period.
#[tactic(auto, unfolding(crate::specs::Vco::asym_of))]
fn asym(ph: f32) -> f32
    ensures { result ≡ asym_of ph }
{
    float::choose(ph < 0.35, ph / 0.7, 0.5 + (ph - 0.35) / 1.3)
}

impl Wave {
    // The waveform of the bits (a, b, c).
    #[tactic(auto, unfolding(crate::specs::Vco::wave_from_bits))]
    pub fn from_bits(a: bool, b: bool, c: bool) -> Wave
        ensures { result ≡ wave_from_bits a b c }
    {
        match (a, b, c) {
            (true, false, true) => Wave::Sine,
            (false, false, true) => Wave::AsymSine,
            (true, true, true) => Wave::Triangle,
            (true, false, false) => Wave::SineSaw,
            (true, true, false) => Wave::Saw,
            (false, true, true) => Wave::Square,
            (false, _, false) => Wave::Off,
        }
    }

    // The waveform at phase `ph` (0..1).
    #[tactic(auto, unfolding(crate::specs::Vco::wave_at))]
    pub fn at(self, ph: f32) -> f32
        ensures { result ≡ wave_at self ph }
    {
        match self {
            Wave::Off => 0.0,
            Wave::Sine => sine::sin(float::TAU * ph),
            Wave::AsymSine => sine::sin(float::TAU * asym(ph)),
            Wave::Triangle => 1.0 - 4.0 * float::abs(float::fract(ph + 0.25) - 0.5),
            Wave::SineSaw => 0.7 * sine::sin(float::TAU * ph) + 0.3 * (2.0 * ph - 1.0),
            Wave::Saw => 2.0 * float::fract(ph + 0.5) - 1.0,
            Wave::Square => float::choose(ph < 0.5, 1.0, -1.0),
        }
    }
}

// One audio frame's settings of a dual-oscillator voice. A frequency beside its `stopped`, a depth beside `fm`: an `Option` is no plainer, since
// `sample` works both ways out without a branch and would take it apart at each of three uses; so would a pair of fields as an array.
#[repr(C)]
#[derive(Clone, Copy)]
pub struct Osc2Set {
    // Each oscillator's frequency in Hz.
    pub hz1: f32,
    pub hz2: f32,
    // Each oscillator's frequency word is 0: the core is stopped.
    pub stopped1: bool,
    pub stopped2: bool,
    pub wave1: Wave,
    pub wave2: Wave,
    pub level1: f32,
    pub level2: f32,
    // Oscillator 2's level word, raw: the FM depth when FM is on.
    pub depth_word: f32,
    pub fm: bool,
    pub ring: bool,
}

// The two cores' phases.
#[repr(C)]
#[derive(Clone, Copy)]
pub struct Pair {
    pub ph1: f32,
    pub ph2: f32,
}

// The cores after a sample, and the sample: a struct of its own, since a call from C takes no generic one.
#[repr(C)]
#[derive(Clone, Copy)]
pub struct PairOut {
    pub pair: Pair,
    pub y: f32,
}

// A stopped core gives a constant.
#[tactic(auto, unfolding(crate::specs::Vco::osc_of))]
fn osc(stopped: bool, wave: Wave, ph: f32) -> f32
    ensures { result ≡ osc_of stopped wave ph }
{
    if stopped {
        return 1.0;
    }
    wave.at(ph)
}

// Ring modulation of o1: times a square from oscillator 2's core, whatever its waveform.
#[tactic(auto, unfolding(crate::specs::Vco::ring_of))]
fn ring(on: bool, o1: f32, stopped: bool, ph: f32) -> f32
    ensures { result ≡ ring_of on o1 stopped ph }
{
    let square = float::choose(stopped | (ph < 0.5), 1.0, -1.0);
    float::choose(on, o1 * square, o1)
}

// Oscillator 1's frequency under FM by o2.
#[tactic(auto, unfolding(crate::specs::Vco::modulated))]
fn modulate(fm: bool, f1: f32, depth_word: f32, o2: f32) -> f32
    ensures { result ≡ modulated fm f1 depth_word o2 }
{
    float::choose(fm, f1 * (1.0 + depth_word / FM_UNITS * o2), f1)
}

// A phase advanced by hz / fs: its fraction.
#[tactic(auto, unfolding(crate::specs::Vco::advanced))]
pub fn advance(ph: f32, hz: f32, fs: f32) -> f32
    ensures { result ≡ advanced ph hz fs }
{
    float::fract(ph + hz / fs)
}

// The same of a modulated core, which can run backwards: the Euclidean remainder, and 0 where that rounds to 1.
pub fn advance_fm(ph: f32, hz: f32, fs: f32) -> f32
    ensures is { result ≡ advanced_fm ph hz fs }
    ensures below { KeepsBelowOne ph hz fs result }
{
    let r = float::rem_euclid_one(ph + hz / fs);
    float::choose(r == 1.0, 0.0, r)
}

impl Pair {
    // One sample at `fs`: oscillator 1 (FM'd, ring-modulated) times its level, plus oscillator 2 times its level unless it is the modulator.
    #[tactic(auto, unfolding(crate::specs::Vco::pair_of))]
    pub fn sample(self, s: Osc2Set, fs: f32) -> PairOut
        ensures { result ≡ pair_of self s fs }
    {
        let o2 = osc(s.stopped2, s.wave2, self.ph2);
        let o1 = ring(
            s.ring,
            osc(s.stopped1, s.wave1, self.ph1),
            s.stopped2,
            self.ph2,
        );
        let f1 = modulate(s.fm, float::min(s.hz1, fs * 0.45), s.depth_word, o2);
        let ph1 = float::choose(s.stopped1, self.ph1, advance_fm(self.ph1, f1, fs));
        let ph2 = float::choose(
            s.stopped2,
            self.ph2,
            advance(self.ph2, float::min(s.hz2, fs * 0.45), fs),
        );
        PairOut {
            pair: Pair { ph1, ph2 },
            y: o1 * s.level1 + float::choose(s.fm, 0.0, o2 * s.level2),
        }
    }
}
