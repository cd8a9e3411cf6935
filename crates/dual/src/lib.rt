// A dual-oscillator voice: BD, SD or RS.
#![tactic(auto)]

ghost use Rattle.std.specs.Prelude.{◌≡◌, Bool};
ghost use Rattle.dual.specs.Dual.{dual_new, settings_of, trig_of, hz_of, word_level, paired_of, plain_of, sound_of, sample_of};
ghost use Rattle.dual.specs.Codes.{FollowsItsCode};
ghost use Rattle.dual.specs.BeforeR7.{OnlyPlainChanged};

use envelope::Env;
use frame::Frame;
use vco::{Osc2Set, Pair, PairOut, Wave};
use wobble::{DETUNE_CENTS, Drift, Wobble};

// Hz per unit of a tune CV: 678 is 55 Hz.
const HZ_PER_TUNE: f32 = 55.0 / 678.0;
// Tune-CV units per pitch-envelope level: 15 levels are three octaves of 678.
const TUNE_PER_PITCH_LEVEL: f32 = 678.0 * 7.0 / 15.0;

#[repr(C)]
#[derive(Clone, Copy)]
pub struct DualOsc {
    // The records as last seen: a changed record carrying the start command starts its segment.
    pub last_p: [u8; 8],
    pub last_a: [u8; 8],
    pub ph1: f32,
    pub ph2: f32,
    pub pitch: Env,
    pub amp: Env,
    // Oscillator 2's amp record: the FM depth's envelope.
    pub last_m: [u8; 8],
    pub amp2: Env,
    pub trig: bool,
    // This hit's detune and the slow drift, per oscillator. Pairs beside one another: C reads these fields as they lie.
    pub det: [f32; 2],
    pub drift: [Drift; 2],
}

// Each source has such a struct of its own, since a call from C takes no generic one.
#[repr(C)]
#[derive(Clone, Copy)]
pub struct DualOut {
    pub dual: DualOsc,
    pub w: Wobble,
    pub y: f32,
}

// What the frame says to a voice.
#[derive(Clone, Copy)]
pub struct Settings {
    pub trig: bool,
    // Oscillator 1's wave switch.
    pub wave1: bool,
    pub wave2: Wave,
    pub fm: bool,
    pub ring: bool,
    pub tune1: u16,
    pub tune2: u16,
    pub level1: u16,
    pub level2: u16,
    // The records of the pitch, of the amplitude, and of oscillator 2's amplitude.
    pub rp: [u8; 8],
    pub ra: [u8; 8],
    pub rm: [u8; 8],
}

impl Settings {
    // Of voice d. A switch goes by its place in the table's `sw`: names for the seven are no plainer, since each is read once, here, and a reader
    // holds the table against the source's, number by number.
    #[tactic(auto, using(frame::proofs::Tables::dual_inside_lem), unfolding(crate::specs::Dual::switch_at, crate::specs::Dual::cv_at, crate::specs::Dual::record_at, crate::specs::Dual::settings_of))]
    fn read(f: &Frame, d: usize) -> Settings
        ensures { result ≡ settings_of f.now d }
    {
        let spec = frame::dual_spec(d);
        let f = f.as_slice();
        Settings {
            trig: frame::bit(f, spec.sw[0]),
            wave1: frame::bit(f, spec.sw[1]),
            wave2: Wave::from_bits(
                frame::bit(f, spec.sw[6]),
                frame::bit(f, spec.sw[3]),
                frame::bit(f, spec.sw[2]),
            ),
            fm: frame::bit(f, spec.sw[4]),
            ring: !frame::bit(f, spec.sw[5]),
            tune1: frame::word(f, spec.cv),
            tune2: frame::word(f, spec.cv + 2),
            level1: frame::word(f, spec.cv + 4),
            level2: frame::word(f, spec.cv + 6),
            rp: frame::bytes(f, spec.env + 8 * frame::PITCH_REC),
            ra: frame::bytes(f, spec.env + 8 * frame::AMP_REC),
            rm: frame::bytes(f, spec.env + 8 * frame::AMP2_REC),
        }
    }
}

// The phases, the detunes and the random source after the trig switch.
#[derive(Clone, Copy)]
pub struct Trigged {
    pub phases: Pair,
    pub det: [f32; 2],
    pub w: Wobble,
}

// A rise resets the phases and draws two detunes, in two lines.
#[tactic(auto, unfolding(crate::specs::Dual::trig_of))]
fn on_trig(rise: bool, phases: Pair, det: [f32; 2], w: Wobble) -> Trigged
    ensures { result ≡ trig_of rise phases det w }
{
    if rise {
        let a = w.detune(DETUNE_CENTS);
        let b = a.w.detune(DETUNE_CENTS);
        return Trigged {
            phases: Pair { ph1: 0.0, ph2: 0.0 },
            det: [a.x, b.x],
            w: b.w,
        };
    }
    Trigged { phases, det, w }
}

// An oscillator's frequency: its tune word and the sweep, detuned and drifting.
#[tactic(auto, unfolding(crate::specs::Dual::hz_of))]
fn hz(tune: u16, pitch: f32, det: f32, ratio: f32) -> f32
    ensures { result ≡ hz_of tune pitch det ratio }
{
    let sweep = float::max(pitch, 0.0) * TUNE_PER_PITCH_LEVEL;
    (tune as f32 + sweep) * HZ_PER_TUNE * det * ratio
}

// `word as f32 / 32767.0`.
#[tactic(auto, unfolding(crate::specs::Dual::word_level))]
fn word_level(w: u16) -> f32
    ensures { result ≡ word_level w }
{
    w as f32 / 32767.0
}

// With FM or ring modulation: the shared core. The frequencies go as two numbers: an array of both would be taken apart at every use.
#[tactic(auto, unfolding(crate::specs::Dual::paired_of))]
fn paired(settings: Settings, phases: Pair, hz1: f32, hz2: f32, amp2: f32) -> PairOut
    ensures { result ≡ paired_of settings phases hz1 hz2 amp2 }
{
    let set = Osc2Set {
        hz1,
        hz2,
        stopped1: settings.tune1 == 0,
        stopped2: settings.tune2 == 0,
        wave1: Wave::from_bits(true, false, settings.wave1),
        wave2: settings.wave2,
        level1: word_level(settings.level1),
        level2: word_level(settings.level2),
        depth_word: settings.level2 as f32 * float::clamp(amp2 / 127.0, 0.0, 1.0),
        fm: settings.fm,
        ring: settings.ring,
    };
    phases.sample(set, float::FS)
}

// Without: oscillator 1 is a sine, with saw added where its wave switch is clear. In the makers' code list a set switch is the sine, 101, and a clear one the sinesaw, 100.
#[tactic(auto, unfolding(crate::specs::Dual::plain_of))]
fn plain(settings: Settings, phases: Pair, hz1: f32, hz2: f32) -> PairOut
    ensures { result ≡ plain_of settings phases hz1 hz2 }
{
    let o2 = sine::sin(float::TAU * phases.ph2);
    let o = sine::sin(float::TAU * phases.ph1);
    let o1 = float::choose(settings.wave1, o, 0.7 * o + 0.3 * (2.0 * phases.ph1 - 1.0));
    PairOut {
        pair: Pair {
            ph1: vco::advance(phases.ph1, hz1, float::FS),
            ph2: vco::advance(phases.ph2, hz2, float::FS),
        },
        y: o1 * word_level(settings.level1) + o2 * word_level(settings.level2),
    }
}

#[tactic(auto, unfolding(crate::specs::Dual::sound_of))]
fn played(settings: Settings, phases: Pair, hz1: f32, hz2: f32, amp2: f32) -> PairOut
    ensures { result ≡ sound_of settings phases hz1 hz2 amp2 }
{
    if settings.fm | settings.ring {
        return paired(settings, phases, hz1, hz2, amp2);
    }
    plain(settings, phases, hz1, hz2)
}

impl DualOsc {
    // Silent until the first trig: the amplitude envelope rests at its floor.
    #[tactic(auto, unfolding(crate::specs::Dual::dual_new))]
    pub fn new() -> DualOsc
        ensures { result ≡ dual_new }
    {
        DualOsc {
            last_p: [0; 8],
            last_a: [0; 8],
            ph1: 0.0,
            ph2: 0.0,
            pitch: Env { level: 0.0 },
            amp: Env { level: -128.0 },
            last_m: [0; 8],
            amp2: Env { level: -128.0 },
            trig: false,
            det: [1.0, 1.0],
            drift: [Drift::new(); 2],
        }
    }

    // One sample of voice d: 0 BD, 1 SD, 2 RS. An enum is no plainer: d is a place in two arrays, the board's in a `for` over it and the table of
    // specs, and every number is one.
    pub fn sample(self, f: &Frame, d: usize, w: Wobble) -> DualOut
        ensures value { result ≡ sample_of f.now d self w }
        ensures code { FollowsItsCode f.now d self result }
        ensures alone { OnlyPlainChanged f.now d self w result }
    {
        let settings = Settings::read(f, d);
        let phases = Pair {
            ph1: self.ph1,
            ph2: self.ph2,
        };
        let Trigged { phases, det, w } = on_trig(settings.trig & !self.trig, phases, self.det, w);
        let Settings { rp, ra, rm, .. } = settings;
        let pitch = self.pitch.dual(self.last_p, rp);
        let amp = self.amp.dual(self.last_a, ra);
        let amp2 = self.amp2.dual(self.last_m, rm);
        let d1 = self.drift[0].tick(w);
        let d2 = self.drift[1].tick(d1.w);
        let hz1 = hz(settings.tune1, pitch.level, det[0], d1.x.ratio);
        let hz2 = hz(settings.tune2, pitch.level, det[1], d2.x.ratio);
        let s = played(settings, phases, hz1, hz2, amp2.level);
        DualOut {
            dual: DualOsc {
                last_p: rp,
                last_a: ra,
                ph1: s.pair.ph1,
                ph2: s.pair.ph2,
                pitch,
                amp,
                last_m: rm,
                amp2,
                trig: settings.trig,
                det,
                drift: [d1.x, d2.x],
            },
            w: d2.w,
            y: s.y * envelope::gain(amp.level, -127.5),
        }
    }
}
