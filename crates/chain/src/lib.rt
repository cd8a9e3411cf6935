// A voice's own chain after its source: overdrive, multimode filter under its envelope, amp.
#![tactic(auto)]

ghost use Rattle.std.specs.Prelude.{◌≡◌, true, ◌<◌};
ghost use Rattle.envelope.specs.Moves.{seg_of};
ghost use Rattle.chain.specs.Chain.{EachItsOwn, Stored, Traced, chain_new, drive_of, cutoff_of, limited_of, res_of, coefs_of, stored_of, multimode_of, lp1_of, pick_of, finite_or, settings_of, filter_of, gain_of, process_of};

use envelope::SegEnv;
use frame::{FltType, Frame};
use stereo::Mix;

#[repr(C)]
#[derive(Clone, Copy)]
pub struct Chain {
    // The left side's amp, and the filter.
    pub amp: SegEnv,
    pub flt: SegEnv,
    // The state-variable filter's integrators, and the one-pole.
    pub low: f32,
    pub band: f32,
    pub lp1: f32,
    // The right side's amp.
    pub amp_r: SegEnv,
    // What the filter goes by.
    pub coefs: Coefs,
}

// A chain after its sample, and the sample, left and right; with it the filtered sample that the amps took, and the cutoff that the tangent took. Each state has such a struct of its own, whose fields say what they are; a generic one would
// name them first and second.
#[derive(Clone, Copy)]
pub struct ChainOut {
    pub chain: Chain,
    pub y: Mix,
    pub filtered: f32,
    pub cutoff: f32,
}

// What the frame says to a chain.
#[derive(Clone, Copy)]
pub struct Settings {
    pub ovr: f32,
    pub frq: f32,
    pub depth: f32,
    pub res: f32,
    pub kind: FltType,
    // The records of the amp, left and right, and of the filter.
    pub ra: [u8; 8],
    pub ra_r: [u8; 8],
    pub rf: [u8; 8],
}

impl Settings {
    #[tactic(auto, unfolding(crate::specs::Chain::settings_of))]
    fn read(f: &Frame, v: usize) -> Settings
        requires { v < 8 }
        ensures { result ≡ settings_of f.now v }
    {
        let bytes = f.as_slice();
        Settings {
            ovr: frame::word_f32(bytes, frame::OVR + 2 * v),
            frq: frame::signed_f32(bytes, frame::FRQ + 2 * v),
            depth: frame::signed_f32(bytes, frame::FLT_ENV + 8 * v),
            res: frame::word_f32(bytes, frame::RES + 2 * v),
            kind: FltType::from(frame::flt_code(f, v)),
            ra: frame::bytes(bytes, frame::AMP_ENV + 8 * v),
            ra_r: frame::bytes(bytes, frame::AMP_ENV_R + 8 * v),
            rf: frame::bytes(bytes, frame::FLT_ENV + 8 * v),
        }
    }
}

// OVR 0 is clean, full scale about 18 dB of drive into a soft clip.
#[tactic(auto, unfolding(crate::specs::Chain::drive_of))]
fn overdrive(word: f32, x: f32) -> f32
    ensures { result ≡ drive_of word x }
{
    let ovr = float::clamp(word / 65536.0, 0.0, 1.0);
    let drive = 1.0 + 8.0 * ovr * ovr;
    if 1.01 < drive {
        return tanh::tanh(x * drive) / float::max(tanh::tanh(drive), 0.3);
    }
    x
}

// The cutoff in Hz: FRQ plus the envelope, one semitone a step, 440 Hz at 60.
#[tactic(auto, unfolding(crate::specs::Chain::cutoff_of))]
pub fn cutoff(frq: f32, depth: f32, level: f32) -> f32
    ensures { result ≡ cutoff_of frq depth level }
{
    let cv = frq + depth * (float::max(level, 0.0) / 127.0);
    let n = cv / 512.0 + 64.0;
    float::clamp(440.0 * power::exp2((n - 60.0) / 12.0), 10.0, 22000.0)
}

// The cutoff that the tangent takes, short of its pole.
#[tactic(auto, unfolding(crate::specs::Chain::limited_of))]
fn limited(fc: f32) -> f32
    ensures { result ≡ limited_of fc }
{
    float::min(fc, float::FS * 0.45)
}

#[tactic(auto, unfolding(crate::specs::Chain::res_of))]
fn resonance(word: f32) -> f32
    ensures { result ≡ res_of word }
{
    float::clamp(word / (127.0 * 256.0), 0.0, 1.0)
}

// The filter's coefficients, and the cutoff and the resonance that they came from.
#[repr(C)]
#[derive(Clone, Copy)]
pub struct Coefs {
    pub fc: f32,
    pub res: f32,
    // The tangent, the damping and the quotients of the state-variable filter.
    pub g: f32,
    pub k: f32,
    pub a1: f32,
    pub a2: f32,
    pub a3: f32,
    // The one-pole's.
    pub a: f32,
}

#[tactic(auto, unfolding(crate::specs::Chain::coefs_of))]
fn coefficients(fc: f32, res: f32) -> Coefs
    ensures { result ≡ coefs_of fc res }
{
    let g = sine::tan(float::PI * limited(fc) / float::FS);
    let k = 2.0 * (1.0 - 0.97 * res);
    let a1 = 1.0 / (1.0 + g * (g + k));
    Coefs {
        fc,
        res,
        g,
        k,
        a1,
        a2: g * a1,
        a3: g * g * a1,
        a: pole::coefficient(fc),
    }
}

// The coefficients as they were kept, unless the cutoff or the resonance differs in its bits.
#[tactic(auto, unfolding(crate::specs::Chain::stored_of))]
fn stored(was: Coefs, fc: f32, res: f32) -> Coefs
    ensures { result ≡ stored_of was fc res }
{
    if float::same_bits(fc, was.fc) & float::same_bits(res, was.res) {
        return was;
    }
    coefficients(fc, res)
}

// The integrators' next states, and the three outputs.
#[derive(Clone, Copy)]
pub struct Multimode {
    pub low: f32,
    pub band: f32,
    pub lp: f32,
    pub bp: f32,
    pub hp: f32,
}

// A topology-preserving state-variable filter.
#[tactic(auto, unfolding(crate::specs::Chain::multimode_of))]
fn filter(low: f32, band: f32, x: f32, c: Coefs) -> Multimode
    ensures { result ≡ multimode_of low band x c }
{
    let v3 = x - low;
    let bp = c.a1 * band + c.a2 * v3;
    let lp = low + c.a2 * band + c.a3 * v3;
    Multimode {
        low: 2.0 * lp - low,
        band: 2.0 * bp - band,
        lp,
        bp,
        hp: x - c.k * bp - lp,
    }
}

// The output of the filter's type.
#[tactic(auto, unfolding(crate::specs::Chain::pick_of))]
fn pick(kind: FltType, s: Multimode, lp1: f32, x: f32, k: f32, res: f32) -> f32
    ensures { result ≡ pick_of kind s lp1 x k res }
{
    match kind {
        FltType::Lp2 => s.lp,
        FltType::Lp1 => lp1,
        FltType::Bp => s.bp,
        FltType::Hp1 => x - lp1,
        FltType::Hp2 => s.hp,
        FltType::Bs => s.lp + s.hp,
        FltType::Pk => x + s.bp * k * 2.0 * res,
    }
}

// What the filter leaves: its states, and its sample. Where that is not finite it is 0, and the two integrators are cleared.
#[derive(Clone, Copy)]
pub struct Filtered {
    pub low: f32,
    pub band: f32,
    pub lp1: f32,
    pub y: f32,
}

#[tactic(auto, unfolding(crate::specs::Chain::finite_or))]
fn replace(s: Multimode, lp1: f32, y: f32) -> Filtered
    ensures { result ≡ finite_or s lp1 y }
{
    if float::is_finite(y) {
        return Filtered {
            low: s.low,
            band: s.band,
            lp1,
            y,
        };
    }
    Filtered {
        low: 0.0,
        band: 0.0,
        lp1,
        y: 0.0,
    }
}

// The filter of a chain by these coefficients, on the driven sample x.
#[tactic(auto, unfolding(crate::specs::Chain::filter_of, crate::specs::Chain::lp1_of))]
fn run_filter(c: Chain, kind: FltType, q: Coefs, x: f32) -> Filtered
    ensures { result ≡ filter_of c.low c.band c.lp1 kind q x }
{
    let s = filter(c.low, c.band, x, q);
    let lp1 = pole::moved(c.lp1, x, q.a);
    replace(s, lp1, pick(kind, s, lp1, x, q.k, q.res))
}

// An amp after its record, and its level as a gain.
#[derive(Clone, Copy)]
struct AmpOut {
    amp: SegEnv,
    gain: f32,
}

#[tactic(auto, unfolding(crate::specs::Chain::gain_of))]
fn run_amp(amp: SegEnv, r: [u8; 8]) -> AmpOut
    ensures { (result.amp ≡ seg_of true r amp) × (result.gain ≡ gain_of (seg_of true r amp).level) }
{
    let after = amp.amp(r);
    AmpOut {
        amp: after,
        gain: envelope::gain(after.level, 0.0),
    }
}

// The right amp's. Where it stands as the left one and its record has the same bytes, it comes to the same, and is not worked out again.
fn run_right(amp: SegEnv, ra: [u8; 8], amp_r: SegEnv, ra_r: [u8; 8], left: AmpOut) -> AmpOut
    requires { (left.amp ≡ seg_of true ra amp) × (left.gain ≡ gain_of (seg_of true ra amp).level) }
    ensures { (result.amp ≡ seg_of true ra_r amp_r) × (result.gain ≡ gain_of (seg_of true ra_r amp_r).level) }
{
    if envelope::same(ra_r, ra) & amp_r.same_amp(amp) {
        return left;
    }
    run_amp(amp_r, ra_r)
}

impl Chain {
    #[tactic(auto, unfolding(crate::specs::Chain::chain_new))]
    pub fn new() -> Chain
        ensures { result ≡ chain_new }
    {
        let e = SegEnv {
            key: envelope::Key {
                start: 0,
                target: 0,
                rate: 0,
            },
            level: 0.0,
            hold: false,
            cmd: false,
        };
        Chain {
            amp: e,
            flt: e,
            low: 0.0,
            band: 0.0,
            lp1: 0.0,
            amp_r: e,
            coefs: coefficients(440.0, 0.0),
        }
    }

    // One sample of voice v's chain. A type for the numbers below 8 would be no plainer: a loop makes v, and each offset multiplies it.
    #[tactic(auto, unfolding(crate::specs::Chain::process_of, crate::specs::Chain::gain_of))]
    pub fn process(self, f: &Frame, v: usize, x: f32) -> ChainOut
        requires { v < 8 }
        ensures value { result ≡ process_of f.now v x self }
        ensures own { EachItsOwn f.now v x self result }
        ensures stored { Stored f.now v x self result }
        ensures traced { Traced result }
    {
        let i = Settings::read(f, v);
        let left = run_amp(self.amp, i.ra);
        let right = run_right(self.amp, i.ra, self.amp_r, i.ra_r, left);
        let flt = self.flt.filter(i.rf);
        let fc = cutoff(i.frq, i.depth, flt.level);
        let coefs = stored(self.coefs, fc, resonance(i.res));
        let s = run_filter(self, i.kind, coefs, overdrive(i.ovr, x));
        ChainOut {
            chain: Chain {
                amp: left.amp,
                flt,
                low: s.low,
                band: s.band,
                lp1: s.lp1,
                amp_r: right.amp,
                coefs,
            },
            y: Mix {
                l: s.y * left.gain,
                r: s.y * right.gain,
            },
            filtered: s.y,
            cutoff: limited(fc),
        }
    }
}
