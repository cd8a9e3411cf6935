// The master compressor: a peak detector with its sidechain filter, a static curve with a soft knee, make-up, dry against wet, volume.
#![tactic(auto)]

ghost use Rattle.std.specs.Prelude.{◌≡◌, Bool, ◌<◌};
ghost use Rattle.float.specs.Consts.{k0p45};
ghost use Rattle.float.specs.Ops.{◌⊗◌, ◌⊘◌};
ghost use Rattle.comp.specs.Consts.{k1000};
ghost use Rattle.comp.specs.Tables.{attack_of, release_of, ratio_of, vol_row};
ghost use Rattle.comp.specs.Comp.{comp_new, settings_of, peak_of, side_of, pole_of, sidechain_of, seq_of, detect_of, coef_of, smooth_of, follow_of, level_of, soft_of, reduction_of, mup_db, makeup_of, vol_first, vol_turn, vol_of, db_of, gain_of, process_of};

use slices::AtLeast;
use stereo::Mix;

// The sidechain's two low-passes.
#[repr(C)]
#[derive(Clone, Copy)]
pub struct Sc {
    pub lo: f32,
    pub hi: f32,
}

#[repr(C)]
#[derive(Clone, Copy)]
pub struct Comp {
    pub env: f32,
    pub sc: Sc,
}

// As `ChainOut`.
#[derive(Clone, Copy)]
pub struct CompOut {
    pub comp: Comp,
    pub mix: Mix,
}

static COMP_ATK_MS: [f32; 7] = [0.03, 0.1, 0.3, 1.0, 3.0, 10.0, 30.0];

static COMP_REL_S: [f32; 8] = [0.1, 0.2, 0.4, 0.6, 1.0, 2.0, 0.4, 0.6];

static COMP_RATIO: [f32; 4] = [10.0, 6.0, 3.5, 2.5];

// A row of VOL: the dry gain in dB under that of 127, and wet minus dry, which nothing reads.
#[derive(Clone, Copy)]
pub struct VolRow {
    pub vol: f32,
    pub dry: f32,
    pub wet: f32,
}

static COMP_VOL: [VolRow; 9] = [
    VolRow {
        vol: 40.0,
        dry: -10.85,
        wet: -16.57,
    },
    VolRow {
        vol: 52.0,
        dry: -8.30,
        wet: -14.18,
    },
    VolRow {
        vol: 64.0,
        dry: -6.38,
        wet: -12.35,
    },
    VolRow {
        vol: 76.0,
        dry: -4.85,
        wet: -10.86,
    },
    VolRow {
        vol: 88.0,
        dry: -3.44,
        wet: -9.59,
    },
    VolRow {
        vol: 100.0,
        dry: -2.20,
        wet: -8.42,
    },
    VolRow {
        vol: 112.0,
        dry: -1.13,
        wet: -7.38,
    },
    VolRow {
        vol: 124.0,
        dry: -0.21,
        wet: -6.34,
    },
    VolRow {
        vol: 127.0,
        dry: 0.0,
        wet: -6.26,
    },
];

// What a sample keeps of the envelope, of a time in seconds.
#[tactic(auto, unfolding(crate::specs::Comp::coef_of))]
fn coef(t: f32) -> f32
    ensures { result ≡ coef_of t }
{
    pole::kept(float::max(t, 0.00001))
}

// The tables, each by its parameter's byte; past the end the last.
#[tactic(auto, unfolding(crate::specs::Tables::attack_of, crate::specs::Tables::attacks))]
fn attack(b: u8) -> f32
    ensures { result ≡ coef_of (attack_of b ⊘ k1000) }
{
    coef(COMP_ATK_MS[usize::from(b.min(6))] / 1000.0)
}

#[tactic(auto, unfolding(crate::specs::Tables::release_of, crate::specs::Tables::releases))]
fn release(b: u8) -> f32
    ensures { result ≡ coef_of (k0p45 ⊗ release_of b) }
{
    coef(0.45 * COMP_REL_S[usize::from(b.min(7))])
}

#[tactic(auto, unfolding(crate::specs::Tables::ratio_of, crate::specs::Tables::ratios))]
fn ratio(b: u8) -> f32
    ensures { result ≡ ratio_of b }
{
    COMP_RATIO[usize::from(b.min(3))]
}

fn vol_row(i: usize) -> VolRow
    ensures { result ≡ vol_row i }
{
    COMP_VOL[i.min(8)]
}

// ---- parameters

// The FX parameters, as far as the compressor's go.
pub type Parameters<'a> = AtLeast<'a, u8, 24>;

// What the detector hears: SEQ 1 LPF, 2 HPF, 3 HIT (a weighting of high frequencies), else OFF.
#[derive(Clone, Copy)]
pub enum Sidechain {
    Off,
    Lpf,
    Hpf,
    Hit,
}

impl From<u8> for Sidechain {
    // Of SEQ.
    ghost from_gives = { λ seq kind. kind ≡ seq_of seq };

    #[tactic(auto, unfolding(crate::specs::Comp::seq_of))]
    fn from(seq: u8) -> Sidechain {
        match seq {
            1 => Sidechain::Lpf,
            2 => Sidechain::Hpf,
            3 => Sidechain::Hit,
            _ => Sidechain::Off,
        }
    }
}

// What the compressor reads off the FX parameters: of each 8.8 word the whole part.
#[derive(Clone, Copy)]
pub struct Settings {
    pub thr: f32,
    pub atk: u8,
    pub rel: u8,
    pub rat: u8,
    pub seq: Sidechain,
    pub mup: f32,
    pub mix: f32,
    pub vol: f32,
}

impl Settings {
    #[tactic(auto, unfolding(crate::specs::Comp::settings_of))]
    fn read(p: &Parameters) -> Settings
        ensures { result ≡ settings_of p.now }
    {
        let p = p.as_slice();
        Settings {
            thr: p[6] as f32,
            atk: p[8],
            rel: p[10],
            rat: p[12],
            seq: Sidechain::from(p[14]),
            mup: p[16] as f32,
            mix: p[18] as f32,
            vol: p[20] as f32,
        }
    }
}

// ---- detector

#[tactic(auto, unfolding(crate::specs::Comp::peak_of))]
fn peak(m: Mix) -> f32
    ensures { result ≡ peak_of m.l m.r }
{
    float::max(float::abs(m.l), float::abs(m.r))
}

// The peak x with a sign, for the sidechain's filters.
#[tactic(auto, unfolding(crate::specs::Comp::side_of))]
fn side(x: f32, m: Mix) -> f32
    ensures { result ≡ side_of x m.l m.r }
{
    x * float::max(float::signum(m.l), float::signum(m.r))
}

// The low-passes at 400 and 2500 Hz.
#[tactic(auto, unfolding(crate::specs::Comp::sidechain_of, crate::specs::Comp::pole_of))]
fn low_passes(sc: Sc, s: f32) -> Sc
    ensures { result ≡ sidechain_of sc s }
{
    Sc {
        lo: pole::one_pole(sc.lo, s, 400.0),
        hi: pole::one_pole(sc.hi, s, 2500.0),
    }
}

#[tactic(auto, unfolding(crate::specs::Comp::detect_of))]
fn detect(seq: Sidechain, x: f32, s: f32, sc: Sc) -> f32
    ensures { result ≡ detect_of seq x s sc }
{
    match seq {
        Sidechain::Lpf => float::abs(sc.lo) * 1.6,
        Sidechain::Hpf => float::abs(s - sc.lo),
        Sidechain::Hit => float::abs(s - sc.hi) * 1.6,
        Sidechain::Off => x,
    }
}

#[tactic(auto, unfolding(crate::specs::Comp::smooth_of))]
fn smooth(rises: bool, atk: u8, rel: u8) -> f32
    ensures { result ≡ smooth_of rises atk rel }
{
    if rises {
        return attack(atk);
    }
    release(rel)
}

#[tactic(auto, unfolding(crate::specs::Comp::follow_of))]
fn follow(env: f32, det: f32, atk: u8, rel: u8) -> f32
    ensures { result ≡ follow_of env det atk rel }
{
    let c = smooth(env < det, atk, rel);
    det + c * (env - det)
}

// ---- gains, in dB

#[tactic(auto, unfolding(crate::specs::Comp::level_of))]
fn level(env: f32) -> f32
    ensures { result ≡ level_of env }
{
    20.0 * log10::log10(float::max(env, 0.000001))
}

// What the knee lets through of a level over the threshold.
#[tactic(auto, unfolding(crate::specs::Comp::soft_of))]
fn soft(over: f32) -> f32
    ensures { result ≡ soft_of over }
{
    let knee = 20.0;
    if over <= -knee / 2.0 {
        return 0.0;
    }
    if knee / 2.0 <= over {
        return over;
    }
    let d = over + knee / 2.0;
    d * d / (2.0 * knee)
}

#[tactic(auto, unfolding(crate::specs::Comp::reduction_of))]
fn reduction(env: f32, thr: f32, rat: u8) -> f32
    ensures { result ≡ reduction_of env thr rat }
{
    let t_db = -0.9 * (105.0 - thr);
    soft(level(env) - t_db) * (1.0 - 1.0 / ratio(rat))
}

#[tactic(auto, unfolding(crate::specs::Comp::mup_db))]
fn mup_db(m: f32) -> f32
    ensures { result ≡ mup_db m }
{
    if m <= 48.0 {
        return 0.6 * m;
    }
    28.8 + (m - 48.0) * (40.3 - 28.8) / 79.0
}

// The make-up, anchored so that MUP 47 leaves the wet path at unity.
#[tactic(auto, unfolding(crate::specs::Comp::makeup_of))]
fn makeup(m: f32) -> f32
    ensures { result ≡ makeup_of m }
{
    mup_db(m) - mup_db(47.0)
}

// The first row, extended below by 0.2 dB a step.
#[tactic(auto, unfolding(crate::specs::Comp::vol_first))]
fn vol_first(vol: f32) -> f32
    ensures { result ≡ vol_first vol }
{
    let first = vol_row(0);
    if vol < first.vol {
        return first.dry - (first.vol - vol) * 0.2;
    }
    first.dry
}

// The line from row i to the next, where VOL lies on it.
#[tactic(auto, unfolding(crate::specs::Comp::vol_turn))]
fn vol_turn(out: f32, i: usize, vol: f32) -> f32
    requires { i < 8 }
    ensures { result ≡ vol_turn vol i out }
{
    let a = vol_row(i);
    let b = vol_row(i + 1);
    if (vol <= b.vol) & (a.vol <= vol) {
        let k = (vol - a.vol) / (b.vol - a.vol);
        return a.dry + k * (b.dry - a.dry);
    }
    out
}

#[tactic(auto, unfolding(lists::specs::Turns::turns_of, crate::specs::Comp::vol_of))]
fn vol_db(vol: f32) -> f32
    ensures { result ≡ vol_of vol }
{
    let mut out = vol_first(vol);
    for i in 0..8 {
        out = vol_turn(out, i, vol);
    }
    out
}

#[tactic(auto, unfolding(crate::specs::Comp::db_of))]
fn db(x: f32) -> f32
    ensures { result ≡ db_of x }
{
    power::pow10(x / 20.0)
}

// The crossfade of MIX, of the two gains in dB.
#[tactic(auto, unfolding(crate::specs::Comp::gain_of))]
fn gain(dry: f32, wet: f32, mix: f32) -> f32
    ensures { result ≡ gain_of dry wet mix }
{
    let m = float::clamp(mix / 127.0, 0.0, 1.0);
    db(dry) * (1.0 - m) + db(wet) * m
}

impl Comp {
    #[tactic(auto, unfolding(crate::specs::Comp::comp_new))]
    pub fn new() -> Comp
        ensures { result ≡ comp_new }
    {
        Comp {
            env: 0.0,
            sc: Sc { lo: 0.0, hi: 0.0 },
        }
    }

    // One sample of the mix, by the FX parameters.
    #[tactic(auto, unfolding(crate::specs::Comp::process_of))]
    pub fn process(self, p: &Parameters, m: Mix) -> CompOut
        ensures { result ≡ process_of p.now m.l m.r self }
    {
        let i = Settings::read(p);
        let x = peak(m);
        let s = side(x, m);
        let sc = low_passes(self.sc, s);
        let det = detect(i.seq, x, s, sc);
        let env = follow(self.env, det, i.atk, i.rel);
        let gr = reduction(env, i.thr, i.rat);
        let dry = vol_db(i.vol);
        let g = gain(dry, dry - gr + makeup(i.mup), i.mix);
        CompOut {
            comp: Comp { env, sc },
            mix: Mix {
                l: m.l * g,
                r: m.r * g,
            },
        }
    }
}
