// The cymbal and cowbell: the metal bank through five filtered paths, each under one of eight envelopes.
#![tactic(auto)]

ghost use Rattle.std.specs.Prelude.{◌≡◌, ◌<◌};
ghost use Rattle.lists.specs.Turns.{each_of};
ghost use Rattle.cym.specs.Cym.{cym_new, record_at, env_at, modes_at, any_hit, no_env, quiet_of, coefficient_of, path_of, paths_of, sound_of, sample_of};

use envelope::Env;
use frame::Frame;
use metal::{Bank, Drawn6, Svf};
use std::array;
use wobble::Wobble;

// Phases beside detunes and envelopes beside modes, as the C header has them.
#[repr(C)]
#[derive(Clone, Copy)]
pub struct Cym {
    pub ph: [f32; 6],
    pub det: [f32; 6],
    pub env: [Env; 8],
    pub mode: [u8; 8],
    pub svf: [Svf; 5],
}

// Each source has such a struct of its own, since a call from C takes no generic one.
#[repr(C)]
#[derive(Clone, Copy)]
pub struct CymOut {
    pub cym: Cym,
    pub w: Wobble,
    pub y: f32,
}

// ---- the eight envelopes

#[tactic(auto, unfolding(crate::specs::Cym::record_at))]
fn record(f: &Frame, r: usize) -> [u8; 8]
    requires { r < 8 }
    ensures { result ≡ record_at f.now r }
{
    frame::bytes(f.as_slice(), frame::CYM_ENV + 8 * r)
}

#[tactic(auto, unfolding(lists::specs::Turns::turns_of, crate::specs::Cym::env_at))]
fn envs(f: &Frame, mut env: [Env; 8], mode: [u8; 8]) -> [Env; 8]
    ensures { result ≡ each_of 8 (env_at f.now mode) no_env env }
{
    for r in 0..8 {
        env[r] = env[r].hit(mode[r], record(f, r));
    }
    env
}

#[tactic(auto, unfolding(crate::specs::Cym::modes_at))]
fn modes(f: &Frame) -> [u8; 8]
    ensures { result ≡ modes_at f.now }
{
    array::from_fn(|r| envelope::mode_of(record(f, r)))
}

// Whether a record starts: mode F after another mode.
#[tactic(auto, unfolding(lists::specs::Turns::turns_of, crate::specs::Cym::any_hit))]
fn hit(now: [u8; 8], was: [u8; 8]) -> bool
    ensures { result ≡ any_hit now was }
{
    let mut any = false;
    for r in 0..8 {
        any |= envelope::starts(now[r], was[r]);
    }
    any
}

// Whether every level is at its floor.
fn quiet(env: [Env; 8]) -> bool
    ensures { result ≡ quiet_of env }
{
    env.iter().all(|e| e.level <= -127.5)
}

// ---- the five paths

#[derive(Clone, Copy)]
pub struct Paths {
    pub svf: [Svf; 5],
    pub out: f32,
}

// What the paths share: the bank's sum, whether it is the cowbell's, and what the colour multiplies a centre by.
#[derive(Clone, Copy)]
pub struct Metal {
    pub x: f32,
    pub cowbell: bool,
    pub ratio: f32,
}

// A path's coefficient: the colour moves its centre, but not the cowbell's.
#[tactic(auto, unfolding(crate::specs::Cym::coefficient_of))]
fn coefficient(hz: f32, fixed: bool, ratio: f32) -> f32
    ensures { result ≡ coefficient_of hz fixed ratio }
{
    let fc = float::choose(fixed, hz, hz * ratio);
    metal::coefficient(float::min(fc, 16000.0))
}

#[tactic(auto, using(crate::proofs::Inside::inside), unfolding(crate::specs::Cym::path_of))]
fn path(s: Paths, p: usize, m: Metal, env: [Env; 8]) -> Paths
    requires { p < 5 }
    ensures { result ≡ path_of m env p s }
{
    let c = frame::cym_path(p);
    let level = env[c.rec].level;
    if level <= -127.5 {
        return s;
    }
    // Record 7, the body: the cowbell's band-pass with two oscillators running, the cymbal's high-pass with six.
    let body = (c.rec == 7) & m.cowbell;
    let hz = float::choose(body, 1200.0, c.hz);
    let g = coefficient(hz, (c.rec == 6) | body, m.ratio);
    let q = s.svf[p].tick(m.x, g, 0.8);
    let y = float::choose(c.high & !body, q.high, q.svf.band);
    let mut next = s;
    next.svf[p] = q.svf;
    next.out += y * float::max(level / 127.0, 0.0);
    next
}

#[tactic(auto, unfolding(lists::specs::Turns::turns_of, crate::specs::Cym::paths_of))]
fn all_paths(svf: [Svf; 5], m: Metal, env: [Env; 8]) -> Paths
    ensures { result ≡ paths_of svf m env }
{
    let mut s = Paths { svf, out: 0.0 };
    for p in 0..5 {
        s = path(s, p, m, env);
    }
    s
}

impl Cym {
    #[tactic(auto, unfolding(crate::specs::Cym::cym_new))]
    pub fn new() -> Cym
        ensures { result ≡ cym_new }
    {
        let e = Env { level: -128.0 };
        let s = Svf {
            low: 0.0,
            band: 0.0,
        };
        Cym {
            ph: [0.0; 6],
            det: [1.0; 6],
            env: [e; 8],
            mode: [0; 8],
            svf: [s; 5],
        }
    }

    // The bank through the paths, of a cymbal that sounds.
    #[tactic(auto, unfolding(crate::specs::Cym::sound_of))]
    fn sound(mut self, f: &Frame, w: Wobble) -> CymOut
        ensures { result ≡ sound_of f.now self w }
    {
        let Bank { ph, metal, running } = metal::run(f, frame::CYM_BANK, self.ph, &self.det, true);
        let colour = frame::signed_f32(f.as_slice(), frame::CYM_COLOUR) / 32768.0;
        let m = Metal {
            x: metal / float::from_u32(running.max(1)),
            cowbell: running <= 2,
            ratio: power::exp2(0.75 * colour),
        };
        let Paths { svf, out } = all_paths(self.svf, m, self.env);
        self.ph = ph;
        self.svf = svf;
        CymOut {
            cym: self,
            w,
            y: out * (frame::word_f32(f.as_slice(), frame::CYM_VCA) / 32767.0),
        }
    }

    #[tactic(auto, unfolding(crate::specs::Cym::sample_of))]
    pub fn sample(mut self, f: &Frame, w: Wobble) -> CymOut
        ensures { result ≡ sample_of f.now self w }
    {
        let Cym {
            ph,
            det,
            env: was,
            mode,
            ..
        } = self;
        let now = modes(f);
        let env = envs(f, was, mode);
        let drawn = metal::on_hit(hit(now, mode), quiet(was), Drawn6 { ph, det, w });
        let Drawn6 { ph, det, w } = drawn;
        self.ph = ph;
        self.det = det;
        self.env = env;
        self.mode = now;
        if quiet(env) {
            return CymOut {
                cym: self,
                w,
                y: 0.0,
            };
        }
        self.sound(f, w)
    }
}
