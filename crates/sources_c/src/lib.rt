// The sound sources, and the calls that they stand on, under C names, for the comparison with the Rust.
#![tactic(auto)]

ghost use Rattle.std.specs.Prelude.{◌≡◌, Bool};
ghost use Rattle.envelope.specs.Record.{record_of};
ghost use Rattle.vco.specs.Vco.{wave_from_bits, wave_at, pair_of};
ghost use Rattle.dual.specs.Dual.{dual_new};
ghost use Rattle.hat.specs.Hat.{hat_new};
ghost use Rattle.cym.specs.Cym.{cym_new};
ghost use Rattle.tom.specs.Tom.{tom_new};
ghost use Rattle.sources_c.specs.References.{number_of, wave_of, set_of};
ghost use Rattle.sources_c.specs.Sources.{dual_answer, hat_answer, cym_answer, tom_answer};

use cym::{Cym, CymOut};
use dual::{DualOsc, DualOut};
use envelope::Record;
use frame::Frame;
use hat::{Hat, HatOut};
use tom::{Tom, TomOut};
use vco::{Osc2Set, Pair, PairOut, Wave};
use wobble::Wobble;

// ---- records, waveforms and the pair

// A record's eight bytes.
#[repr(C)]
#[derive(Clone, Copy)]
pub struct RecordBytes {
    pub b: [u8; 8],
}

#[unsafe(no_mangle)]
pub extern "C" fn rytm_record_parse(r: RecordBytes) -> Record
    ensures { result ≡ record_of r.b }
{
    Record::parse(r.b)
}

// The waveform of a number, which C passes; off from 7 on. `From<u32>` would have to stand beside `Wave`, where nothing has numbers.
#[tactic(auto, unfolding(crate::specs::References::wave_of))]
fn wave(n: u32) -> Wave
    ensures { result ≡ wave_of n }
{
    match n {
        1 => Wave::Sine,
        2 => Wave::AsymSine,
        3 => Wave::Triangle,
        4 => Wave::SineSaw,
        5 => Wave::Saw,
        6 => Wave::Square,
        _ => Wave::Off,
    }
}

#[unsafe(no_mangle)]
pub extern "C" fn rytm_wave_from_bits(a: bool, b: bool, c: bool) -> u32
    ensures { result ≡ number_of (wave_from_bits a b c) }
{
    Wave::from_bits(a, b, c) as u32
}

#[unsafe(no_mangle)]
pub extern "C" fn rytm_wave_at(n: u32, ph: f32) -> f32
    ensures { result ≡ wave_at (wave_of n) ph }
{
    wave(n).at(ph)
}

// `Osc2Set` with its waveforms by number, as C passes them.
#[repr(C)]
#[derive(Clone, Copy)]
pub struct NumberedSet {
    pub hz1: f32,
    pub hz2: f32,
    pub stopped1: bool,
    pub stopped2: bool,
    pub wave1: u32,
    pub wave2: u32,
    pub level1: f32,
    pub level2: f32,
    pub depth_word: f32,
    pub fm: bool,
    pub ring: bool,
}

impl From<NumberedSet> for Osc2Set {
    ghost from_gives = { λ numbered set. set ≡ set_of numbered };

    #[tactic(auto, unfolding(crate::specs::References::set_of))]
    fn from(s: NumberedSet) -> Osc2Set {
        Osc2Set {
            hz1: s.hz1,
            hz2: s.hz2,
            stopped1: s.stopped1,
            stopped2: s.stopped2,
            wave1: wave(s.wave1),
            wave2: wave(s.wave2),
            level1: s.level1,
            level2: s.level2,
            depth_word: s.depth_word,
            fm: s.fm,
            ring: s.ring,
        }
    }
}

#[unsafe(no_mangle)]
pub extern "C" fn rytm_pair_sample(p: Pair, s: NumberedSet, fs: f32) -> PairOut
    ensures { result ≡ pair_of p (set_of s) fs }
{
    p.sample(Osc2Set::from(s), fs)
}

// ---- the sources: a frame that is too short leaves one as it was, and gives 0
// Each has calls of its own, since C takes no generic one.

#[unsafe(no_mangle)]
pub extern "C" fn rytm_dual_new() -> DualOsc
    ensures { result ≡ dual_new }
{
    DualOsc::new()
}

#[unsafe(no_mangle)]
pub extern "C" fn rytm_hat_new() -> Hat
    ensures { result ≡ hat_new }
{
    Hat::new()
}

#[unsafe(no_mangle)]
pub extern "C" fn rytm_cym_new() -> Cym
    ensures { result ≡ cym_new }
{
    Cym::new()
}

#[unsafe(no_mangle)]
pub extern "C" fn rytm_tom_new() -> Tom
    ensures { result ≡ tom_new }
{
    Tom::new()
}

#[unsafe(no_mangle)]
#[tactic(auto, unfolding(crate::specs::Sources::dual_answer))]
pub extern "C" fn rytm_dual_sample(e: DualOsc, f: &[u8], d: usize, w: Wobble) -> DualOut
    ensures { result ≡ dual_answer f.now d e w }
{
    match Frame::new(f) {
        Some(f) => e.sample(&f, d, w),
        None => DualOut { dual: e, w, y: 0.0 },
    }
}

#[unsafe(no_mangle)]
#[tactic(auto, unfolding(crate::specs::Sources::hat_answer))]
pub extern "C" fn rytm_hat_sample(h: Hat, f: &[u8], w: Wobble) -> HatOut
    ensures { result ≡ hat_answer f.now h w }
{
    match Frame::new(f) {
        Some(f) => h.sample(&f, w),
        None => HatOut { hat: h, w, y: 0.0 },
    }
}

#[unsafe(no_mangle)]
#[tactic(auto, unfolding(crate::specs::Sources::cym_answer))]
pub extern "C" fn rytm_cym_sample(c: Cym, f: &[u8], w: Wobble) -> CymOut
    ensures { result ≡ cym_answer f.now c w }
{
    match Frame::new(f) {
        Some(f) => c.sample(&f, w),
        None => CymOut { cym: c, w, y: 0.0 },
    }
}

#[unsafe(no_mangle)]
#[tactic(auto, unfolding(crate::specs::Sources::tom_answer))]
pub extern "C" fn rytm_tom_sample(o: Tom, f: &[u8], t: usize, d: i32, w: Wobble) -> TomOut
    ensures { result ≡ tom_answer f.now t d o w }
{
    match Frame::new(f) {
        Some(f) => o.sample(&f, t, d, w),
        None => TomOut { tom: o, w, y: 0.0 },
    }
}
