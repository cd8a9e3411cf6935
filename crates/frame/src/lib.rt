// Fields of the control frame: words, switches, the route mask, filter codes, a record's bytes, and where each voice has its own.
#![tactic(auto)]

ghost use Rattle.std.specs.Prelude.{◌≡◌, ◌+◌, ◌/◌, ◌<◌, ◌≤◌, length};
ghost use Rattle.frame.specs.Frame.{word_at, word_f, signed_of, signed_f, bit_at, field_at, bytes_at, routed_off, flt_code, flt_type_of};
ghost use Rattle.frame.specs.Offsets.{SWITCHES, dual_spec, tom_spec, cym_path, flt_at, route_bit};

use slices::AtLeast;
use std::array;

// Where the frame has its fields, under the source's names. A voice v has its word at 2 * v and its record at 8 * v from there.

// What a step reads of a frame: the last field is the cymbal's bank.
pub const FRAME_BYTES: usize = 664;

// A frame that has all of it.
pub type Frame<'a> = AtLeast<'a, u8, FRAME_BYTES>;

// The DAC words of a step: all sixteen.
pub type DacWords<'a> = AtLeast<'a, i32, 16>;

// The amount of the master distortion.
pub const DIST: usize = 0;
// The voices' VCA words, left and right.
pub const VCA_L: usize = 10;

pub const VCA_R: usize = 26;
// The voices' overdrive, filter frequency and resonance.
pub const OVR: usize = 42;

pub const FRQ: usize = 58;

pub const RES: usize = 74;
// The colour and the VCA of hat and cymbal.
pub const HAT_COLOUR: usize = 130;

pub const HAT_VCA: usize = 140;

pub const CYM_COLOUR: usize = 142;

pub const CYM_VCA: usize = 158;
// The switches' first byte.
pub const SWITCHES: usize = 160;
// The route mask.
pub const ROUTE: usize = 166;
// The voices' amp records, left and right, and their filter records; a filter record's first word is the envelope's depth.
pub const AMP_ENV: usize = 168;

pub const AMP_ENV_R: usize = 232;

pub const FLT_ENV: usize = 296;
// The hat's record, and the cymbal's eight.
pub const HAT_ENV: usize = 488;

pub const CYM_ENV: usize = 496;
// The oscillator banks of hat and cymbal: six fields of four bytes.
pub const HAT_BANK: usize = 616;

pub const CYM_BANK: usize = 640;

// The voices that hat and cymbal are.
pub const HAT_VOICE: usize = 4;

pub const CYM_VOICE: usize = 6;

// Which of a dual voice's four records are the pitch's, the amplitude's and oscillator 2's amplitude's.
pub const PITCH_REC: usize = 0;

pub const AMP_REC: usize = 2;

pub const AMP2_REC: usize = 3;

// A dual-oscillator voice: its CV block (TUNE1, TUNE2, LEVEL1, LEVEL2), its four envelope records, its seven switches
// (0 trig, 1 oscillator 1's wave, 2, 3 and 6 oscillator 2's wave, 4 FM on, 5 ring modulation, active low).
#[derive(Clone, Copy)]
pub struct DualSpec {
    pub voice: usize,
    pub cv: usize,
    pub env: usize,
    pub sw: [usize; 7],
}

static DUALS: [DualSpec; 3] = [
    DualSpec {
        voice: 0,
        cv: 90,
        env: 360,
        sw: [12, 44, 8, 47, 46, 45, 40],
    },
    DualSpec {
        voice: 2,
        cv: 98,
        env: 392,
        sw: [0, 32, 36, 35, 34, 33, 56],
    },
    DualSpec {
        voice: 7,
        cv: 106,
        env: 424,
        sw: [28, 4, 24, 7, 6, 5, 60],
    },
];

// A tom: its tune and decay CVs and its exciter's DAC word.
#[derive(Clone, Copy)]
pub struct TomSpec {
    pub voice: usize,
    pub tune: usize,
    pub decay: usize,
    pub dac: usize,
}

static TOMS: [TomSpec; 3] = [
    TomSpec {
        voice: 1,
        tune: 118,
        decay: 120,
        dac: 8,
    },
    TomSpec {
        voice: 3,
        tune: 122,
        decay: 124,
        dac: 9,
    },
    TomSpec {
        voice: 5,
        tune: 126,
        decay: 128,
        dac: 10,
    },
];

// A path of the cymbal: its record, its centre in Hz, and whether it is a high-pass.
#[derive(Clone, Copy)]
pub struct CymPath {
    pub rec: usize,
    pub hz: f32,
    pub high: bool,
}

static CYM_PATHS: [CymPath; 5] = [
    CymPath {
        rec: 2,
        hz: 3400.0,
        high: false,
    },
    CymPath {
        rec: 3,
        hz: 7000.0,
        high: false,
    },
    CymPath {
        rec: 4,
        hz: 9000.0,
        high: true,
    },
    CymPath {
        rec: 6,
        hz: 1200.0,
        high: false,
    },
    CymPath {
        rec: 7,
        hz: 6000.0,
        high: true,
    },
];

// Where a voice's filter type stands: the byte and the lowest of its three bits.
#[derive(Clone, Copy)]
pub struct FltAt {
    pub byte: usize,
    pub lo: u8,
}

static FLT_TYPE_AT: [FltAt; 8] = [
    FltAt { byte: 161, lo: 1 },
    FltAt { byte: 161, lo: 5 },
    FltAt { byte: 164, lo: 5 },
    FltAt { byte: 160, lo: 1 },
    FltAt { byte: 167, lo: 1 },
    FltAt { byte: 163, lo: 5 },
    FltAt { byte: 167, lo: 5 },
    FltAt { byte: 163, lo: 1 },
];

static ROUTE_BIT: [u8; 8] = [3, 2, 1, 0, 4, 5, 6, 7];

// A row of a table, and past its end the last: one expression each, which a function over any table would only rename.

// BD, SD, and RS from 2 on.
#[tactic(auto, unfolding(crate::specs::Offsets::dual_spec, crate::specs::Offsets::duals))]
pub fn dual_spec(d: usize) -> DualSpec
    ensures { result ≡ dual_spec d }
{
    DUALS[d.min(2)]
}

// BT, LT, and MT/HT from 2 on.
#[tactic(auto, unfolding(crate::specs::Offsets::tom_spec, crate::specs::Offsets::toms))]
pub fn tom_spec(t: usize) -> TomSpec
    ensures { result ≡ tom_spec t }
{
    TOMS[t.min(2)]
}

#[tactic(auto, unfolding(crate::specs::Offsets::cym_path, crate::specs::Offsets::cym_paths))]
pub fn cym_path(p: usize) -> CymPath
    ensures { result ≡ cym_path p }
{
    CYM_PATHS[p.min(4)]
}

#[tactic(auto, unfolding(crate::specs::Offsets::flt_at, crate::specs::Offsets::flt_type_at))]
fn flt_at(v: usize) -> FltAt
    ensures { result ≡ flt_at v }
{
    FLT_TYPE_AT[v.min(7)]
}

#[tactic(auto, unfolding(crate::specs::Offsets::route_bit, crate::specs::Offsets::route_bits))]
fn route_bit(v: usize) -> u8
    ensures { result ≡ route_bit v }
{
    ROUTE_BIT[v.min(7)]
}

// The word at `o`. This and the readers below take any bytes and ask for as many as each reads: two, four or eight.
pub fn word(f: &[u8], o: usize) -> u16
    requires { o + 2 ≤ length f.now }
    ensures { result ≡ word_at f.now o }
{
    u16::from_be_bytes([f[o], f[o + 1]])
}

// `word(f, o) as f32`.
pub fn word_f32(f: &[u8], o: usize) -> f32
    requires { o + 2 ≤ length f.now }
    ensures { result ≡ word_f f.now o }
{
    word(f, o) as f32
}

// `w as i16`.
pub fn signed(w: u16) -> i16
    ensures { result ≡ signed_of w }
{
    w.cast_signed()
}

// `word(f, o) as i16 as f32`.
pub fn signed_f32(f: &[u8], o: usize) -> f32
    requires { o + 2 ≤ length f.now }
    ensures { result ≡ signed_f f.now o }
{
    signed(word(f, o)) as f32
}

// Switch n.
pub fn bit(f: &[u8], n: usize) -> bool
    requires { SWITCHES + n / 8 < length f.now }
    ensures { result ≡ bit_at f.now n }
{
    let b = f[SWITCHES + (n >> 3)];
    (b >> (n & 7)) & 1 != 0
}

// The low 22 bits of the 32-bit field at `o`: a metal oscillator's frequency.
pub fn field(f: &[u8], o: usize) -> u32
    requires { o + 4 ≤ length f.now }
    ensures { result ≡ field_at f.now o }
{
    u32::from_be_bytes([0, f[o + 1] & 63, f[o + 2], f[o + 3]])
}

// The eight bytes of the record at `o`.
#[tactic(auto, unfolding(crate::specs::Frame::bytes_at))]
pub fn bytes(f: &[u8], o: usize) -> [u8; 8]
    requires { o + 8 ≤ length f.now }
    ensures { result ≡ bytes_at f.now o }
{
    array::from_fn(|k| f[o + k])
}

// Whether voice v is kept from the main bus.
#[tactic(auto, using(crate::proofs::Tables::route_inside), unfolding(crate::specs::Frame::routed_off))]
pub fn routed_off(f: &Frame, v: usize) -> bool
    ensures { result ≡ routed_off f.now v }
{
    let b = f.as_slice()[ROUTE];
    (b >> route_bit(v)) & 1 != 0
}

// Voice v's filter code, 0 to 7.
#[tactic(auto, using(crate::proofs::Tables::flt_inside_lem), unfolding(crate::specs::Frame::flt_code))]
pub fn flt_code(f: &Frame, v: usize) -> u8
    ensures { result ≡ flt_code f.now v }
{
    let a = flt_at(v);
    let b = f.as_slice()[a.byte];
    (b >> a.lo) & 7
}

#[derive(Clone, Copy)]
pub enum FltType {
    Lp2,
    Lp1,
    Bp,
    Hp1,
    Hp2,
    Bs,
    Pk,
}

impl From<u8> for FltType {
    // Of a filter code.
    ghost from_gives = { λ code kind. kind ≡ flt_type_of code };

    #[tactic(auto, unfolding(crate::specs::Frame::flt_type_of))]
    fn from(code: u8) -> FltType {
        match code {
            6 => FltType::Lp1,
            1 => FltType::Bp,
            2 => FltType::Hp1,
            4 => FltType::Hp2,
            5 => FltType::Bs,
            3 => FltType::Pk,
            _ => FltType::Lp2,
        }
    }
}
