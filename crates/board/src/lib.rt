// The voice board, and one step with its refusals.
#![tactic(auto)]

ghost use Rattle.std.specs.Prelude.{◌≡◌, Bool, ◌≤◌, ◌<◌, length, Some, IfOk};
ghost use Rattle.std.specs.Result.{result_err};
ghost use Rattle.frame.specs.Offsets.{FRAME_BYTES};
ghost use Rattle.sources.specs.Sources.{sources, sound_of};
ghost use Rattle.bus.specs.Bus.{InWordRange};
ghost use Rattle.board.specs.Board.{fresh_of, number_of, inputs_of, in_range, all_in_range, input_ok, inputs_ok, refusal_of, refused_of, words_of, taken_of, voice_of, stepped_of, answer, answer_of};

mod refusals;

use bus::BusOut;
use chain::{Chain, ChainOut};
use comp::{Comp, CompOut, Parameters};
use cym::Cym;
use dual::DualOsc;
use frame::{DacWords, Frame};
use hat::Hat;
pub use refusals::Refusal;
use stereo::Mix;
use tom::Tom;
use wobble::Wobble;

#[repr(C)]
#[derive(Clone, Copy)]
pub struct Analog {
    pub duals: [DualOsc; 3],
    pub hat: Hat,
    pub toms: [Tom; 3],
    pub cym: Cym,
    pub chains: [Chain; 8],
    pub comp: Comp,
    pub wobble: Wobble,
}

// The board's audio inputs, and the external input to the main bus.
#[derive(Clone, Copy)]
pub struct Inputs {
    pub audio: Mix,
    pub ext: Mix,
}

impl Inputs {
    #[tactic(auto, unfolding(crate::specs::Board::inputs_of))]
    pub fn new(audio_l: f32, audio_r: f32, ext_l: f32, ext_r: f32) -> Inputs
        ensures { result ≡ inputs_of audio_l audio_r ext_l ext_r }
    {
        Inputs {
            audio: Mix {
                l: audio_l,
                r: audio_r,
            },
            ext: Mix { l: ext_l, r: ext_r },
        }
    }
}

// A fresh board.
#[tactic(auto, unfolding(crate::specs::Board::fresh_of))]
pub fn fresh(seed: u32, ideal: bool) -> Analog
    ensures { result ≡ fresh_of seed ideal }
{
    Analog {
        duals: [DualOsc::new(); 3],
        hat: Hat::new(),
        toms: [Tom::new(); 3],
        cym: Cym::new(),
        chains: [Chain::new(); 8],
        comp: Comp::new(),
        wobble: Wobble::new(seed, ideal),
    }
}

// The refusal's number in the table of refusals, 0 for none.
pub fn number(refusal: Option<Refusal>) -> u32
    ensures { result ≡ number_of refusal }
{
    match refusal {
        None => 0,
        Some(refusal) => refusal as u32,
    }
}

// What a step gives beside the next board. A refusal stands beside the zero words and the zero mix that it is promised with; a `Result` would leave these out.
#[derive(Clone, Copy)]
pub struct Heard {
    pub refusal: Option<Refusal>,
    pub rx: [i32; 12],
    pub mix: Mix,
}

// The same with the next board, which after a refusal is the same board.
#[derive(Clone, Copy)]
pub struct Answer {
    pub refusal: Option<Refusal>,
    pub rx: [i32; 12],
    pub mix: Mix,
    pub board: Analog,
}

// ---- the refusals

#[tactic(auto, unfolding(crate::specs::Board::in_range))]
fn in_range(x: i32) -> bool
    ensures { result ≡ in_range x }
{
    (-8388608..=8388607).contains(&x)
}

// Each word is looked at, without a branch; `all` stops at the first, 77 of a step's 13,500 instructions more.
fn all_in_range(dac: &[i32]) -> bool
    ensures { result ≡ all_in_range dac.now }
{
    let mut ok = true;
    for &x in dac {
        ok &= in_range(x);
    }
    ok
}

// By two comparisons, no less plain than `contains`, which orders floats by partial_cmp: 25 instructions a step more.
#[tactic(auto, unfolding(crate::specs::Board::input_ok))]
fn input_ok(x: f32) -> bool
    ensures { result ≡ input_ok x }
{
    (-1.0 <= x) & (x <= 1.0)
}

#[tactic(auto, unfolding(crate::specs::Board::inputs_ok))]
fn inputs_ok(x: Inputs) -> bool
    ensures { result ≡ inputs_ok x }
{
    input_ok(x.audio.l) & input_ok(x.audio.r) & input_ok(x.ext.l) & input_ok(x.ext.r)
}

// What a step is given beside the board, each part as long as the step reads it.
#[derive(Drop)]
pub struct StepCall<'a> {
    frame: Frame<'a>,
    dac: DacWords<'a>,
    fx: Parameters<'a>,
    inputs: Inputs,
}

impl<'a> StepCall<'a> {
    // The call, or the lowest refusal that applies.
    #[tactic(auto, unfolding(crate::specs::Board::refusal_of))]
    pub fn read(
        f: &'a [u8],
        dac: &'a [i32],
        fx: &'a [u8],
        x: Inputs,
    ) -> Result<StepCall<'a>, Refusal>
        ensures refusal { result_err result ≡ refusal_of f.now dac.now fx.now x }
        ensures call { IfOk result (λ c. (c.frame ≡ f.now) × (c.dac ≡ dac.now) × (c.fx ≡ fx.now) × (c.inputs ≡ x)) }
    {
        let frame = Frame::new(f).ok_or(Refusal::ShortFrame)?;
        let fx = Parameters::new(fx).ok_or(Refusal::ShortParameters)?;
        let sixteen = DacWords::new(dac).ok_or(Refusal::DacCount)?;
        if dac.len() > 16 {
            return Err(Refusal::DacCount);
        }
        if !all_in_range(dac) {
            return Err(Refusal::DacRange);
        }
        if !inputs_ok(x) {
            return Err(Refusal::InputRange);
        }
        Ok(StepCall {
            frame,
            dac: sixteen,
            fx,
            inputs: x,
        })
    }

    pub fn frame(&self) -> &Frame<'a>
        ensures { result.now ≡ self.now.frame }
    {
        &self.frame
    }
}

// The lowest that applies. Slices of any length, one by one: what a caller has before anything is tested; `StepCall` is what is left of them.
pub fn refusal(f: &[u8], dac: &[i32], fx: &[u8], x: Inputs) -> Option<Refusal>
    ensures { result ≡ refusal_of f.now dac.now fx.now x }
{
    StepCall::read(f, dac, fx, x).err()
}

#[tactic(auto, unfolding(crate::specs::Board::refused_of))]
fn refused(refusal: Refusal) -> Heard
    ensures { (b : Analog) → answer b result ≡ refused_of b (Some refusal) }
{
    Heard {
        refusal: Some(refusal),
        rx: [0; 12],
        mix: Mix { l: 0.0, r: 0.0 },
    }
}

// ---- a step

// Where the receive words have the audio inputs and the mix.
pub const RX_AUDIO_IN: usize = 8;

pub const RX_MAIN: usize = 10;

// The receive words: of the voices, then the audio inputs and the mix, halved.
#[tactic(auto, unfolding(crate::specs::Board::words_of))]
fn words(rx: [i32; 12], audio: Mix, mix: Mix) -> [i32; 12]
    ensures { result ≡ words_of rx audio mix }
{
    let mut next = rx;
    next[RX_AUDIO_IN] = float::to24(audio.l * 0.5);
    next[RX_AUDIO_IN + 1] = float::to24(audio.r * 0.5);
    next[RX_MAIN] = float::to24(mix.l * 0.5);
    next[RX_MAIN + 1] = float::to24(mix.r * 0.5);
    next
}

// The sources of a board, which have sounded after this, and their samples.
#[tactic(auto, unfolding(crate::specs::Board::taken_of))]
fn sound(board: &mut Analog, call: &StepCall) -> [f32; 8]
    ensures sources { sources board.new.duals board.new.hat board.new.toms board.new.cym board.new.wobble result ≡ sound_of call.now.frame call.now.dac (taken_of board.old) }
    ensures rest { (board.new.chains ≡ board.old.chains) × (board.new.comp ≡ board.old.comp) }
{
    sources::sound(
        &mut board.duals,
        &mut board.toms,
        &mut board.cym,
        &mut board.hat,
        &mut board.wobble,
        &call.frame,
        &call.dac,
    )
}

// Voice v's sample in this step, its chain after it, and what its filter made of it.
#[tactic(auto, unfolding(bus::specs::Bus::input_of, bus::specs::Bus::sample_of, crate::specs::Board::voice_of))]
pub fn voice(mut board: Analog, call: &StepCall, v: usize) -> ChainOut
    requires { v < 8 }
    ensures { result ≡ voice_of board call.now.frame call.now.dac v }
{
    let src = sound(&mut board, call);
    bus::sample(board.chains[v], &call.frame, &call.dac, v, src[v])
}

// One sample, of a call that is not refused.
#[inline(always)]
#[tactic(auto, unfolding(crate::specs::Board::stepped_of))]
pub fn stepped(board: &mut Analog, call: &StepCall) -> Heard
    ensures value { answer board.new result ≡ stepped_of board.old call.now.frame call.now.dac call.now.fx call.now.inputs }
    ensures words { InWordRange result.rx }
{
    let src = sound(board, call);
    let BusOut { rx, mix } = bus::voices(&mut board.chains, &call.frame, &call.dac, src);
    let main = bus::master(&call.frame, &call.dac, mix, call.inputs.ext);
    let CompOut { comp, mix } = board.comp.process(&call.fx, main);
    board.comp = comp;
    Heard {
        refusal: None,
        rx: words(rx, call.inputs.audio, mix),
        mix,
    }
}

// One sample, or the lowest refusal that applies, which leaves the board. The board is the caller's, changed in place: by value it would be copied
// twice more on its way.
#[tactic(auto, unfolding(crate::specs::Board::answer_of, crate::specs::Board::answered_if))]
pub fn advance(board: &mut Analog, f: &[u8], dac: &[i32], fx: &[u8], x: Inputs) -> Heard
    ensures { answer board.new result ≡ answer_of board.old f.now dac.now fx.now x }
{
    match StepCall::read(f, dac, fx, x) {
        Ok(call) => stepped(board, &call),
        Err(refusal) => refused(refusal),
    }
}

// The same, of a board that is given and answered.
pub fn step(mut board: Analog, f: &[u8], dac: &[i32], fx: &[u8], x: Inputs) -> Answer
    ensures { result ≡ answer_of board f.now dac.now fx.now x }
{
    let Heard { refusal, rx, mix } = advance(&mut board, f, dac, fx, x);
    Answer {
        refusal,
        rx,
        mix,
        board,
    }
}
