// Why a voice adds nothing to a side of the mix: the first reason that holds, or what it adds.
#![tactic(auto)]

ghost use Rattle.std.specs.Prelude.{◌≡◌, ◌<◌, IfOk};
ghost use Rattle.std.specs.Result.{result_err};
ghost use Rattle.why.specs.Why.{number_of, value_of, vca_of, amp_of, adds_of, share_of, reason_of, why_refusal_of, why_of};
ghost use Rattle.why.specs.Told.{Told};

use board::{Analog, Inputs, Refusal, StepCall};
use chain::Chain;
use envelope::SegEnv;
use frame::Frame;
use stereo::{Mix, Side};

// In the order in which they are tried, the last where none of the others holds.
#[derive(Clone, Copy)]
pub enum Reason {
    RoutedOff,
    // The side's amp level is at or below 0.
    AmpDown(f32),
    VcaZero,
    // The filter gives zero, at this cutoff in Hz.
    FilteredZero(f32),
    LostToRounding,
    // With what it adds.
    Heard(f32),
}

// 1 to 6.
pub fn number(reason: Reason) -> u32
    ensures { result ≡ number_of reason }
{
    match reason {
        Reason::RoutedOff => 1,
        Reason::AmpDown(_) => 2,
        Reason::VcaZero => 3,
        Reason::FilteredZero(_) => 4,
        Reason::LostToRounding => 5,
        Reason::Heard(_) => 6,
    }
}

// The level, cutoff or contribution that goes with it, else 0.
pub fn value(reason: Reason) -> f32
    ensures { result ≡ value_of reason }
{
    match reason {
        Reason::AmpDown(level) => level,
        Reason::FilteredZero(cutoff) => cutoff,
        Reason::Heard(adds) => adds,
        _ => 0.0,
    }
}

// What a voice's reason on a side is read off.
#[derive(Clone, Copy)]
pub struct Share {
    // The voice is routed off.
    pub off: bool,
    // The side's amp level after its tick, and its VCA word.
    pub level: f32,
    pub vca: u16,
    pub filtered: f32,
    // The cutoff in Hz that the filter's tangent takes.
    pub cutoff: f32,
    // What the step adds to the side's mix.
    pub adds: f32,
}

// Where a side's VCA words stand.
fn vca(side: Side) -> usize
    ensures { result ≡ vca_of side }
{
    match side {
        Side::Left => frame::VCA_L,
        Side::Right => frame::VCA_R,
    }
}

// A side's amp.
fn amp(side: Side, chain: Chain) -> SegEnv
    ensures { result ≡ amp_of side chain }
{
    match side {
        Side::Left => chain.amp,
        Side::Right => chain.amp_r,
    }
}

// What voice v's sample adds to a side.
#[tactic(auto, unfolding(crate::specs::Why::adds_of))]
fn adds(f: &Frame, v: usize, side: Side, y: Mix) -> f32
    requires { v < 8 }
    ensures { result ≡ adds_of f.now v side y }
{
    if frame::routed_off(f, v) {
        return 0.0;
    }
    bus::contribution(f, vca(side), v, y.side(side))
}

impl Share {
    // Voice v's on a side in this step.
    #[tactic(auto, unfolding(crate::specs::Why::share_of))]
    fn read(board: Analog, call: &StepCall, v: usize, side: Side) -> Share
        requires { v < 8 }
        ensures { result ≡ share_of board call.now.frame call.now.dac v side }
    {
        let o = board::voice(board, call, v);
        let f = call.frame();
        Share {
            off: frame::routed_off(f, v),
            level: amp(side, o.chain).level,
            vca: frame::word(f.as_slice(), vca(side) + 2 * v),
            filtered: o.filtered,
            cutoff: o.cutoff,
            adds: adds(f, v, side, o.y),
        }
    }

    // The first reason that holds.
    #[tactic(auto, unfolding(crate::specs::Why::reason_of))]
    fn reason(self) -> Reason
        ensures { result ≡ reason_of self }
    {
        if self.off {
            return Reason::RoutedOff;
        }
        if self.level <= 0.0 {
            return Reason::AmpDown(self.level);
        }
        if self.vca == 0 {
            return Reason::VcaZero;
        }
        if self.filtered == 0.0 {
            return Reason::FilteredZero(self.cutoff);
        }
        if self.adds == 0.0 {
            return Reason::LostToRounding;
        }
        Reason::Heard(self.adds)
    }
}

// The step's call, or the lowest refusal that applies.
#[tactic(auto, unfolding(crate::specs::Why::why_refusal_of))]
fn asked<'a>(
    f: &'a [u8],
    dac: &'a [i32],
    fx: &'a [u8],
    x: Inputs,
    voice: u32,
) -> Result<StepCall<'a>, Refusal>
    ensures refusal { result_err result ≡ why_refusal_of f.now dac.now fx.now x voice }
    ensures call { IfOk result (λ c. (c.frame ≡ f.now) × (c.dac ≡ dac.now) × (voice < 8)) }
{
    let call = StepCall::read(f, dac, fx, x)?;
    if voice > 7 {
        return Err(Refusal::VoiceNumber);
    }
    Ok(call)
}

// Why a voice adds nothing to a side in the step that these arguments make of the board, or the lowest refusal that applies. The board is not changed: no next
// one is answered.
#[tactic(auto, unfolding(crate::specs::Why::why_of, crate::specs::Why::told_if))]
pub fn why(
    board: Analog,
    f: &[u8],
    dac: &[i32],
    fx: &[u8],
    x: Inputs,
    voice: u32,
    side: Side,
) -> Result<Reason, Refusal>
    ensures value { result ≡ why_of board f.now dac.now fx.now x voice side }
    ensures told { Told board f.now dac.now fx.now x voice side result }
{
    asked(f, dac, fx, x, voice).map(|call| Share::read(board, &call, voice as usize, side).reason())
}
