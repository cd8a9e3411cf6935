// Why a voice adds nothing to a side of the mix, under a C name. The caller tests nothing beforehand.
#![tactic(auto)]

ghost use Rattle.std.specs.Prelude.{◌≡◌};
ghost use Rattle.board.specs.Board.{inputs_of};
ghost use Rattle.why_c.specs.Calls.{side_said, numbered_why, WhyAnswer};

use board::{Analog, Inputs, Refusal};
use stereo::Side;
use why::Reason;

// A reason by number and with its value, or the number of the refusal: C has no enum whose cases carry a value.
#[repr(C)]
#[derive(Clone, Copy)]
pub struct Why {
    pub number: u32,
    pub reason: u32,
    pub value: f32,
}

// A bool is false or true and nothing else, from C too.
fn side(right: bool) -> Side
    ensures { result ≡ side_said right }
{
    if right {
        return Side::Right;
    }
    Side::Left
}

fn numbered(answer: Result<Reason, Refusal>) -> Why
    ensures { result ≡ numbered_why answer }
{
    match answer {
        Ok(reason) => Why {
            number: 0,
            reason: why::number(reason),
            value: why::value(reason),
        },
        Err(refusal) => Why {
            number: board::number(Some(refusal)),
            reason: 0,
            value: 0.0,
        },
    }
}

// Why a voice adds nothing to a side in the step of these arguments: to the left, or to the right.
#[unsafe(no_mangle)]
pub extern "C" fn rytm_why(
    board: Analog,
    frame: &[u8],
    dac: &[i32],
    fx: &[u8],
    audio_l: f32,
    audio_r: f32,
    ext_l: f32,
    ext_r: f32,
    voice: u32,
    right: bool,
) -> Why
    ensures { WhyAnswer board frame.now dac.now fx.now (inputs_of audio_l audio_r ext_l ext_r) voice (side_said right) result }
{
    let x = Inputs::new(audio_l, audio_r, ext_l, ext_r);
    numbered(why::why(board, frame, dac, fx, x, voice, side(right)))
}
