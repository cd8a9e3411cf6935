// The board under C names: a fresh board, a step, and a step whose words are copied by a slot table. The caller tests nothing beforehand.
#![tactic(auto)]

ghost use Rattle.std.specs.Prelude.{◌≡◌};
ghost use Rattle.board.specs.Board.{fresh_of, inputs_of};
ghost use Rattle.promise.specs.Promise.{Promised};
ghost use Rattle.promise.specs.BeforeR5.{SameRecordsSameAnswers};
ghost use Rattle.promise.specs.BeforeR7.{NonePlainSameAnswers};
ghost use Rattle.promise.specs.BeforeR8.{StoringChangesNothing};
ghost use Rattle.board_c.specs.Calls.{Step, ReceiveStep};

use board::{Analog, Heard, Inputs};
use stereo::Mix;

// A step's answer, with the number of its refusal, 0 for none: C has no Option, so this struct stands beside board's.
#[repr(C)]
#[derive(Clone, Copy)]
pub struct Answer {
    pub number: u32,
    pub rx: [i32; 12],
    pub mix: Mix,
    pub board: Analog,
}

// The same of a step whose words are copied: they are in the destination.
#[repr(C)]
#[derive(Clone, Copy)]
pub struct Received {
    pub number: u32,
    pub mix: Mix,
    pub board: Analog,
}

// A fresh board.
#[unsafe(no_mangle)]
pub extern "C" fn rytm_fresh(seed: u32, ideal: bool) -> Analog
    ensures { (result ≡ fresh_of seed ideal) × Promised result × SameRecordsSameAnswers seed ideal × NonePlainSameAnswers seed ideal × StoringChangesNothing seed ideal }
{
    promise::fresh(seed, ideal)
}

// A step; C passes the slices and the four inputs one by one.
#[unsafe(no_mangle)]
pub extern "C" fn rytm_step(
    mut board: Analog,
    frame: &[u8],
    dac: &[i32],
    fx: &[u8],
    audio_l: f32,
    audio_r: f32,
    ext_l: f32,
    ext_r: f32,
) -> Answer
    ensures { Step board frame.now dac.now fx.now (inputs_of audio_l audio_r ext_l ext_r) result }
{
    let x = Inputs::new(audio_l, audio_r, ext_l, ext_r);
    let Heard { refusal, rx, mix } = board::advance(&mut board, frame, dac, fx, x);
    Answer {
        number: board::number(refusal),
        rx,
        mix,
        board,
    }
}

// A step whose words are copied by `slots` into `dest`.
#[unsafe(no_mangle)]
pub extern "C" fn rytm_receive(
    board: Analog,
    frame: &[u8],
    dac: &[i32],
    fx: &[u8],
    audio_l: f32,
    audio_r: f32,
    ext_l: f32,
    ext_r: f32,
    slots: &[u8],
    dest: &mut [i32],
) -> Received
    ensures { ReceiveStep board frame.now dac.now fx.now (inputs_of audio_l audio_r ext_l ext_r) slots.now dest.old result dest.new }
{
    let x = Inputs::new(audio_l, audio_r, ext_l, ext_r);
    let receive::Received {
        refusal,
        mix,
        board,
    } = receive::receive(board, frame, dac, fx, x, slots, dest);
    Received {
        number: board::number(refusal),
        mix,
        board,
    }
}
