// A fresh board and the calls that take one, and what every list of these calls keeps.
#![tactic(auto)]

ghost use Rattle.std.specs.Prelude.{◌≡◌};
ghost use Rattle.board.specs.Board.{fresh_of, answer_of};
ghost use Rattle.receive.specs.Receive.{Receives};
ghost use Rattle.promise.specs.Calls.{StepAnswer, ReceiveAnswer};
ghost use Rattle.promise.specs.Promise.{Promised};
ghost use Rattle.promise.specs.BeforeR5.{SameRecordsSameAnswers};
ghost use Rattle.promise.specs.BeforeR7.{NonePlainSameAnswers};
ghost use Rattle.promise.specs.BeforeR8.{StoringChangesNothing};

use board::{Analog, Answer, Inputs};
use receive::Received;

// A fresh board.
pub fn fresh(seed: u32, ideal: bool) -> Analog
    ensures { (result ≡ fresh_of seed ideal) × Promised result × SameRecordsSameAnswers seed ideal × NonePlainSameAnswers seed ideal × StoringChangesNothing seed ideal }
{
    board::fresh(seed, ideal)
}

// A step, as a call of such a list, of what a caller has.
pub fn step(board: Analog, f: &[u8], dac: &[i32], fx: &[u8], x: Inputs) -> Answer
    ensures { (result ≡ answer_of board f.now dac.now fx.now x) × StepAnswer board f.now dac.now fx.now x result }
{
    board::step(board, f, dac, fx, x)
}

// A step whose words are copied into lent memory, as a call of such a list.
pub fn receive(
    board: Analog,
    f: &[u8],
    dac: &[i32],
    fx: &[u8],
    x: Inputs,
    slots: &[u8],
    dest: &mut [i32],
) -> Received
    ensures value { Receives board f.now dac.now fx.now x slots.now dest.old result dest.new }
    ensures call { ReceiveAnswer board f.now dac.now fx.now x slots.now dest.old result dest.new }
{
    receive::receive(board, f, dac, fx, x, slots, dest)
}
