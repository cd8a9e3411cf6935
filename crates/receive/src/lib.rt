// A step whose receive words are copied into lent memory, as the firmware's audio interrupt copies them.
#![tactic(auto)]

ghost use Rattle.std.specs.Prelude.{◌≡◌, IfOk};
ghost use Rattle.std.specs.Result.{result_err};
ghost use Rattle.receive.specs.Receive.{receive_refusal_of, refused_of, Receives};

use board::{Analog, Heard, Inputs, Refusal, StepCall};
use slots::SlotTable;
use stereo::Mix;

// What such a step answers; its words are in the destination.
#[derive(Clone, Copy)]
pub struct Received {
    pub refusal: Option<Refusal>,
    pub mix: Mix,
    pub board: Analog,
}

// What such a step is given beside the board, as it was tested: the step's call, and the slot table.
#[derive(Drop)]
struct Copying<'a> {
    call: StepCall<'a>,
    slots: SlotTable<'a>,
}

impl<'a> Copying<'a> {
    // The call, or the lowest refusal that applies; `room` is the destination's length.
    #[tactic(auto, unfolding(crate::specs::Receive::receive_refusal_of))]
    fn read(
        f: &'a [u8],
        dac: &'a [i32],
        fx: &'a [u8],
        x: Inputs,
        slots: &'a [u8],
        room: usize,
    ) -> Result<Copying<'a>, Refusal>
        ensures refusal { result_err result ≡ receive_refusal_of f.now dac.now fx.now x slots.now room }
        ensures call { IfOk result (λ c. (c.call.frame ≡ f.now) × (c.call.dac ≡ dac.now) × (c.call.fx ≡ fx.now) × (c.call.inputs ≡ x) × (c.slots ≡ slots.now) × (room ≡ 12)) }
    {
        let call = StepCall::read(f, dac, fx, x)?;
        let slots = SlotTable::new(slots).ok_or(Refusal::SlotTable)?;
        if room != 12 {
            return Err(Refusal::DestinationCount);
        }
        Ok(Copying { call, slots })
    }
}

#[tactic(auto, unfolding(crate::specs::Receive::refused_of))]
fn refused(board: Analog, refusal: Refusal) -> Received
    ensures { result ≡ refused_of board refusal }
{
    Received {
        refusal: Some(refusal),
        mix: Mix { l: 0.0, r: 0.0 },
        board,
    }
}

// One sample whose words are copied, or the lowest refusal that applies, of what a caller has.
pub fn receive(
    mut board: Analog,
    f: &[u8],
    dac: &[i32],
    fx: &[u8],
    x: Inputs,
    slots: &[u8],
    dest: &mut [i32],
) -> Received
    ensures { Receives board f.now dac.now fx.now x slots.now dest.old result dest.new }
{
    match Copying::read(f, dac, fx, x, slots, dest.len()) {
        Ok(Copying { call, slots }) => {
            let Heard { rx, mix, .. } = board::stepped(&mut board, &call);
            dest.copy_from_slice(&slots.copy(rx));
            Received {
                refusal: None,
                mix,
                board,
            }
        }
        Err(refusal) => refused(board, refusal),
    }
}
