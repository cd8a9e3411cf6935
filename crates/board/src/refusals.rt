// Why a call is refused, as the table of refusals has it.
#![tactic(auto)]

// Why a call is refused: a step by the first five, a recording by the next three, a step whose words are copied by the next two beside the first five, a question about a voice by the last beside
// the first five.
#[derive(Clone, Copy, PartialEq, Eq)]
pub enum Refusal {
    ShortFrame = 1,
    ShortParameters,
    DacCount,
    DacRange,
    InputRange,
    BadOpening,
    WrongLength,
    NoBody,
    SlotTable,
    DestinationCount,
    VoiceNumber,
}
