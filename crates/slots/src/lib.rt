// A slot table, and the copy of the receive words that the firmware's audio interrupt makes by it.
#![tactic(auto)]

ghost use Rattle.std.specs.Prelude.{◌≡◌, ℕ, ◌<◌, List, get_or, true, is_some, IfSome};
ghost use Rattle.bus.specs.Bus.{InWordRange};
ghost use Rattle.slots.specs.Slots.{right_table, raw_of, copy_of};
ghost use Rattle.slots.specs.Copied.{Copied};

use std::marker::Model;

// Whether these are eight slots that name each voice once. Eight slots that name each of eight voices name none of them twice.
#[tactic(auto, unfolding(crate::specs::Slots::right_table))]
fn right_table(slots: &[u8]) -> bool
    ensures { result ≡ right_table slots.now }
{
    if slots.len() != 8 {
        return false;
    }
    (0..8).all(|v| slots.contains(&v))
}

// The raw word that stands at place i of the copy.
#[tactic(auto, using(crate::proofs::Tables::right_length, crate::proofs::Tables::right_below, crate::proofs::Copy::raw_main, crate::proofs::Copy::raw_voice, crate::proofs::Copy::raw_audio_in))]
fn raw(slots: &[u8], i: usize) -> usize
    requires { (right_table slots.now ≡ true) × (i < 12) }
    ensures value { result ≡ get_or (raw_of slots.now) i 0 }
    ensures word { result < 12 }
{
    if i < 2 {
        return board::RX_MAIN + i;
    }
    if i < 10 {
        return slots[i - 2] as usize;
    }
    board::RX_AUDIO_IN + (i - 10)
}

// A lent slot table that is right; in a contract it is the list of its slots.
#[derive(Drop)]
pub struct SlotTable<'a> {
    slots: &'a [u8],
}

impl<'a> Model for SlotTable<'a> {
    ghost Value = { List ℕ };

    ghost view = { λ s. s.slots.now };

    ghost invariant = { λ s. right_table s.slots.now ≡ true };
}

impl<'a> SlotTable<'a> {
    // None where they are not a right table.
    pub fn new(slots: &'a [u8]) -> Option<SlotTable<'a>>
        ensures right { is_some result ≡ right_table slots.now }
        ensures all { IfSome result (λ s. s ≡ slots.now) }
    {
        if right_table(slots) {
            return Some(SlotTable { slots });
        }
        None
    }

    // The copy. No negation overflows, since the words lie within ±8,388,607.
    #[tactic(auto, unfolding(lists::specs::Turns::turns_of))]
    pub fn copy(&self, rx: [i32; 12]) -> [i32; 12]
        requires { InWordRange rx }
        ensures value { result ≡ copy_of self.now rx }
        ensures copied { Copied self.now rx result }
    {
        let slots = self.slots;
        let mut copy = [0; 12];
        for i in 0..12 {
            copy[i] = -rx[raw(slots, i)];
        }
        copy
    }
}
