// A slice that is long enough, so that what reads it need not ask.
#![tactic(auto)]

ghost use Rattle.std.specs.Prelude.{◌≡◌, ◌<◌, ◌≤◌, List, length, IfSome, IsNone};

use std::marker::Model;

// A lent slice of at least N elements; in a contract it is the list of all its elements.
#[derive(Drop)]
pub struct AtLeast<'a, T, const N: usize> {
    items: &'a [T],
}

impl<'a, T, const N: usize> Model for AtLeast<'a, T, N> {
    ghost Value = { List T };

    ghost view = { λ s. s.items.now };

    ghost invariant = { λ s. N ≤ length s.items.now };
}

impl<'a, T, const N: usize> AtLeast<'a, T, N> {
    // None where the slice is shorter.
    pub fn new(items: &'a [T]) -> Option<AtLeast<'a, T, N>>
        ensures all { IfSome result (λ s. s ≡ items.now) }
        ensures short { IsNone result → length items.now < N }
    {
        if items.len() < N {
            return None;
        }
        Some(AtLeast { items })
    }

    pub fn as_slice(&self) -> &[T]
        ensures all { result.now ≡ self.now }
        ensures enough { N ≤ length self.now }
    {
        self.items
    }
}
