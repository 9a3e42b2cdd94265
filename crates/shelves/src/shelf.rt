// A shelf: a list of at most 4,096 slots, whose size never changes.
ghost use Rattle.shelves.specs.Slots.{Slots, Proper, Same, written};
ghost use Rattle.std.specs.Prelude.{◌≡◌, option_copied};

use crate::slot::{Node, Slot};
use rights::form::Form;

// A shelf has no more slots than this, so a node number is below it.
pub const MAX_SLOTS: usize = 4096;

pub trait Shelf {
    type Form: Form;

    // The list of slots.
    ghost slots: { Self → Slots Self.Form };

    // It has at most 4,096, and past them all is empty.
    ghost proper: { (s : Self) → Proper (slots s) };

    fn size(&self) -> usize
        ensures { result ≡ (slots self.now).size };

    // Past the size it tells an empty slot.
    fn read(&self, n: usize) -> Option<&Node<Self::Form>>
        ensures { option_copied result ≡ (slots self.now).at n };

    // Sets that slot and no other; past the size it has no effect.
    // The slot is lent: by value, every shelf would have to repeat this clause.
    fn write(&mut self, n: usize, slot: &Slot<Self::Form>)
        ensures { Same (slots self.new) (written (slots self.old) n slot.now) };
}
