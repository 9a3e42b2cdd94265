// A shelf whose neighbouring slots lie far apart below.
ghost use Rattle.std.specs.Prelude.{◌≡◌, ℕ, ◌<◌};
ghost use Rattle.shelves.specs.Layers.{lies, gathered, scattered, below_written};
ghost use Rattle.shelves.specs.Slots.{Same, written};
ghost use Rattle.shelves.specs.Bounds.{renumbered_proper};

use crate::shelf::{MAX_SLOTS, Shelf};
use crate::slot::{Node, Slot};

#[derive(Drop)]
pub struct Scatter<S> {
    pub below: S,
}

// Where slot n of a scatter over so many slots lies below: on one of them, from which n can be told, so on none with another.
pub fn place(size: usize, n: usize) -> usize
    ensures place { result ≡ lies size n }
    ensures within { n < size → result < size }
    ensures back { n < size → gathered size result ≡ n }
    ensures alone { (m : ℕ) → m < size → n < size → lies size m ≡ result → m ≡ n }
{
    if size == MAX_SLOTS {
        2731 * (n % MAX_SLOTS) % MAX_SLOTS
    } else {
        n
    }
}

impl<S: Shelf> Shelf for Scatter<S> {
    type Form = S::Form;

    ghost slots = { λ s. scattered (S.Shelf.slots s.below) };

    ghost proper = { λ s. renumbered_proper _ _ (S.Shelf.proper s.below) };

    fn size(&self) -> usize {
        self.below.size()
    }

    fn read(&self, n: usize) -> Option<&Node<S::Form>> {
        let size = self.below.size();
        if n < size {
            self.below.read(place(size, n))
        } else {
            None
        }
    }

    // The first clause is the trait's, which a method with clauses of its own has to repeat.
    fn write(&mut self, n: usize, slot: &Slot<S::Form>)
        ensures slots { Same (scattered (S.Shelf.slots self.new.below)) (written (scattered (S.Shelf.slots self.old.below)) n slot.now) }
        ensures below { Same (S.Shelf.slots self.new.below) (below_written (S.Shelf.slots self.old.below) n slot.now) }
    {
        let size = self.below.size();
        if n < size {
            self.below.write(place(size, n), slot);
        }
    }
}
