// Two shelves as one: the left one's slots, followed by the right one's; the first 4,096 count.
ghost use Rattle.shelves.specs.Layers.{paired, right_written};
ghost use Rattle.shelves.specs.Slots.{Same, written};
ghost use Rattle.shelves.specs.Bounds.{paired_proper};

use crate::shelf::{MAX_SLOTS, Shelf};
use crate::slot::{Node, Slot};

#[derive(Drop)]
pub struct Pair<L, R> {
    pub left: L,
    pub right: R,
}

impl<L: Shelf, R: Shelf<Form = L::Form>> Shelf for Pair<L, R> {
    type Form = L::Form;

    ghost slots = { λ p. paired (L.Shelf.slots p.left) (R.Shelf.slots p.right) };

    ghost proper = { λ p. paired_proper _ _ (L.Shelf.proper p.left) (R.Shelf.proper p.right) };

    fn size(&self) -> usize {
        (self.left.size() + self.right.size()).min(MAX_SLOTS)
    }

    fn read(&self, n: usize) -> Option<&Node<L::Form>> {
        let split = self.left.size();
        if n < split {
            self.left.read(n)
        } else if n < MAX_SLOTS {
            self.right.read(n - split)
        } else {
            None
        }
    }

    // The first clause is the trait's, which a method with clauses of its own has to repeat.
    fn write(&mut self, n: usize, slot: &Slot<L::Form>)
        ensures slots { Same (paired (L.Shelf.slots self.new.left) (R.Shelf.slots self.new.right)) (written (paired (L.Shelf.slots self.old.left) (R.Shelf.slots self.old.right)) n slot.now) }
        ensures left { Same (L.Shelf.slots self.new.left) (written (L.Shelf.slots self.old.left) n slot.now) }
        ensures right { Same (R.Shelf.slots self.new.right) (right_written (L.Shelf.slots self.old.left).size (R.Shelf.slots self.old.right) n slot.now) }
    {
        let split = self.left.size();
        if n < split {
            self.left.write(n, slot);
        } else if n < MAX_SLOTS {
            self.right.write(n - split, slot);
        }
    }
}
