// A shelf of another crate: the slots below, the last one first.
ghost use Rattle.shelves.specs.Bounds.{renumbered_proper};
ghost use Rattle.shelves_trials.specs.Reversed.{reversed};

use shelves::shelf::Shelf;
use shelves::slot::{Node, Slot};

#[derive(Drop)]
pub struct Reversed<S> {
    pub below: S,
}

impl<S: Shelf> Shelf for Reversed<S> {
    type Form = S::Form;

    ghost slots = { λ s. reversed (S.Shelf.slots s.below) };

    ghost proper = { λ s. renumbered_proper _ _ (S.Shelf.proper s.below) };

    fn size(&self) -> usize {
        self.below.size()
    }

    fn read(&self, n: usize) -> Option<&Node<S::Form>> {
        let size = self.below.size();
        if n < size {
            self.below.read(size - 1 - n)
        } else {
            None
        }
    }

    fn write(&mut self, n: usize, slot: &Slot<S::Form>) {
        let size = self.below.size();
        if n < size {
            self.below.write(size - 1 - n, slot);
        }
    }
}
