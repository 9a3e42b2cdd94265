// A shelf over the caller's memory.
ghost use Rattle.std.specs.Prelude.{◌≡◌};
ghost use Rattle.shelves.specs.Bounds.{tabled_proper};
ghost use Rattle.shelves.specs.Layers.{tabled, placed};
ghost use Rattle.shelves.specs.Slots.{Same, written};

use crate::shelf::{MAX_SLOTS, Shelf};
use crate::slot::{Node, Slot};
use rights::form::Form;

// The first 4,096 slots of the memory count. It is lent: the caller has it back when the table ends.
#[derive(Drop)]
pub struct Table<'a, F> {
    memory: &'a mut [Slot<F>],
}

impl<'a, F> Table<'a, F> {
    pub fn new(memory: &'a mut [Slot<F>]) -> Table<'a, F>
        ensures memory { result.memory.now ≡ memory.old }
        ensures lent { result.memory.ghost_name ≡ memory.entry.ghost_name }
    {
        Table { memory }
    }

    // Gives the memory back.
    pub fn into_memory(self) -> &'a mut [Slot<F>]
        ensures memory { result.now ≡ self.entry.memory.now }
        ensures lent { result.ghost_name ≡ self.entry.memory.ghost_name }
    {
        let Table { memory } = self;
        memory
    }
}

impl<'a, F: Form> Shelf for Table<'a, F> {
    type Form = F;

    ghost slots = { λ t. tabled t.memory.now };

    ghost proper = { λ t. tabled_proper t.memory.now };

    fn size(&self) -> usize {
        self.memory.len().min(MAX_SLOTS)
    }

    fn read(&self, n: usize) -> Option<&Node<F>> {
        self.memory[..self.size()].get(n)?.as_ref()
    }

    // The first clause is the trait's, which a method with clauses of its own has to repeat.
    fn write(&mut self, n: usize, slot: &Slot<F>)
        ensures slots { Same (tabled self.new.memory.now) (written (tabled self.old.memory.now) n slot.now) }
        ensures memory { self.new.memory.now ≡ placed self.old.memory.now n slot.now }
        ensures lent { self.new.memory.ghost_name ≡ self.old.memory.ghost_name }
    {
        if n < self.size() {
            self.memory[n] = *slot;
        }
    }
}
