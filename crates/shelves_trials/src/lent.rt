// What the owner of lent memory knows when a table over it has ended.
ghost use Rattle.std.specs.Prelude.{◌≡◌};
ghost use Rattle.shelves.specs.Layers.{placed, tabled};
ghost use Rattle.shelves.specs.Slots.{Same, written};

use rights::form::Form;
use shelves::shelf::Shelf;
use shelves::slot::Slot;
use shelves::table::Table;

// Writes one slot by a table, after which the memory has it.
pub fn write_by_table<F: Form>(memory: &mut [Slot<F>], n: usize, slot: &Slot<F>)
    ensures { memory.new ≡ placed memory.old n slot.now }
{
    let mut table = Table::new(memory);
    table.write(n, slot);
}

fn write_shelf<S: Shelf>(shelf: &mut S, n: usize, slot: &Slot<S::Form>)
    ensures { Same (S.Shelf.slots shelf.new) (written (S.Shelf.slots shelf.old) n slot.now) }
{
    shelf.write(n, slot);
}

// Has code that knows no table write one slot, and hands back the memory, which has it.
pub fn write_and_return<'a, F: Form>(
    memory: &'a mut [Slot<F>],
    n: usize,
    slot: &Slot<F>,
) -> &'a mut [Slot<F>]
    ensures { Same (tabled result.now) (written (tabled memory.old) n slot.now) }
{
    let mut table = Table::new(memory);
    write_shelf(&mut table, n, slot);
    table.into_memory()
}
