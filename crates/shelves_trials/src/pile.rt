// A pile of five layers, read and written as the trait says layer by layer: none of this needs a proof of its own.
ghost use Rattle.std.specs.Prelude.{◌≡◌, option_copied};
ghost use Rattle.shelves.specs.Slots.{Same, written};
ghost use Rattle.shelves_trials.specs.Piled.{piled};

use rights::form::Form;
use shelves::pair::Pair;
use shelves::scatter::Scatter;
use shelves::shelf::Shelf;
use shelves::slot::{Node, Slot};
use shelves::table::Table;

pub type Pile<'a, F> = Scatter<Pair<Table<'a, F>, Scatter<Pair<Table<'a, F>, Table<'a, F>>>>>;

pub fn pile_of<'a, F: Form>(
    a: &'a mut [Slot<F>],
    b: &'a mut [Slot<F>],
    c: &'a mut [Slot<F>],
) -> Pile<'a, F>
    ensures first { result.below.left.memory.now ≡ a.old }
    ensures second { result.below.right.below.left.memory.now ≡ b.old }
    ensures third { result.below.right.below.right.memory.now ≡ c.old }
{
    let right = Pair {
        left: Table::new(b),
        right: Table::new(c),
    };
    Scatter {
        below: Pair {
            left: Table::new(a),
            right: Scatter { below: right },
        },
    }
}

pub fn read_pile<'p, F: Form>(pile: &'p Pile<'_, F>, n: usize) -> Option<&'p Node<F>>
    ensures { option_copied result ≡ (piled pile.now).at n }
{
    pile.read(n)
}

pub fn write_pile<F: Form>(pile: &mut Pile<'_, F>, n: usize, slot: &Slot<F>)
    ensures { Same (piled pile.new) (written (piled pile.old) n slot.now) }
{
    pile.write(n, slot);
}
