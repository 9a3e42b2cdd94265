// Piles of several shapes and sizes: every slot is written and read back.
use crate::pile::pile_of;
use crate::reversed::Reversed;
use conjunctive::record::Conjunctive;
use disjunctive::record::Disjunctive;
use rights::directory::Directory;
use rights::execute::Execute;
use rights::form::Form;
use rights::mode::Mode;
use shelves::entry::{Entry, Kind};
use shelves::number::{NoSuchNode, NodeNumber};
use shelves::pair::Pair;
use shelves::scatter::Scatter;
use shelves::shelf::Shelf;
use shelves::slot::{Node, Slot};
use shelves::table::Table;
use std::alloc::{AllocError, Global};
use std::process::Abort;
use std::test::Fail;

fn empty<F: Form + Clone>(heap: Global, size: usize) -> Result<Vec<Slot<F>>, AllocError> {
    vec![in heap; None; size]
}

// A requirement of this level, at most 16.
fn requirement<F: Form>(level: usize) -> F {
    let mut form = F::everyone();
    for _ in 0..level {
        let _ = form.narrow(&Directory {
            owner: 1,
            group: 1,
            execute: Execute {
                owner: true,
                group: true,
                others: false,
            },
        });
    }
    form
}

// A node all of whose parts tell its number.
fn node<F: Form>(n: usize) -> Result<Node<F>, Fail> {
    let entry = Entry {
        kind: if n % 2 == 0 {
            Kind::Directory
        } else {
            Kind::File
        },
        parent: NodeNumber::try_from((n / 2 % 4096) as u16)?,
        owner: (n % 65536) as u16,
        group: (n % 256) as u8,
        mode: Mode::try_from((n % 512) as u16)?,
    };
    Ok(Node {
        entry,
        stale: n % 3 == 0,
        requirement: requirement(n % 5),
    })
}

fn is_node<F: Form>(told: &Node<F>, n: usize) -> bool {
    let entry = &told.entry;
    usize::from(entry.owner) == n
        && usize::from(entry.parent) == n / 2
        && usize::from(entry.group) == n % 256
        && usize::from(u16::from(entry.mode)) == n % 512
        && (entry.kind == Kind::Directory) == (n % 2 == 0)
        && told.stale == (n % 3 == 0)
        && usize::from(told.requirement.level()) == n % 5
}

// Fills the slot of this number with its node.
fn fill<S: Shelf>(shelf: &mut S, n: usize) -> Result<(), Fail> {
    shelf.write(n, &Some(node(n)?));
    Ok(())
}

fn fill_all<S: Shelf>(rt: &impl Abort, shelf: &mut S) -> Result<(), Fail> {
    for n in 0..shelf.size() {
        assert!(rt; shelf.read(n).is_none());
        fill(shelf, n)?;
    }
    Ok(())
}

// What is written past the size is not there.
fn fill_past<S: Shelf>(rt: &impl Abort, shelf: &mut S, size: usize) -> Result<(), Fail> {
    for past in [size, 4096, 4097, 8192, usize::MAX] {
        fill(shelf, past)?;
        assert!(rt; shelf.read(past).is_none());
    }
    Ok(())
}

// Every slot holds its node, but for one that is empty; none is where that is past the size.
fn all_filled_but<S: Shelf>(rt: &impl Abort, shelf: &S, emptied: usize) {
    for n in 0..shelf.size() {
        let told = shelf.read(n);
        assert_eq!(rt; told.is_some_and(|node| is_node(node, n)), n != emptied);
        assert_eq!(rt; told.is_none(), n == emptied);
    }
}

// Fills an empty shelf of this size, tries what is past the size, and reads every slot back.
fn filled<S: Shelf>(rt: &impl Abort, shelf: &mut S, size: usize) -> Result<(), Fail> {
    fill_all(rt, shelf)?;
    fill_past(rt, shelf, size)?;
    assert_eq!(rt; shelf.size(), size);
    all_filled_but(rt, shelf, size);
    Ok(())
}

// Whether a place of the memory holds the node of this number.
fn holds<F: Form>(memory: &[Slot<F>], at: usize, n: usize) -> bool {
    matches!(memory.get(at), Some(Some(node)) if is_node(node, n))
}

// Memory of so many slots, and the size of a table over it.
const TABLES: [(usize, usize); 8] = [
    (0, 0),
    (1, 1),
    (63, 63),
    (64, 64),
    (4095, 4095),
    (4096, 4096),
    (4097, 4096),
    (6000, 4096),
];

fn one_layer<F: Form + Clone>(
    rt: &impl Abort,
    heap: Global,
    slots: usize,
    size: usize,
) -> Result<(), Fail> {
    let mut memory = empty::<F>(heap, slots)?;
    filled(rt, &mut Table::new(&mut memory[..]), size)?;
    let mut memory = empty::<F>(heap, slots)?;
    let mut scatter = Scatter {
        below: Table::new(&mut memory[..]),
    };
    filled(rt, &mut scatter, size)?;
    let mut memory = empty::<F>(heap, slots)?;
    let mut reversed = Reversed {
        below: Table::new(&mut memory[..]),
    };
    filled(rt, &mut reversed, size)
}

#[test]
fn tables_alone_and_under_one_layer(rt: HostRuntime) -> Result<(), Fail> {
    for (slots, size) in TABLES {
        one_layer::<Conjunctive>(&rt, rt.alloc(), slots, size)?;
        one_layer::<Disjunctive>(&rt, rt.alloc(), slots, size)?;
    }
    Ok(())
}

// The slots of three pieces of memory, and the size of a pile over them.
const PILES: [([usize; 3], usize); 9] = [
    ([0, 0, 0], 0),
    ([0, 1, 0], 1),
    ([63, 0, 1], 64),
    ([1000, 2000, 1095], 4095),
    ([1000, 2000, 1096], 4096),
    ([1, 4096, 0], 4096),
    ([4095, 1, 7], 4096),
    ([5000, 64, 64], 4096),
    ([64, 3000, 3000], 4096),
];

fn piles<F: Form + Clone>(
    rt: &impl Abort,
    heap: Global,
    slots: [usize; 3],
    size: usize,
) -> Result<(), Fail> {
    let mut a = empty::<F>(heap, slots[0])?;
    let mut b = empty::<F>(heap, slots[1])?;
    let mut c = empty::<F>(heap, slots[2])?;
    filled(rt, &mut pile_of(&mut a[..], &mut b[..], &mut c[..]), size)?;
    let mut a = empty::<F>(heap, slots[0])?;
    let mut b = empty::<F>(heap, slots[1])?;
    let mut c = empty::<F>(heap, slots[2])?;
    let left = Pair {
        left: Scatter {
            below: Table::new(&mut a[..]),
        },
        right: Reversed {
            below: Table::new(&mut b[..]),
        },
    };
    let mut pile = Scatter {
        below: Scatter {
            below: Pair {
                left,
                right: Table::new(&mut c[..]),
            },
        },
    };
    filled(rt, &mut pile, size)
}

#[test]
fn piles_of_five_layers(rt: HostRuntime) -> Result<(), Fail> {
    for (slots, size) in PILES {
        piles::<Conjunctive>(&rt, rt.alloc(), slots, size)?;
        piles::<Disjunctive>(&rt, rt.alloc(), slots, size)?;
    }
    Ok(())
}

// The memory of a scatter when it has ended: slot 1 lies at 2,731, 3 at 1, 4,095 at 1,365.
#[test]
fn scattered_memory(rt: HostRuntime) -> Result<(), Fail> {
    let mut memory = empty::<Conjunctive>(rt.alloc(), 4096)?;
    let mut scatter = Scatter {
        below: Table::new(&mut memory[..]),
    };
    filled(&rt, &mut scatter, 4096)?;
    for (at, n) in [(0, 0), (2731, 1), (1, 3), (1365, 4095)] {
        assert!(rt; holds(&memory[..], at, n));
    }
    Ok(())
}

// The memory of a pair that crosses 4,096: what does not count stays empty.
#[test]
fn paired_memory(rt: HostRuntime) -> Result<(), Fail> {
    let mut left = empty::<Conjunctive>(rt.alloc(), 4000)?;
    let mut right = empty::<Conjunctive>(rt.alloc(), 200)?;
    let mut pair = Pair {
        left: Table::new(&mut left[..]),
        right: Table::new(&mut right[..]),
    };
    filled(&rt, &mut pair, 4096)?;
    assert!(rt; holds(&left[..], 3999, 3999));
    assert!(rt; holds(&right[..], 0, 4000));
    assert!(rt; holds(&right[..], 95, 4095));
    assert!(rt; matches!(right.get(96), Some(None)));
    Ok(())
}

// A slot that is emptied is the only one that changes.
fn emptied<S: Shelf>(rt: &impl Abort, shelf: &mut S, n: usize) -> Result<(), Fail> {
    fill_all(rt, shelf)?;
    shelf.write(n, &None);
    all_filled_but(rt, shelf, n);
    Ok(())
}

#[test]
fn one_slot_emptied(rt: HostRuntime) -> Result<(), Fail> {
    for n in [0, 31, 32, 63, 64] {
        let mut left = empty::<Conjunctive>(rt.alloc(), 32)?;
        let mut right = empty::<Conjunctive>(rt.alloc(), 32)?;
        let mut pair = Pair {
            left: Table::new(&mut left[..]),
            right: Table::new(&mut right[..]),
        };
        emptied(&rt, &mut pair, n)?;
    }
    Ok(())
}

#[test]
fn node_numbers(rt: HostRuntime) {
    for (number, fits) in [(0, true), (4095, true), (4096, false), (65535, false)] {
        let told = NodeNumber::try_from(number).map(usize::from);
        let wanted = fits.then_some(usize::from(number));
        assert_eq!(rt; told, wanted.ok_or(NoSuchNode(number)));
    }
}
