// The worked examples of the definitions, computed.
#![tactic(auto)]

ghost use Rattle.std.specs.Prelude.{◌≡◌, false, [], ◌∷◌};
ghost use Rattle.examples.specs.Worked.{Worked};
ghost use Rattle.examples.specs.Scattered.{ScatteredWorked};

use groups::{NO_GROUPS, insert};
use rights::directory::Directory;
use rights::execute::Execute;
use rights::subject::Subject;
use shelves::scatter::place;

// Whether user 1 in group 1 may search a directory of owner 1 and group 1 with execute for the group alone:
// the owner's class counts, and it has no bit.
pub fn examples_stand() -> bool
    ensures refused { result ≡ false }
    ensures worked { Worked }
{
    let mut groups = NO_GROUPS;
    insert(&mut groups, 1);
    let subject = Subject {
        user: 1,
        groups: &groups,
    };
    subject.may_search(&Directory {
        owner: 1,
        group: 1,
        execute: Execute {
            owner: false,
            group: true,
            others: false,
        },
    })
}

// Where slots 1, 3 and 4,095 of a scatter over 4,096 slots lie below.
pub fn scattered_examples_stand() -> [usize; 3]
    ensures told { result ≡ 2731 ∷ 1 ∷ 1365 ∷ [] }
    ensures worked { ScatteredWorked }
{
    [place(4096, 1), place(4096, 3), place(4096, 4095)]
}
