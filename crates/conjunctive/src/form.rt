// The conjunctive record as a form.
ghost use Rattle.std.specs.Prelude.{◌≡◌, ltb, is_ok, if◌then◌else◌, nat_lt};
ghost use Rattle.conjunctive.specs.Adding.{BeginsAnew};
ghost use Rattle.conjunctive.specs.Requirement.{conjunctions, list_of, clauses_after};
ghost use Rattle.conjunctive.specs.Lawfulness;

use crate::clause::Clause;
use crate::clauses::Clauses;
use crate::record::Conjunctive;
use bounded::list::Bounded;
use rights::directory::Directory;
use rights::form::{Form, TooDeep};
use rights::subject::Subject;

impl Form for Conjunctive {
    ghost meaning = { conjunctions };

    ghost lawful = { Lawfulness.lawful };

    fn everyone() -> Conjunctive {
        Conjunctive {
            level: 0,
            clauses: Clauses {
                list: Bounded::new(Clause::EMPTY),
            },
        }
    }

    fn level(&self) -> u8 {
        self.level
    }

    // The first two clauses are the trait's, which a method with clauses of its own has to repeat.
    fn narrow(&mut self, directory: &Directory) -> Result<(), TooDeep>
        ensures answer { is_ok result ≡ nat_lt (conjunctions.level self.old) 16 }
        ensures after { self.new ≡ (if ltb (conjunctions.level self.old) 16 then conjunctions.narrowed self.old directory.now else self.old) }
        ensures list { list_of self.new ≡ (if ltb self.old.level 16 then clauses_after directory.now (list_of self.old) else list_of self.old) }
        ensures anew { BeginsAnew }
    {
        if self.level >= 16 {
            return Err(TooDeep);
        }
        self.clauses.narrow(directory);
        self.level += 1;
        Ok(())
    }

    fn admits(&self, subject: &Subject<'_>) -> bool {
        self.clauses.hold(subject)
    }

    fn same(&self, other: &Conjunctive) -> bool {
        self.clauses == other.clauses
    }
}
