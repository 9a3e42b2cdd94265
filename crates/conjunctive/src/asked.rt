// Questions to a list of clauses.
ghost use Rattle.std.specs.Prelude.{◌≡◌};
ghost use Rattle.bounded.specs.Lists.{listed};
ghost use Rattle.rights.specs.Subjects.{who_of};
ghost use Rattle.conjunctive.specs.Clauses.{all_hold};

use crate::clauses::Clauses;
use rights::subject::Subject;

impl Clauses {
    // Whether each clause holds of the subject. A loop, as docs/DECISIONS.md says.
    pub fn hold(&self, subject: &Subject<'_>) -> bool
        ensures { result ≡ all_hold (listed self.now.list) (who_of subject.now) }
    {
        for clause in self.list.as_slice() {
            if !clause.holds(subject) {
                return false;
            }
        }
        true
    }
}
