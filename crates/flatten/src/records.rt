// The two records of a path.
ghost use Rattle.std.specs.Prelude.{◌≡◌, ◌<◌, length, MatchResult};
ghost use Rattle.rights.specs.Subjects.{who_of};
ghost use Rattle.flatten.specs.Joined.{records_of, admit, Exact};

use conjunctive::record::Conjunctive;
use disjunctive::record::Disjunctive;
use rights::directory::Directory;
use rights::form::{Form, TooDeep};
use rights::path::flatten;
use rights::subject::Subject;

// The records of one path.
#[derive(Clone, Copy)]
pub struct Records {
    pub conjunctive: Conjunctive,
    pub disjunctive: Disjunctive,
}

// The records of a path of at most 16 directories, root first.
pub fn flattened(path: &[Directory]) -> Result<Records, TooDeep>
    ensures records { result ≡ records_of path.now }
    ensures exact { MatchResult result (λ rs. Exact rs path.now) (λ _. 16 < length path.now) }
{
    Ok(Records {
        conjunctive: flatten(path)?,
        disjunctive: flatten(path)?,
    })
}

impl Records {
    // Whether both records admit the subject.
    pub fn admits(&self, subject: &Subject<'_>) -> bool
        ensures { result ≡ admit self.now (who_of subject.now) }
    {
        self.conjunctive.admits(subject) && self.disjunctive.admits(subject)
    }
}
