// A form: a flattened requirement, that is, the search rights of all directories of a path in one record.
ghost use Rattle.std.specs.Prelude.{◌≡◌, ltb, Some, codes, is_ok, if◌then◌else◌, nat_lt};
ghost use Rattle.rights.specs.Subjects.{who_of};
ghost use Rattle.rights.specs.Meaning.{Meaning, Lawful};

use crate::directory::Directory;
use crate::subject::Subject;
use std::error::Error;
use std::fmt;

// The refusal to narrow a requirement that has 16 levels.
#[derive(Clone, Copy, PartialEq, Eq, Debug)]
pub struct TooDeep;

impl fmt::Display for TooDeep {
    ghost output = { λ _. Some (codes "a path has at most 16 directories") };

    fn fmt<W: fmt::Write>(&self, f: &mut fmt::Formatter<W>) -> fmt::Result {
        f.write_str("a path has at most 16 directories")
    }
}

impl Error for TooDeep {}

pub trait Form: Copy {
    ghost meaning: { Meaning Self };

    fn everyone() -> Self
        ensures { result ≡ meaning.everyone };

    fn level(&self) -> u8
        ensures { result ≡ meaning.level self.now };

    // Goes one directory down; at level 16 it refuses and leaves the form as it was.
    fn narrow(&mut self, directory: &Directory) -> Result<(), TooDeep>
        ensures answer { is_ok result ≡ nat_lt (meaning.level self.old) 16 }
        ensures after { self.new ≡ (if ltb (meaning.level self.old) 16 then meaning.narrowed self.old directory.now else self.old) };

    fn admits(&self, subject: &Subject<'_>) -> bool
        ensures { result ≡ meaning.admits self.now (who_of subject.now) };

    fn same(&self, other: &Self) -> bool
        ensures { result ≡ meaning.same self.now other.now };

    ghost lawful: { Lawful meaning };
}
