// The disjunctive record as a form.
ghost use Rattle.std.specs.Prelude.{◌≡◌, ltb, is_ok, if◌then◌else◌, nat_lt};
ghost use Rattle.lines.specs.Moves.{lines_after, open_after};
ghost use Rattle.disjunctive.specs.Requirement.{list_of, disjunctions};
ghost use Rattle.disjunctive.specs.Lawful;

use crate::record::Disjunctive;
use bounded::list::Bounded;
use lines::line::{Line, OpenLine, UserLine};
use lines::others::reopen;
use lines::table::Lines;
use rights::directory::Directory;
use rights::form::{Form, TooDeep};
use rights::subject::Subject;

impl Form for Disjunctive {
    ghost meaning = { disjunctions };

    ghost lawful = { Lawful.lawful };

    fn everyone() -> Disjunctive {
        let line = Line::free();
        Disjunctive {
            level: 0,
            lines: Lines {
                table: Bounded::new(UserLine { user: 0, line }),
            },
            others: Some(OpenLine {
                line,
                shut: Bounded::new(0),
            }),
        }
    }

    fn level(&self) -> u8 {
        self.level
    }

    // The first two clauses are the trait's, which a method with clauses of its own has to repeat.
    fn narrow(&mut self, directory: &Directory) -> Result<(), TooDeep>
        ensures answer { is_ok result ≡ nat_lt (disjunctions.level self.old) 16 }
        ensures after { self.new ≡ (if ltb (disjunctions.level self.old) 16 then disjunctions.narrowed self.old directory.now else self.old) }
        ensures lines { list_of self.new ≡ (if ltb self.old.level 16 then lines_after directory.now self.old.others (list_of self.old) else list_of self.old) }
        ensures others { self.new.others ≡ (if ltb self.old.level 16 then open_after directory.now self.old.others else self.old.others) }
    {
        if self.level >= 16 {
            return Err(TooDeep);
        }
        self.lines.treat(directory);
        self.lines.grant(directory, &self.others);
        reopen(&mut self.others, directory);
        self.lines.settle(&self.others);
        self.level += 1;
        Ok(())
    }

    fn admits(&self, subject: &Subject<'_>) -> bool {
        self.lines.admits(subject) || self.others.iter().any(|open| open.admits(subject))
    }

    fn same(&self, other: &Disjunctive) -> bool {
        self.lines == other.lines && self.others == other.others
    }
}
