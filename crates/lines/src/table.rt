// The table of user lines, in rising order of user, at most one for a user. It is searched from the front:
// what these methods promise holds of any table, and that one is in order is known only of a whole record.
ghost use Rattle.std.specs.Prelude.{◌≡◌, not, ◌&&◌, [], ◌∷◌, if◌then◌else◌};
ghost use Rattle.rights.specs.Subjects.{who_of};
ghost use Rattle.bounded.specs.Lists.{holding, listed};
ghost use Rattle.bounded.specs.Places.{placed};
ghost use Rattle.lines.specs.Lines.{lines_admit, has, shut_out, users};
ghost use Rattle.lines.specs.Moves.{move_1, move_2, move_4};

use crate::line::{OpenLine, UserLine};
use crate::others::covered;
use bounded::keyed::{Keyed, has_key};
use bounded::list::Bounded;
use rights::directory::Directory;
use rights::subject::Subject;

#[derive(Clone, Copy, PartialEq)]
pub struct Lines {
    pub table: Bounded<UserLine, 16>,
}

// A line goes by its user.
impl Keyed for UserLine {
    ghost key = { λ l. l.user };

    fn key(&self) -> u16 {
        self.user
    }
}

impl UserLine {
    // A line in move 1; says whether it stays, as `retain_mut` asks.
    fn treat(&mut self, directory: &Directory) -> bool
        ensures { (if result then self.new ∷ [] else []) ≡ move_1 directory.now (self.old ∷ []) }
    {
        if self.user == directory.owner {
            directory.execute.owner
        } else {
            self.line.treat(directory)
        }
    }
}

impl Lines {
    // Whether some line admits the subject.
    pub fn admits(&self, subject: &Subject<'_>) -> bool
        ensures { result ≡ lines_admit (listed self.now.table) (who_of subject.now) }
    {
        let lines = self.table.as_slice();
        lines.iter().any(|line| line.admits(subject))
    }

    // Whether the user has a line.
    pub fn has(&self, user: u16) -> bool
        ensures { result ≡ has (users (listed self.now.table)) user }
    {
        has_key(self.table.as_slice(), user)
    }

    // Puts the line in its user's place.
    pub fn place(&mut self, line: UserLine)
        ensures { self.new.table ≡ holding self.old.table (placed (λ l. l.user) line (listed self.old.table)) }
    {
        self.table.place(line);
    }

    // Move 1: each line is lent to be treated, and stays or goes.
    pub fn treat(&mut self, directory: &Directory)
        ensures { self.new.table ≡ holding self.old.table (move_1 directory.now (listed self.old.table)) }
    {
        self.table.retain_mut(|line| line.treat(directory));
    }

    // Whether the owner bit is 1, and the owner is not shut out and has no line.
    fn lacks_owner(&self, directory: &Directory, open: &OpenLine) -> bool
        ensures { result ≡ (directory.now.execute.owner && (not (shut_out «open».now directory.now.owner) && not (has (users (listed self.now.table)) directory.now.owner))) }
    {
        directory.execute.owner && !open.shuts_out(directory.owner) && !self.has(directory.owner)
    }

    // Move 2: such an owner gets a line with the open line's sets.
    pub fn grant(&mut self, directory: &Directory, others: &Option<OpenLine>)
        ensures { self.new.table ≡ holding self.old.table (move_2 directory.now others.now (listed self.old.table)) }
    {
        if let Some(open) = others {
            if self.lacks_owner(directory, open) {
                self.place(UserLine {
                    user: directory.owner,
                    line: open.line,
                });
            }
        }
    }

    // Move 4 on the user lines: those stay that do not want and bar one group, and that the open line does not cover.
    pub fn settle(&mut self, others: &Option<OpenLine>)
        ensures { self.new.table ≡ holding self.old.table (move_4 others.now (listed self.old.table)) }
    {
        self.table
            .retain(|line| line.line.is_consistent() && !covered(others, line));
    }
}
