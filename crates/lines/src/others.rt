// The open line: whom it admits, which lines it covers, and how it is narrowed.
ghost use Rattle.std.specs.Prelude.{◌≡◌, Some};
ghost use Rattle.rights.specs.Subjects.{who_of};
ghost use Rattle.lines.specs.Lines.{shut_out, open_admits};
ghost use Rattle.lines.specs.Moves.{shut_with, covered, move_3, open_after};
ghost use Rattle.lines.specs.Steps.{Stays};

use crate::line::{OpenLine, UserLine};
use bounded::keyed::has_key;
use rights::directory::Directory;
use rights::subject::Subject;

impl OpenLine {
    pub fn shuts_out(&self, user: u16) -> bool
        ensures { result ≡ shut_out self.now user }
    {
        has_key(self.shut.as_slice(), user)
    }

    pub fn admits(&self, subject: &Subject<'_>) -> bool
        ensures { result ≡ open_admits (Some self.now) (who_of subject.now) }
    {
        !self.shuts_out(subject.user) && self.line.admits(subject)
    }

    // Whether it admits all that the user's line does.
    pub fn covers(&self, line: &UserLine) -> bool
        ensures { result ≡ covered (Some self.now) line.now }
    {
        self.line.within(&line.line) && !self.shuts_out(line.user)
    }

    // Shuts out one user more.
    pub fn shut_out(&mut self, user: u16)
        ensures { self.new ≡ shut_with user self.old self.old.line }
    {
        self.shut.place(user);
    }

    // Move 3; says whether the line stays. A bool, as for the lines in the table.
    pub fn treat(&mut self, directory: &Directory) -> bool
        ensures { Stays (move_3 directory.now (Some self.old)) result self.old self.new }
    {
        if !self.line.treat(directory) {
            return false;
        }
        if !directory.execute.owner {
            self.shut_out(directory.owner);
        }
        true
    }
}

// Moves 3 and 4 on the open line, if there is one.
pub fn reopen(others: &mut Option<OpenLine>, directory: &Directory)
    ensures { others.new ≡ open_after directory.now others.old }
{
    if let Some(open) = others {
        let stays = open.treat(directory) && open.line.is_consistent();
        if !stays {
            *others = None;
        }
    }
}

// Whether the open line, if any, admits all that the user's line does.
pub fn covered(others: &Option<OpenLine>, line: &UserLine) -> bool
    ensures { result ≡ covered others.now line.now }
{
    others.as_ref().is_some_and(|open| open.covers(line))
}
