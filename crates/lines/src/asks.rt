// What a line asks of a subject, and how it comes to ask more.
ghost use Rattle.std.specs.Prelude.{◌≡◌, ◌&&◌, ◌==◌};
ghost use Rattle.rights.specs.Subjects.{who_of};
ghost use Rattle.lines.specs.Lines.{line_admits, within};
ghost use Rattle.lines.specs.Moves.{wanting, barring, treated_by, consistent};
ghost use Rattle.lines.specs.Lines.{free_line};
ghost use Rattle.lines.specs.Steps.{Stays};

use crate::line::{Line, UserLine};
use groups::{NO_GROUPS, insert, is_disjoint, is_subset};
use rights::directory::Directory;
use rights::subject::Subject;

impl Line {
    // The line that asks nothing.
    pub fn free() -> Line
        ensures { result ≡ free_line }
    {
        Line {
            wanted: NO_GROUPS,
            barred: NO_GROUPS,
        }
    }

    pub fn admits(&self, subject: &Subject<'_>) -> bool
        ensures { result ≡ line_admits self.now (who_of subject.now) }
    {
        is_subset(&self.wanted, subject.groups) && is_disjoint(&self.barred, subject.groups)
    }

    // Asks for one group more. Beside `bar`: one method for both would have to be told the field.
    pub fn want(&mut self, group: u8)
        ensures { self.new ≡ wanting group self.old }
    {
        insert(&mut self.wanted, group);
    }

    // Asks against one group more.
    pub fn bar(&mut self, group: u8)
        ensures { self.new ≡ barring group self.old }
    {
        insert(&mut self.barred, group);
    }

    // Whether no group is both wanted and barred.
    pub fn is_consistent(&self) -> bool
        ensures { result ≡ consistent self.now }
    {
        is_disjoint(&self.wanted, &self.barred)
    }

    // Whether each set lies within that of the other line.
    pub fn within(&self, other: &Line) -> bool
        ensures { result ≡ within self.now other.now }
    {
        is_subset(&self.wanted, &other.wanted) && is_subset(&self.barred, &other.barred)
    }

    // By the directory's bits of group and others the line stays, wants the group, bars it, or goes; says whether it stays.
    // A bool beside the line that is lent, as `retain_mut` asks.
    pub fn treat(&mut self, directory: &Directory) -> bool
        ensures { Stays (treated_by directory.now self.old) result self.old self.new }
    {
        match (directory.execute.group, directory.execute.others) {
            (true, true) => true,
            (true, false) => {
                self.want(directory.group);
                true
            }
            (false, true) => {
                self.bar(directory.group);
                true
            }
            (false, false) => false,
        }
    }
}

impl UserLine {
    pub fn admits(&self, subject: &Subject<'_>) -> bool
        ensures { result ≡ (self.now.user == (who_of subject.now).user && line_admits self.now.line (who_of subject.now)) }
    {
        self.user == subject.user && self.line.admits(subject)
    }
}
