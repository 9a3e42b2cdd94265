// What a line says, and what can be wrong with one.
ghost use Rattle.std.specs.Prelude.{◌≡◌, ◌%◌};
ghost use Rattle.rights.specs.Modes.{execute_bits};
ghost use Rattle.rights.specs.Subjects.{who_of};
ghost use Rattle.inquiry.specs.Asking.{asker};

use groups::GroupSet;
use rights::directory::Directory;
use rights::mode::Mode;
use rights::subject::Subject;
use std::error::Error;
use std::fmt;

// A directory as its line describes it.
#[derive(Clone, Copy, PartialEq, Eq, Debug)]
pub struct Description {
    pub owner: u16,
    pub group: u8,
    pub mode: u16,
}

// What stands above the nine permission bits of its mode does not count.
impl From<Description> for Directory {
    ghost from_gives = { λ description directory. (directory.owner ≡ description.owner) × (directory.group ≡ description.group) × (directory.execute ≡ execute_bits (description.mode % 512)) };

    fn from(description: Description) -> Directory {
        Directory {
            owner: description.owner,
            group: description.group,
            execute: Mode::try_from(description.mode % 512).unwrap().into(),
        }
    }
}

// The subject that asks, as its line names it.
#[derive(Clone, Copy, PartialEq, Eq, Debug)]
pub struct Asker {
    pub user: u16,
    pub groups: GroupSet,
}

impl<'a> From<&'a Asker> for Subject<'a> {
    ghost from_gives = { λ asked s. who_of s ≡ asker asked.now };

    fn from(asker: &'a Asker) -> Subject<'a> {
        Subject {
            user: asker.user,
            groups: &asker.groups,
        }
    }
}

// A directory of the path, or the subject that asks.
#[derive(Clone, Copy, PartialEq, Eq, Debug)]
pub enum Line {
    Directory(Description),
    Subject(Asker),
}

// The part of a line that is wrong.
#[derive(Clone, Copy, PartialEq, Eq, Debug)]
pub enum BadLine {
    Shape,
    Owner,
    Group,
    Mode,
    User,
    Groups,
}

// Written out: a further crate's derive would have the same texts in attributes.
impl fmt::Display for BadLine {
    fn fmt<W: fmt::Write>(&self, f: &mut fmt::Formatter<W>) -> fmt::Result {
        let wrong = match self {
            BadLine::Shape => "not `OWNER GROUP MODE` or `who USER GROUPS`",
            BadLine::Owner => "the owner is not a number from 0 to 65535",
            BadLine::Group => "the group is not a number from 0 to 255",
            BadLine::Mode => "the mode is not an octal number from 0 to 7777",
            BadLine::User => "the user is not a number from 0 to 65535",
            BadLine::Groups => "the groups are not numbers from 0 to 255 with commas between",
        };
        f.write_str(wrong)
    }
}

impl Error for BadLine {}
