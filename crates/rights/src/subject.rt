// Subjects: a user number with any set of groups. User 0 is as any other.
ghost use Rattle.std.specs.Prelude.{◌≡◌};
ghost use Rattle.groups.specs.Groups.{member};
ghost use Rattle.rights.specs.Subjects.{who_of, class_of, may};

use crate::class::Class;
use crate::directory::Directory;
use groups::{GroupSet, contains};

#[derive(Clone, Copy)]
pub struct Subject<'a> {
    pub user: u16,
    pub groups: &'a GroupSet,
}

impl Subject<'_> {
    pub fn in_group(&self, group: u8) -> bool
        ensures { result ≡ member (who_of self.now).groups group }
    {
        contains(self.groups, group)
    }

    // Owner, otherwise group, otherwise others. The two numbers are asked together here alone, so they have no type.
    pub fn class(&self, owner: u16, group: u8) -> Class
        ensures { result ≡ class_of (who_of self.now) owner group }
    {
        if self.user == owner {
            Class::Owner
        } else if self.in_group(group) {
            Class::Group
        } else {
            Class::Others
        }
    }

    pub fn may_search(&self, directory: &Directory) -> bool
        ensures { result ≡ may (who_of self.now) directory.now }
    {
        directory
            .execute
            .of(self.class(directory.owner, directory.group))
    }
}
