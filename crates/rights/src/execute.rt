// The execute bits of a directory, which say who may search it.
ghost use Rattle.std.specs.Prelude.{◌≡◌};
ghost use Rattle.rights.specs.Classes.{execute_of};

use crate::class::Class;

// A bit for each class.
#[derive(Clone, Copy, PartialEq, Eq, Debug)]
pub struct Execute {
    pub owner: bool,
    pub group: bool,
    pub others: bool,
}

impl Execute {
    pub fn of(self, class: Class) -> bool
        ensures { result ≡ execute_of self class }
    {
        match class {
            Class::Owner => self.owner,
            Class::Group => self.group,
            Class::Others => self.others,
        }
    }
}
