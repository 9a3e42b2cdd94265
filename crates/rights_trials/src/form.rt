// The trail of directories as a form: it is walked for each subject, and never said to be the same as another.
ghost use Rattle.rights_trials.specs.Trails.{trails};
ghost use Rattle.rights_trials.specs.Walking;

use crate::trail::Trail;
use bounded::list::Bounded;
use rights::directory::Directory;
use rights::execute::Execute;
use rights::form::{Form, TooDeep};
use rights::subject::Subject;

impl Form for Trail {
    ghost meaning = { trails };

    ghost lawful = { Walking.lawful };

    fn everyone() -> Trail {
        Trail {
            path: Bounded::new(Directory {
                owner: 0,
                group: 0,
                execute: Execute {
                    owner: false,
                    group: false,
                    others: false,
                },
            }),
        }
    }

    fn level(&self) -> u8 {
        self.path.count as u8
    }

    fn narrow(&mut self, directory: &Directory) -> Result<(), TooDeep> {
        self.path.push(*directory).map_err(|_| TooDeep)
    }

    fn admits(&self, subject: &Subject<'_>) -> bool {
        let path = self.path.as_slice();
        path.iter().all(|directory| subject.may_search(directory))
    }

    fn same(&self, _other: &Trail) -> bool {
        false
    }
}
