// The plainest requirement: the directories of the path themselves.
use bounded::list::Bounded;
use rights::directory::Directory;

#[derive(Clone, Copy)]
pub struct Trail {
    pub path: Bounded<Directory, 16>,
}
