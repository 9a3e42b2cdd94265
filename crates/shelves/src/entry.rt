// What a directory or a file is, apart from its stored requirement: its kind, its place in the tree, and its rights.
ghost use Rattle.std.specs.Prelude.{◌<◌};

use crate::number::NodeNumber;
use rights::mode::Mode;

#[derive(Clone, Copy, Debug, PartialEq, Eq, Hash)]
pub enum Kind {
    File,
    Directory,
}

#[derive(Clone, Copy, Debug, PartialEq, Eq)]
pub struct Entry {
    pub kind: Kind,
    pub parent: NodeNumber,
    pub owner: u16,
    pub group: u8,
    pub mode: Mode,
    ghost small: { group < 256 },
}
