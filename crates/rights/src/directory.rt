// A directory, as far as searching it goes.
ghost use Rattle.std.specs.Prelude.{◌<◌};

use crate::execute::Execute;

#[derive(Clone, Copy, PartialEq, Eq, Debug)]
pub struct Directory {
    pub owner: u16,
    pub group: u8,
    pub execute: Execute,
    ghost small: { group < 256 },
}
