// Lines: what a subject's groups must be.
ghost use Rattle.std.specs.Prelude.{◌≡◌, length};

use bounded::list::Bounded;
use groups::GroupSet;

// The groups a subject must be in, and those it must not be in.
#[derive(Clone, Copy)]
pub struct Line {
    pub wanted: GroupSet,
    pub barred: GroupSet,
    ghost full: { (length wanted ≡ 32) × (length barred ≡ 32) },
}

// A line for one user alone.
#[derive(Clone, Copy)]
pub struct UserLine {
    pub user: u16,
    pub line: Line,
}

// The line for every user that it does not shut out; those in rising order.
#[derive(Clone, Copy)]
pub struct OpenLine {
    pub line: Line,
    pub shut: Bounded<u16, 16>,
}
