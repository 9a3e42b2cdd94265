// The disjunctive record.
ghost use Rattle.std.specs.Prelude.{◌≡◌, ◌≤◌, true};
ghost use Rattle.bounded.specs.Lists.{listed};
ghost use Rattle.lines.specs.Lines.{tidy};

use lines::line::OpenLine;
use lines::table::Lines;

#[derive(Clone, Copy)]
pub struct Disjunctive {
    pub level: u8,
    pub lines: Lines,
    pub others: Option<OpenLine>,
    ghost ok: { (level ≤ 16) × (tidy level (listed lines.table) others ≡ true) },
}
