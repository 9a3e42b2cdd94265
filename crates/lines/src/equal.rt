// Lines compared.
ghost use Rattle.std.specs.Prelude.{Some};
ghost use Rattle.lines.specs.Lines.{same_sets, same_line, same_open};
ghost use Rattle.lines.specs.Sameness.{sets_laws, line_laws, open_laws};

use crate::line::{Line, OpenLine, UserLine};
use bounded::equal::same_lists;

// The same sets, each within the other, which is the definition. A derive would compare bytes, and that
// these then tell the sets apart has no proof: nothing bounds the bytes of a record that is lent.
impl PartialEq for Line {
    ghost eq = { same_sets };

    ghost laws = { sets_laws };

    fn eq(&self, other: &Line) -> bool {
        self.within(other) && other.within(self)
    }
}

// This and the next are what derives would compute; written out, they name the definitions.
impl PartialEq for UserLine {
    ghost eq = { same_line };

    ghost laws = { line_laws };

    fn eq(&self, other: &UserLine) -> bool {
        self.user == other.user && self.line == other.line
    }
}

impl PartialEq for OpenLine {
    ghost eq = { λ o p. same_open (Some o) (Some p) };

    ghost laws = { open_laws };

    fn eq(&self, other: &OpenLine) -> bool {
        self.line == other.line
            && same_lists(self.shut.as_slice(), other.shut.as_slice(), |a, b| a == b)
    }
}
