// A line of the disjunctive record in words, as "user 7: wants 1, 2; bars 3".
ghost use Rattle.std.specs.Prelude.{Some};
ghost use Rattle.wording.specs.Words.{line_words, user_line_words, open_line_words};

use crate::InWords;
use crate::numbers::{Groups, Users};
use groups::{NO_GROUPS, is_subset};
use lines::line::{Line, OpenLine, UserLine};
use std::fmt;

impl fmt::Display for InWords<'_, Line> {
    ghost output = { λ s. Some (line_words s.0.now) };

    fn fmt<W: fmt::Write>(&self, f: &mut fmt::Formatter<W>) -> fmt::Result {
        let wanted = Groups(&self.0.wanted);
        let barred = Groups(&self.0.barred);
        let wants = !is_subset(wanted.0, &NO_GROUPS);
        let bars = !is_subset(barred.0, &NO_GROUPS);
        match (wants, bars) {
            (false, false) => f.write_str("any groups"),
            (true, false) => write!(f, "wants {wanted}"),
            (false, true) => write!(f, "bars {barred}"),
            (true, true) => write!(f, "wants {wanted}; bars {barred}"),
        }
    }
}

impl fmt::Display for InWords<'_, UserLine> {
    ghost output = { λ s. Some (user_line_words s.0.now) };

    fn fmt<W: fmt::Write>(&self, f: &mut fmt::Formatter<W>) -> fmt::Result {
        write!(f, "user {}: {}", self.0.user, InWords(&self.0.line))
    }
}

impl fmt::Display for InWords<'_, OpenLine> {
    ghost output = { λ s. Some (open_line_words s.0.now) };

    fn fmt<W: fmt::Write>(&self, f: &mut fmt::Formatter<W>) -> fmt::Result {
        let shut = self.0.shut.as_slice();
        let line = InWords(&self.0.line);
        if shut.is_empty() {
            write!(f, "any user: {line}")
        } else {
            write!(f, "any user but {}: {line}", Users(shut))
        }
    }
}
