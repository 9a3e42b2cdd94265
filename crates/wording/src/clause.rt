// A clause of the conjunctive record in words, as "user is 1, or in group 3".
ghost use Rattle.std.specs.Prelude.{Some};
ghost use Rattle.wording.specs.Words.{user_words, group_words, clause_words};

use crate::InWords;
use conjunctive::clause::{Clause, Literal};
use std::fmt;

// A literal on the user; nothing for none. One for both numbers would have to be told its texts.
impl fmt::Display for InWords<'_, Literal<u16>> {
    ghost output = { λ s. Some (user_words s.0.now) };

    fn fmt<W: fmt::Write>(&self, f: &mut fmt::Formatter<W>) -> fmt::Result {
        match *self.0 {
            Literal::Absent => f.write_str(""),
            Literal::Positive(u) => write!(f, "user is {u}"),
            Literal::Negative(u) => write!(f, "user is not {u}"),
        }
    }
}

// A literal on a group; nothing for none.
impl fmt::Display for InWords<'_, Literal<u8>> {
    ghost output = { λ s. Some (group_words s.0.now) };

    fn fmt<W: fmt::Write>(&self, f: &mut fmt::Formatter<W>) -> fmt::Result {
        match *self.0 {
            Literal::Absent => f.write_str(""),
            Literal::Positive(g) => write!(f, "in group {g}"),
            Literal::Negative(g) => write!(f, "not in group {g}"),
        }
    }
}

// A match as for a line's two sets; one for both would have to be told three texts and two parts.
impl fmt::Display for InWords<'_, Clause> {
    ghost output = { λ s. Some (clause_words s.0.now) };

    fn fmt<W: fmt::Write>(&self, f: &mut fmt::Formatter<W>) -> fmt::Result {
        let user = InWords(&self.0.user);
        let group = InWords(&self.0.group);
        match (self.0.user, self.0.group) {
            (Literal::Absent, Literal::Absent) => f.write_str("nobody"),
            (Literal::Absent, _) => group.fmt(f),
            (_, Literal::Absent) => user.fmt(f),
            _ => write!(f, "{user}, or {group}"),
        }
    }
}
