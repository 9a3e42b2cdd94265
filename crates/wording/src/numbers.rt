// Numbers with ", " between them, as "1, 2, 7".
ghost use Rattle.std.specs.Prelude.{ℕ, List, Some, decimal};
ghost use Rattle.std.specs.Fmt.{WritesOnOk};
ghost use Rattle.std.specs.Iterator.{IsFinite};
ghost use Rattle.std.specs.List.{join_by};
ghost use Rattle.std.proofs.lemmas.Iterator.{YieldsList};
ghost use Rattle.wording.specs.Words.{number_words, groups_of};

use groups::{GroupSet, contains};
use std::fmt;

// Users, written in the order of the slice.
#[derive(Drop)]
pub struct Users<'a>(pub &'a [u16]);

// The groups of a set, written in rising order.
#[derive(Drop)]
pub struct Groups<'a>(pub &'a GroupSet);

// Writes the numbers that an iterator yields, with a mark between them. The first stands before the loop, so that no empty
// text goes to the writer.
fn write_numbers<W: fmt::Write, I: Iterator<Item = u16> + Drop>(
    f: &mut fmt::Formatter<W>,
    mark: &str,
    mut numbers: I,
) -> fmt::Result
    requires can { I.can_next numbers }
    requires ends { IsFinite (I.remaining numbers) }
    ensures { (ns : List ℕ) → YieldsList I.next_gives (λ n. n) numbers ns → WritesOnOk W.Write.write_str_gives f.old result (join_by decimal mark.now ns) f.new }
{
    let Some(first) = numbers.next() else {
        return Ok(());
    };
    write!(f, "{first}")?;
    for n in numbers {
        write!(f, "{mark}{n}")?;
    }
    Ok(())
}

impl fmt::Display for Users<'_> {
    ghost output = { λ s. Some (number_words s.0.now) };

    fn fmt<W: fmt::Write>(&self, f: &mut fmt::Formatter<W>) -> fmt::Result {
        write_numbers(f, ", ", self.0.iter().copied())
    }
}

impl fmt::Display for Groups<'_> {
    ghost output = { λ s. Some (number_words (groups_of s.0.now)) };

    fn fmt<W: fmt::Write>(&self, f: &mut fmt::Formatter<W>) -> fmt::Result {
        write_numbers(
            f,
            ", ",
            (0..256).filter(|group| contains(self.0, *group as u8)),
        )
    }
}

#[cfg(test)]
mod tests {
    use super::{Groups, Users};
    use groups::{NO_GROUPS, insert};
    use std::fmt;
    use std::fmt::{Display, Write};
    use std::process::Abort;
    use std::test::Fail;

    // A writer that counts its calls.
    #[derive(Drop)]
    struct Calls(usize);

    impl fmt::Write for Calls {
        fn write_str(&mut self, _text: &str) -> fmt::Result {
            self.0 = self.0.saturating_add(1);
            Ok(())
        }
    }

    fn makes_calls(rt: &impl Abort, value: impl Display + Drop, count: usize) -> Result<(), Fail> {
        let mut calls = Calls(0);
        assert!(rt; write!(calls, "{value}").is_ok());
        assert_eq!(rt; calls.0, count);
        Ok(())
    }

    #[test]
    fn one_call_for_each_number_and_mark(rt: HostRuntime) -> Result<(), Fail> {
        makes_calls(&rt, Users(&[]), 0)?;
        makes_calls(&rt, Users(&[7]), 1)?;
        makes_calls(&rt, Users(&[7, 9]), 3)?;
        let mut set = NO_GROUPS;
        insert(&mut set, 3);
        makes_calls(&rt, Groups(&set), 1)
    }
}
