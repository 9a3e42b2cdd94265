// Records in plain words, a clause or a line of a record to a line of text.
#![tactic(auto)]

pub mod clause;
pub mod line;
pub mod numbers;

// A value to be written in words.
#[derive(Drop)]
pub struct InWords<'a, T>(pub &'a T);

#[cfg(test)]
mod tests {
    use super::InWords;
    use bounded::list::Bounded;
    use conjunctive::clause::{Clause, Literal};
    use groups::{GroupSet, NO_GROUPS, insert};
    use lines::line::{Line, OpenLine, UserLine};
    use std::alloc::Global;
    use std::fmt::Display;
    use std::process::Abort;
    use std::test::Fail;

    fn reads(
        rt: &impl Abort,
        heap: Global,
        value: impl Display + Drop,
        words: &str,
    ) -> Result<(), Fail> {
        let text = format!(in heap; "{value}")?;
        assert_eq!(rt; text.as_str(), words);
        Ok(())
    }

    fn set(groups: &[u8]) -> GroupSet {
        let mut set = NO_GROUPS;
        for group in groups {
            insert(&mut set, *group);
        }
        set
    }

    fn clauses(rt: &impl Abort, heap: Global) -> Result<(), Fail> {
        for (user, group, words) in [
            (Literal::Absent, Literal::Absent, "nobody"),
            (Literal::Positive(1), Literal::Absent, "user is 1"),
            (Literal::Absent, Literal::Negative(3), "not in group 3"),
            (
                Literal::Negative(1),
                Literal::Positive(3),
                "user is not 1, or in group 3",
            ),
        ] {
            reads(rt, heap, InWords(&Clause { user, group }), words)?;
        }
        Ok(())
    }

    fn lines(rt: &impl Abort, heap: Global) -> Result<(), Fail> {
        for (wanted, barred, words) in [
            (NO_GROUPS, NO_GROUPS, "any groups"),
            (NO_GROUPS, set(&[255]), "bars 255"),
            (set(&[2, 1]), set(&[3]), "wants 1, 2; bars 3"),
        ] {
            reads(rt, heap, InWords(&Line { wanted, barred }), words)?;
        }
        Ok(())
    }

    fn users(rt: &impl Abort, heap: Global) -> Result<(), Fail> {
        let wanted = set(&[1]);
        let barred = NO_GROUPS;
        let line = Line { wanted, barred };
        let user = 7;
        reads(
            rt,
            heap,
            InWords(&UserLine { user, line }),
            "user 7: wants 1",
        )?;
        let mut shut = Bounded::new(0);
        reads(
            rt,
            heap,
            InWords(&OpenLine { line, shut }),
            "any user: wants 1",
        )?;
        let _ = shut.push(4);
        let _ = shut.push(9);
        let words = "any user but 4, 9: wants 1";
        reads(rt, heap, InWords(&OpenLine { line, shut }), words)
    }

    #[test]
    fn clauses_and_lines(rt: HostRuntime) -> Result<(), Fail> {
        clauses(&rt, rt.alloc())?;
        lines(&rt, rt.alloc())?;
        users(&rt, rt.alloc())
    }
}
