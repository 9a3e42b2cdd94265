// What the lines of an inquiry come to: a path, and after it the subjects that ask.
ghost use Rattle.std.specs.Prelude.{◌≡◌, false, []};
ghost use Rattle.inquiry.specs.Lines.{line_of};
ghost use Rattle.flatten.specs.declared.job.Wrong.TheVariants as wrong;
ghost use Rattle.flatten.specs.Jobs.{path_of, ended_if_wrong, Entered, Taken};

use bounded::full::Full;
use bounded::list::Bounded;
use inquiry::{Asker, BadLine, Description, Line, read_line};
use rights::directory::Directory;
use rights::execute::Execute;
use rights::form::TooDeep;
use std::error::Error;
use std::fmt;

// What is wrong with a line.
#[derive(Clone, Copy, PartialEq, Eq, Debug)]
pub enum Wrong {
    Line(BadLine),
    TooDeep(TooDeep),
    PathEnded,
}

impl From<BadLine> for Wrong {
    ghost from_gives = { λ bad w. w ≡ wrong.Line bad };

    fn from(bad: BadLine) -> Wrong {
        Wrong::Line(bad)
    }
}

// The list of directories is full.
impl From<Full> for Wrong {
    ghost from_gives = { λ _ w. w ≡ wrong.TooDeep (record {}) };

    fn from(_full: Full) -> Wrong {
        Wrong::TooDeep(TooDeep)
    }
}

impl fmt::Display for Wrong {
    fn fmt<W: fmt::Write>(&self, f: &mut fmt::Formatter<W>) -> fmt::Result {
        match self {
            Wrong::Line(bad) => write!(f, "{bad}"),
            Wrong::TooDeep(deep) => write!(f, "{deep}"),
            Wrong::PathEnded => f.write_str("a directory after the first subject"),
        }
    }
}

impl Error for Wrong {}

const NO_EXECUTE: Execute = Execute {
    owner: false,
    group: false,
    others: false,
};

// The path so far, and whether it has ended: at the first subject, or at a line that is wrong.
// It is read after its end as well, so the flag stands beside it.
#[derive(Clone, Copy)]
pub struct Job {
    path: Bounded<Directory, 16>,
    ended: bool,
}

impl Job {
    pub fn new() -> Job
        ensures path { path_of result ≡ [] }
        ensures ended { result.ended ≡ false }
    {
        let unused = Directory {
            owner: 0,
            group: 0,
            execute: NO_EXECUTE,
        };
        Job {
            path: Bounded::new(unused),
            ended: false,
        }
    }

    pub fn path(&self) -> &[Directory]
        ensures { result.now ≡ path_of self.now }
    {
        self.path.as_slice()
    }

    // Whether the path has ended, with something to be told of it.
    pub fn is_over(&self) -> bool
        ensures { result ≡ self.now.ended }
    {
        self.ended
    }

    // Takes one line in: a directory goes to the end of the path, a subject is handed on.
    // A wrong line ends a path that has begun.
    pub fn read(&mut self, text: &[u8]) -> Result<Option<Asker>, Wrong>
        ensures { Taken (line_of text.now) self.old result self.new }
    {
        let taken = self.take(text);
        if taken.is_err() {
            self.ended |= !self.path().is_empty();
        }
        taken
    }

    // Takes one line in; where the line is wrong, the path stays as it was.
    fn take(&mut self, text: &[u8]) -> Result<Option<Asker>, Wrong>
        ensures { Taken (line_of text.now) self.old result (ended_if_wrong result self.new) }
    {
        match read_line(text)? {
            Line::Directory(description) => self.enter(description),
            Line::Subject(asker) => {
                self.ended = true;
                Ok(Some(asker))
            }
        }
    }

    // A directory goes to the end of a path that has not ended.
    fn enter(&mut self, description: Description) -> Result<Option<Asker>, Wrong>
        ensures { Entered description self.old result (ended_if_wrong result self.new) }
    {
        if self.ended {
            return Err(Wrong::PathEnded);
        }
        self.path.push(description.into())?;
        Ok(None)
    }
}

#[cfg(test)]
mod tests {
    use super::*;
    use std::test::Fail;

    // What became of a line, in a word.
    fn outcome(read: Result<Option<Asker>, Wrong>) -> &'static str {
        match read {
            Ok(None) => "directory",
            Ok(Some(_)) => "subject",
            Err(Wrong::Line(_)) => "bad line",
            Err(Wrong::TooDeep(_)) => "too deep",
            Err(Wrong::PathEnded) => "path ended",
        }
    }

    #[test]
    fn subjects_end_the_path(rt: HostRuntime) -> Result<(), Fail> {
        let mut job = Job::new();
        let lines: [(&[u8], &str); 5] = [
            (b"who x", "bad line"),
            (b"7 9 1710", "directory"),
            (b"who 3", "subject"),
            (b"0 0 755", "path ended"),
            (b"who 3 9", "subject"),
        ];
        for (text, expected) in lines {
            assert_eq!(rt; outcome(job.read(text)), expected);
        }
        let [directory] = job.path() else {
            return Err(Fail::new("not one directory"));
        };
        let execute = directory.execute;
        assert!(rt; directory.owner == 7 && directory.group == 9);
        assert!(rt; execute.owner && execute.group && !execute.others);
        Ok(())
    }

    #[test]
    fn seventeenth_directory(rt: HostRuntime) {
        let mut job = Job::new();
        for number in 1..18 {
            let expected = if number > 16 { "too deep" } else { "directory" };
            assert_eq!(rt; outcome(job.read(b"0 0 755")), expected);
        }
        assert_eq!(rt; job.path().len(), 16);
    }
}
