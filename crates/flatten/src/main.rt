// Flattens the path whose directories stand on standard input, and answers for each subject that asks.
#![tactic(auto)]

ghost use Rattle.std.specs.Prelude.{◌≡◌, ◌<◌, length, IfOk, OnOk, IfSome, IsNone, vec_items};
ghost use Rattle.std.specs.Io.{StopsAt};
ghost use Rattle.std.specs.Io.BufRead.{take_through, strip_last, DropsThrough};
ghost use Rattle.std.specs.Io.KnownBytes.{IsAtEnd};

mod job;
mod records;
mod report;

use anyhow::bail;
use job::Job;
use records::Records;
use report::{print_answer, print_records};
use rights::subject::Subject;
use std::alloc::Global;
use std::io::{self, BufRead, BufReader};
use std::iter::from_fn;

// The next line of the input, with the newline that ends it.
fn next_line<R: BufRead>(input: &mut R, heap: Global) -> Option<io::Result<Vec<u8>>>
    ensures newline { IfSome result (λ read. IfOk read (λ line. (0 < length (vec_items line)) × StopsAt (vec_items line) 10)) }
    ensures bytes { IfSome result (λ read. IfOk read (λ line. IfSome (R.remaining input.old) (λ text. vec_items line ≡ take_through 10 text))) }
    ensures rest { IfSome result (λ read. OnOk read (DropsThrough (R.remaining input.old) (R.remaining input.new) 10)) }
    ensures end { IsNone result → IsAtEnd (R.remaining input.old) }
{
    let mut line = Vec::new(heap);
    match input.read_until(b'\n', &mut line) {
        Ok(0) => None,
        Ok(_) => Some(Ok(line)),
        Err(error) => Some(Err(error)),
    }
}

// A line without its newline. With the library's `split` it would be gone before a clause here could speak of it.
fn trimmed(line: &[u8]) -> &[u8]
    ensures { result.now ≡ strip_last 10 line.now }
{
    match line {
        [text @ .., b'\n'] => text,
        _ => line,
    }
}

fn main(rt: HostRuntime) -> anyhow::Result<()> {
    let mut input = BufReader::new(rt.alloc(), rt.stdin())?;
    let mut job = Job::new();
    let mut records: Option<Records> = None;
    let lines = from_fn(|| next_line(&mut input, rt.alloc()));
    for (number, line) in (1u64..).zip(lines) {
        let read = job.read(trimmed(line?.as_slice()));
        if job.is_over() && records.is_none() {
            records = Some(print_records(&rt, job.path())?);
        }
        match (read, &records) {
            (Ok(Some(asker)), Some(records)) => {
                let admitted = records.admits(&Subject::from(&asker));
                print_answer(&rt, admitted)?
            }
            (Ok(_), _) => {}
            (Err(wrong), _) => {
                eprintln!(rt; "line {number}: {wrong}")?;
                bail!("the input is not an inquiry");
            }
        }
    }
    if records.is_none() {
        print_records(&rt, job.path())?;
    }
    Ok(())
}
