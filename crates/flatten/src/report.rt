// What is printed: the two records of a path, and an answer for each subject.
ghost use Rattle.std.specs.Prelude.{◌≡◌, IfOk, Ok};
ghost use Rattle.flatten.specs.Joined.{records_of, Exact};

use crate::records::{Records, flattened};
use conjunctive::record::Conjunctive;
use disjunctive::record::Disjunctive;
use rights::directory::Directory;
use std::io;
use wording::InWords;

// One clause to a line.
fn print_clauses(rt: &HostRuntime, record: &Conjunctive) -> io::Result<()> {
    let clauses = record.clauses.list.as_slice();
    println!(rt; "conjunctive record, each clause must hold:")?;
    for clause in clauses {
        println!(rt; "  {}", InWords(clause))?;
    }
    if clauses.is_empty() {
        println!(rt; "  no clause, so everyone is admitted")?;
    }
    Ok(())
}

// One line of the record to a line.
fn print_lines(rt: &HostRuntime, record: &Disjunctive) -> io::Result<()> {
    let lines = record.lines.table.as_slice();
    println!(rt; "disjunctive record, one line must admit:")?;
    for line in lines {
        println!(rt; "  {}", InWords(line))?;
    }
    match &record.others {
        Some(others) => println!(rt; "  {}", InWords(others))?,
        None if lines.is_empty() => println!(rt; "  no line, so nobody is admitted")?,
        None => {}
    }
    Ok(())
}

// Prints the records of a path, and hands them on.
pub fn print_records(rt: &HostRuntime, path: &[Directory]) -> anyhow::Result<Records>
    ensures records { IfOk result (λ rs. Ok rs ≡ records_of path.now) }
    ensures exact { IfOk result (λ rs. Exact rs path.now) }
{
    let records = flattened(path)?;
    print_clauses(rt, &records.conjunctive)?;
    print_lines(rt, &records.disjunctive)?;
    Ok(records)
}

pub fn print_answer(rt: &HostRuntime, admitted: bool) -> io::Result<()> {
    if admitted {
        println!(rt; "admitted")
    } else {
        println!(rt; "shut out")
    }
}
