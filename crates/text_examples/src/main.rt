//! Worked examples of lines, values, trees, days, rules and zones. Each line of a subject's table names a call and gives its input; the
//! case's name and what the call answers are printed. Then zones are held against the rows that another program made. `rt ci` compares
//! what is printed with the file `stdout`, whose lines come from the RFCs, by hand or from another program.
//!
//! With the argument `seeks` the cases of rules are read from standard input instead, to be timed (`make bench`).
#![tactic(auto)]

mod days;
mod doors;
mod known_zones;
mod lines;
mod rules;
mod subject;
mod trees;
mod values;
mod zones;

use example_cases::Case;
use std::env::{self, Env};
use std::fs;
use std::io::{self, Read};
use subject::Subject;

fn main(rt: HostRuntime) -> io::Result<()> {
    if is_asked_for_seeks(&rt)? {
        let mut table = String::new(rt.alloc());
        rt.stdin().read_to_string(&mut table)?;
        return print_cases(&rt, Subject::Rules, table.as_str());
    }
    for subject in Subject::ALL {
        let table = fs::read_to_string(&rt, subject.file())?;
        print_cases(&rt, subject, table.as_str())?;
    }
    known_zones::print_table(&rt)?;
    doors::print_table(&rt)
}

fn is_asked_for_seeks<R: Env + AllocGlobal>(rt: &R) -> io::Result<bool> {
    match env::args(rt)?.nth(1) {
        Some(word) => Ok(word.as_str() == "seeks"),
        None => Ok(false),
    }
}

fn print_cases<R: Print + AllocGlobal>(rt: &R, subject: Subject, table: &str) -> io::Result<()> {
    for line in table.lines() {
        if let Some(case) = Case::of(line) {
            subject.print(rt, case)?;
        }
    }
    Ok(())
}
