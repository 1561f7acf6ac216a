//! Worked examples of messages, calendars, certificates, residues, the order of parts, streams, events and organisers, in five tables. Each
//! line of a table names a call and gives its input, often as names of files. What is printed of each case is compared by `rt ci` with the file
//! `stdout`, whose lines come from the RFCs, by hand or from another program.
#![tactic(auto)]

mod again;
mod calendar_files;
mod calendars;
mod called;
mod certificates;
mod counting;
mod event_files;
mod message_files;
mod messages;
mod names;
mod objects;
mod organisers;
mod parts;
mod series_files;
mod streams;
mod written;

use example_cases::Case;
use example_cases::answers::print_answer;
use std::rt::Files;
use std::{fs, io};

fn main(rt: HostRuntime) -> io::Result<()> {
    print_answers(&rt, "messages.txt")?;
    // by hand, and by tests/certificate_by_dateutil.py
    print_answers(&rt, "residues.txt")?;
    // compared with tests/lib/calendars.py by tests/expand_by_dateutil.py
    print_answers(&rt, "events.txt")?;
    // compared by tests/calendars_by_icalendar.py
    print_answers(&rt, "calendars.txt")?;
    // made by tests/organisers_by_model.py
    print_answers(&rt, "organisers.txt")
}

fn print_answers<R: Files + Print + AllocGlobal>(rt: &R, table: &str) -> io::Result<()> {
    let table = fs::read_to_string(rt, table)?;
    for line in table.lines() {
        if let Some(case) = Case::of(line) {
            print_answer(rt, case, messages::answer(rt, case))?;
        }
    }
    Ok(())
}
