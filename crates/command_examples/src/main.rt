//! Worked examples of the commands, and of a box that runs over folders in memory, which fail or stop at one of their calls, in two tables. Each line
//! of `commands.txt` names a command, its input, and what must come out; each of `folders.txt` names a case and has its steps. What is printed is
//! compared by `rt ci` with the file `stdout`; what must come out comes from the RFCs, by hand or from another program.
#![tactic(auto)]

mod commands;
mod folders;
mod scene;
mod sweep;
mod words;

use example_cases::Case;
use example_cases::answers::print_answer;
use std::rt::Files;
use std::{fs, io};

fn main(rt: HostRuntime) -> io::Result<()> {
    print_commands(&rt)?;
    print_folders(&rt)
}

/// A case of a command has what must come out beside it, and says itself how it went.
fn print_commands<R: Files + Print + AllocGlobal>(rt: &R) -> io::Result<()> {
    let table = fs::read_to_string(rt, "commands.txt")?;
    for line in table.lines() {
        if let Some(case) = Case::of(line) {
            commands::print(rt, case)?;
        }
    }
    Ok(())
}

fn print_folders<R: Files + Print + AllocGlobal>(rt: &R) -> io::Result<()> {
    let table = fs::read_to_string(rt, "folders.txt")?;
    for line in table.lines() {
        if let Some(case) = Case::of(line) {
            print_answer(rt, case, folders::answer(rt, case))?;
        }
    }
    Ok(())
}
