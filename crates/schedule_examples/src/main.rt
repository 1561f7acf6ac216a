//! Worked examples of schedules: organisers store meetings, and what was sent is delivered to any address, in any order, again or not at all. Each line of
//! a table names a case and has its steps and questions (`scene`): `schedules.txt` was made by hand, `random.txt` by tests/schedules_by_model.py. What is
//! printed of each case is compared by `rt ci` with the file `stdout`, whose lines were made beside the tables.
//!
//! A table that is named as an argument takes the place of both: thousands of random schedules, or a long one (`make bench`).
#![tactic(auto)]

mod names;
mod questions;
mod scene;

use example_cases::answers::print_answer;
use example_cases::{Answers, Case, NoAnswer};
use scene::Scene;
use std::rt::Files;
use std::{env, fs, io};

fn main(rt: HostRuntime) -> io::Result<()> {
    if let Some(table) = env::args(&rt)?.nth(1) {
        return print_answers(&rt, table.as_str());
    }
    print_answers(&rt, "schedules.txt")?;
    print_answers(&rt, "random.txt")
}

fn print_answers<R: Files + Print + AllocGlobal>(rt: &R, table: &str) -> io::Result<()> {
    let table = fs::read_to_string(rt, table)?;
    for line in table.lines() {
        if let Some(case) = Case::of(line) {
            print_answer(rt, case, answer(rt, case))?;
        }
    }
    Ok(())
}

/// What the questions of a case answer.
fn answer<R: Files + AllocGlobal>(rt: &R, case: Case<'_>) -> Result<String, NoAnswer> {
    let alloc = rt.alloc();
    let words = case.columns_from(alloc, 1)?;
    let mut answers = Answers::new(alloc);
    let mut scene = Scene::new(alloc)?;
    for word in &words {
        scene.take(rt, word, &mut answers)?;
    }
    Ok(answers.finish())
}
