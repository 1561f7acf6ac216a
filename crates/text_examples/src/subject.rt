//! What the tables are about.

use crate::{days, lines, rules, trees, values, zones};
use example_cases::Case;
use example_cases::answers::print_answer;
use std::io;

#[derive(Clone, Copy)]
pub enum Subject {
    Lines,
    Values,
    Trees,
    Days,
    Rules,
    Zones,
}

impl Subject {
    pub const ALL: [Subject; 6] = [
        Subject::Lines,
        Subject::Values,
        Subject::Trees,
        Subject::Days,
        Subject::Rules,
        Subject::Zones,
    ];

    /// The file of its table.
    pub fn file(self) -> &'static str {
        match self {
            Subject::Lines => "lines.txt",
            Subject::Values => "values.txt",
            Subject::Trees => "trees.txt",
            Subject::Days => "days.txt",
            Subject::Rules => "rules.txt",
            Subject::Zones => "zones.txt",
        }
    }

    /// Prints a case's name and its answer.
    pub fn print<R: Print + AllocGlobal>(self, rt: &R, case: Case<'_>) -> io::Result<()> {
        let alloc = rt.alloc();
        let answer = match self {
            Subject::Lines => lines::answer(alloc, case),
            Subject::Values => values::answer(alloc, case),
            Subject::Trees => trees::answer(alloc, case),
            Subject::Days => days::answer(alloc, case),
            Subject::Rules => rules::answer(alloc, case),
            Subject::Zones => zones::answer(alloc, case),
        };
        print_answer(rt, case, answer)
    }
}
