//! An inbox, an outbox and a configuration, and the steps that a case takes with them:
//!
//! - `config TEXT`: the configuration; `in NAME FILES`, `out NAME FILES`: the folder holds the octets of these files under a name; `unsynced NAME FILES`:
//!   the outbox does, and a stop may take the name away;
//! - `fail-in K`, `fail-out K`: the K-th call of the folder fails; `half-out K`: it is done, and fails then; `stop-in K`, `stop-out K`: the machine
//!   stops at it; `failed-always`: the outbox is empty and has failed as often as a count goes;
//! - `run`: what comes of a run; `runs`: how many files one finds, or the next where it finds no memory; `command`: the status of the command and
//!   what it says; `compare`: what a comparison finds;
//!   `compare-command`: the status of its command and what it says; `has NAME FILES`: whether the outbox holds these octets there; `names`: its
//!   names; `calls`: its calls so far;
//!   `restart kept FILES`, `restart lost FILES`: the machine starts again, names that weren't synced are there or not, and what wasn't synced has
//!   these octets.

use crate::words::call_word;
use example_cases::answers::{append, equality, none};
use example_cases::files::read_all;
use example_cases::spelled::octets_of;
use example_cases::words::count;
use example_cases::{Answers, NoAnswer};
use sched_box::{BoxFault, BoxReport, Config, compare_box, run_box};
use sched_cli::{run_compare, run_folders};
use sched_devices::{Folder, FolderFault, MemoryFolder};
use std::alloc::Global;
use std::rt::Files;

/// The folders and the configuration of a case.
#[derive(Drop)]
pub struct Scene {
    alloc: Global,
    config: Vec<u8>,
    pub inbox: MemoryFolder,
    pub outbox: MemoryFolder,
}

impl Scene {
    /// Two empty folders, and no configuration yet.
    pub fn new(alloc: Global) -> Scene {
        Scene {
            alloc,
            config: Vec::new(alloc),
            inbox: MemoryFolder::new(alloc),
            outbox: MemoryFolder::new(alloc),
        }
    }

    /// Takes a step, and adds what it answers.
    pub fn take<R: Files + AllocGlobal>(
        &mut self,
        rt: &R,
        step: &str,
        answers: &mut Answers,
    ) -> Result<(), NoAnswer> {
        let (word, rest) = step.split_once(' ').unwrap_or((step, ""));
        match word {
            "run" => answers.add(self.run_text()?.as_str())?,
            "runs" => answers.add(self.runs_text()?.as_str())?,
            "command" => answers.add(self.command_text()?.as_str())?,
            "compare" => answers.add(self.compare_text()?.as_str())?,
            "compare-command" => answers.add(self.compare_command_text()?.as_str())?,
            "names" => answers.add(self.names()?.as_str())?,
            "calls" => answers.add(self.calls()?.as_str())?,
            "has" => answers.add(self.has(rt, rest)?)?,
            _ => self.prepare(rt, word, rest)?,
        }
        Ok(())
    }

    /// A step that answers nothing.
    fn prepare<R: Files + AllocGlobal>(
        &mut self,
        rt: &R,
        word: &str,
        rest: &str,
    ) -> Result<(), NoAnswer> {
        match word {
            "config" => self.config = octets_of(self.alloc, rest)?,
            "in" => add(rt, &mut self.inbox, rest, true)?,
            "out" => add(rt, &mut self.outbox, rest, true)?,
            "unsynced" => add(rt, &mut self.outbox, rest, false)?,
            "fail-in" => self.inbox.fail_at(count(rest)? as u64),
            "fail-out" => self.outbox.fail_at(count(rest)? as u64),
            "half-out" => self.outbox.fail_after(count(rest)? as u64),
            "stop-in" => self.inbox.stop_at(count(rest)? as u64),
            "stop-out" => self.outbox.stop_at(count(rest)? as u64),
            "failed-always" => self.outbox = MemoryFolder::with_failures(self.alloc, u64::MAX),
            "restart" => self.restart(rt, rest)?,
            _ => return Err(NoAnswer::Unreadable),
        }
        Ok(())
    }

    /// A run of the box.
    pub fn run(&mut self) -> Result<Result<BoxReport, BoxFault>, NoAnswer> {
        let config = Config::read(self.alloc, self.config.as_slice())?;
        Ok(run_box(self.alloc, &mut self.inbox, &mut self.outbox, &config))
    }

    /// What comes of a run, in words.
    fn run_text(&mut self) -> Result<String, NoAnswer> {
        let alloc = self.alloc;
        match self.run()? {
            Ok(report) => Ok(format!(in alloc;
                "{} files, {} written",
                report.files, report.written
            )?),
            Err(BoxFault::Differs(name)) => Ok(format!(in alloc; "{name} differs")?),
            Err(BoxFault::Device) => Ok(String::from_str(alloc, "device")?),
            Err(BoxFault::Memory) => Err(NoAnswer::Memory),
        }
    }

    /// How many files a run finds, or the next one where it finds no memory; and how many runs there were.
    fn runs_text(&mut self) -> Result<String, NoAnswer> {
        let alloc = self.alloc;
        let first = self.run()?;
        let (last, runs) = match first {
            Err(BoxFault::Memory) => (self.run()?, 2u32),
            ended => (ended, 1),
        };
        let report = last.map_err(|_| NoAnswer::Unreadable)?;
        Ok(format!(in alloc; "{} files, {runs} runs", report.files)?)
    }

    /// The status of the command, and what it says.
    fn command_text(&mut self) -> Result<String, NoAnswer> {
        let alloc = self.alloc;
        let mut errors = Vec::new(alloc);
        let status = run_folders(
            alloc,
            self.config.as_slice(),
            &mut self.inbox,
            &mut self.outbox,
            &mut errors,
        );
        said_text(alloc, status, errors.as_slice())
    }

    /// What a comparison finds, in words.
    fn compare_text(&mut self) -> Result<String, NoAnswer> {
        let alloc = self.alloc;
        let config = Config::read(alloc, self.config.as_slice())?;
        match compare_box(alloc, &mut self.inbox, &mut self.outbox, &config) {
            Ok(found) => {
                let mut text = format!(in alloc;
                    "{} files, {} missing",
                    found.files, found.missing
                )?;
                for name in &found.differing {
                    append(&mut text, ", differs ", name.as_str())?;
                }
                Ok(text)
            }
            Err(BoxFault::Device) => Ok(String::from_str(alloc, "device")?),
            Err(BoxFault::Differs(_)) => Err(NoAnswer::Unreadable),
            Err(BoxFault::Memory) => Err(NoAnswer::Memory),
        }
    }

    /// The status of the command that compares alone, and what it says.
    fn compare_command_text(&mut self) -> Result<String, NoAnswer> {
        let alloc = self.alloc;
        let mut errors = Vec::new(alloc);
        let status = run_compare(
            alloc,
            self.config.as_slice(),
            &mut self.inbox,
            &mut self.outbox,
            &mut errors,
        );
        said_text(alloc, status, errors.as_slice())
    }

    /// The names of the outbox, in order.
    pub fn listed(&mut self) -> Result<Vec<String>, NoAnswer> {
        let mut names = self.outbox.names(self.alloc).map_err(no_answer)?;
        names.sort()?;
        Ok(names)
    }

    /// The names of the outbox, in a line.
    fn names(&mut self) -> Result<String, NoAnswer> {
        let mut list = String::new(self.alloc);
        for name in &self.listed()? {
            append(&mut list, " ", name.as_str())?;
        }
        if list.is_empty() {
            return Ok(none(self.alloc)?);
        }
        Ok(list)
    }

    /// The calls of the outbox so far, in order.
    fn calls(&self) -> Result<String, NoAnswer> {
        let mut list = String::new(self.alloc);
        for call in self.outbox.calls() {
            append(&mut list, " ", call_word(call))?;
        }
        Ok(list)
    }

    /// Whether the outbox holds the octets of these files under a name.
    fn has<R: Files + AllocGlobal>(&self, rt: &R, words: &str) -> Result<&'static str, NoAnswer> {
        let (name, files) = words.split_once(' ').unwrap_or((words, ""));
        let octets = read_all(rt, files)?;
        match self.outbox.file(name) {
            Some(held) => Ok(equality(held == octets.as_slice())),
            None => Ok("none"),
        }
    }

    /// Starts the machine again.
    pub fn restart<R: Files + AllocGlobal>(&mut self, rt: &R, words: &str) -> Result<(), NoAnswer> {
        let (how, files) = words.split_once(' ').unwrap_or((words, ""));
        let torn = read_all(rt, files)?;
        self.inbox = self.inbox.restart(false, &[])?;
        self.outbox = self.outbox.restart(how == "lost", torn.as_slice())?;
        Ok(())
    }
}

/// A status, and the lines that were said, one after another.
fn said_text(alloc: Global, status: u8, errors: &[u8]) -> Result<String, NoAnswer> {
    let said = String::from_utf8_lossy(alloc, errors)?;
    let mut text = format!(in alloc; "status {status}")?;
    for line in said.lines() {
        append(&mut text, ", ", line)?;
    }
    Ok(text)
}

/// A folder holds the octets of files under a name.
fn add<R: Files + AllocGlobal>(
    rt: &R,
    folder: &mut MemoryFolder,
    words: &str,
    synced: bool,
) -> Result<(), NoAnswer> {
    let (name, files) = words.split_once(' ').unwrap_or((words, ""));
    let octets = read_all(rt, files)?;
    folder.add(name, octets.as_slice(), synced)?;
    Ok(())
}

fn no_answer(fault: FolderFault) -> NoAnswer {
    match fault {
        FolderFault::Memory => NoAnswer::Memory,
        _ => NoAnswer::Unreadable,
    }
}
