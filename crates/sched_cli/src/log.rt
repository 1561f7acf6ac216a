//! `--report`: says of each object that came to nothing what became of it, and of each file of an inbox that is left alone though it ends as a
//! message does, in a line of its own.

ghost use Rattle.std.specs.Prelude.{◌≡◌, ◌++◌, ℕ, List, [], None, decimal, codes, false, IfOk, OnOk};
ghost use Rattle.sched_box.specs.Journal.{fate_said};
ghost use Rattle.sched_cli.specs.Logging.{IsObjectLine, LogBegins, LogPasses, LogTells, alone_line, fate_words, first_fault, header_text, is_due, is_taken, place_words, shown, value_text};

use crate::header::Header;
use crate::shown::{append_cut, append_shown};
use itoa::Buffer;
use sched_box::{Fate, Journal, Output, WriteFault};
use std::alloc::{AllocError, Global};

/// A writer of lines about objects that came to nothing, and about files that are left alone.
#[derive(Drop)]
pub struct Log<L: Output> {
    alloc: Global,
    to: L,
    /// What stands before the number of an object: nothing, or the name of its file and a blank.
    file: Vec<u8>,
    /// Of these objects nothing is said.
    is_quiet: bool,
    /// Why a line wasn't written whole, if one wasn't: the first.
    fault: Option<WriteFault>,
}

impl<L: Output> Log<L> {
    /// A log to a writer, in which nothing is said yet.
    pub fn new(alloc: Global, to: L) -> Log<L>
        ensures to { result.to ≡ to }
        ensures none { result.fault ≡ None }
        ensures loud { result.is_quiet ≡ false }
        ensures file { result.file.items ≡ [] }
    {
        Log {
            alloc,
            to,
            file: Vec::new(alloc),
            is_quiet: false,
            fault: None,
        }
    }

    /// Why a line wasn't written whole, if one wasn't: the first such fault.
    pub fn fault(&self) -> Option<WriteFault>
        ensures { result ≡ self.now.fault }
    {
        self.fault
    }
}

impl<L: Output> Journal for Log<L> {
    ghost passes = { λ old name new. LogPasses (record { file = old.file.items; is_quiet = old.is_quiet; fault = old.fault; written = L.contents old.to; has_failed = L.has_failed old.to }) name
        (record { file = new.file.items; is_quiet = new.is_quiet; fault = new.fault; written = L.contents new.to; has_failed = L.has_failed new.to }) };

    ghost begins = { λ old name is_new new. LogBegins (record { file = old.file.items; is_quiet = old.is_quiet; fault = old.fault; written = L.contents old.to; has_failed = L.has_failed old.to }) name is_new
        (record { file = new.file.items; is_quiet = new.is_quiet; fault = new.fault; written = L.contents new.to; has_failed = L.has_failed new.to }) };

    ghost tells = { λ old k _ fate new. LogTells (record { file = old.file.items; is_quiet = old.is_quiet; fault = old.fault; written = L.contents old.to; has_failed = L.has_failed old.to }) k fate
        (record { file = new.file.items; is_quiet = new.is_quiet; fault = new.fault; written = L.contents new.to; has_failed = L.has_failed new.to }) };

    fn pass_over(&mut self, name: &str) {
        let Ok(line) = alone_line(self.alloc, name) else {
            self.fault = first_fault(self.fault, WriteFault::Memory);
            return;
        };
        let Err(fault) = self.to.put(line.as_slice()) else {
            return;
        };
        self.fault = first_fault(self.fault, fault);
    }

    fn begin(&mut self, name: &str, is_new: bool) {
        self.is_quiet = !is_new;
        let Ok(file) = file_text(self.alloc, name) else {
            self.fault = first_fault(self.fault, WriteFault::Memory);
            return;
        };
        self.file = file;
    }

    fn tell(&mut self, number: u64, octets: &[u8], fate: Fate) {
        if !is_due(self.is_quiet, fate) {
            return;
        }
        let Ok(line) = object_line(self.alloc, self.file.as_slice(), number, octets, fate) else {
            self.fault = first_fault(self.fault, WriteFault::Memory);
            return;
        };
        let Err(fault) = self.to.put(line.as_slice()) else {
            return;
        };
        self.fault = first_fault(self.fault, fault);
    }
}

/// Of two faults the earlier one.
fn first_fault(before: Option<WriteFault>, now: WriteFault) -> Option<WriteFault>
    ensures { result ≡ first_fault before now }
{
    match before {
        Some(fault) => Some(fault),
        None => Some(now),
    }
}

/// Whether something is to be said of an object.
fn is_due(is_quiet: bool, fate: Fate) -> bool
    ensures { result ≡ is_due is_quiet (fate_said fate) }
{
    !is_quiet && !is_taken(fate)
}

fn is_taken(fate: Fate) -> bool
    ensures { result ≡ is_taken (fate_said fate) }
{
    match fate {
        Fate::Taken => true,
        Fate::Refused(_) | Fate::Unreached | Fate::Stale | Fate::Repeated | Fate::CancelsNothing =>
            false,
    }
}

/// `roombox: left alone: 0000001-20250102T000000Z.ics`, as a line.
fn alone_line(alloc: Global, name: &str) -> Result<Vec<u8>, AllocError>
    ensures { IfOk result (λ line. line.items ≡ alone_line name.now) }
{
    let mut line = Vec::new(alloc);
    line.extend_from_slice(b"roombox: left alone: ")?;
    append_shown(&mut line, name.as_bytes())?;
    line.extend_from_slice(b"\n")?;
    Ok(line)
}

/// The name of a file and a blank.
fn file_text(alloc: Global, name: &str) -> Result<Vec<u8>, AllocError>
    ensures { IfOk result (λ text. text.items ≡ shown name.now ++ codes " ") }
{
    let mut text = Vec::new(alloc);
    append_shown(&mut text, name.as_bytes())?;
    text.extend_from_slice(b" ")?;
    Ok(text)
}

/// `roombox: object 3: refused 43, REQUEST, UID plan, ORGANIZER mailto:ann@example.com`, as a line.
fn object_line(
    alloc: Global,
    file: &[u8],
    number: u64,
    octets: &[u8],
    fate: Fate,
) -> Result<Vec<u8>, AllocError>
    ensures { IfOk result (λ line. IsObjectLine file.now number (fate_said fate) line.items) }
{
    let mut line = Vec::new(alloc);
    append_place(&mut line, file, number)?;
    append_fate(&mut line, fate)?;
    append_header(alloc, &mut line, octets)?;
    line.extend_from_slice(b"\n")?;
    Ok(line)
}

/// `roombox: object 3: `
fn append_place(line: &mut Vec<u8>, file: &[u8], number: u64) -> Result<(), AllocError>
    ensures { OnOk result (line.new.items ≡ line.old.items ++ place_words file.now number) }
{
    let mut digits = Buffer::new();
    line.extend_from_slice(b"roombox: ")?;
    line.extend_from_slice(file)?;
    line.extend_from_slice(b"object ")?;
    line.extend_from_slice(digits.format(number).as_bytes())?;
    line.extend_from_slice(b": ")?;
    Ok(())
}

/// What became of it, in words.
fn append_fate(line: &mut Vec<u8>, fate: Fate) -> Result<(), AllocError>
    ensures { OnOk result (line.new.items ≡ line.old.items ++ fate_words (fate_said fate)) }
{
    match fate {
        Fate::Refused(refusal) => append_refused(line, refusal.number),
        Fate::Unreached => line.extend_from_slice(b"reached no room"),
        Fate::Stale => line.extend_from_slice(b"stale"),
        Fate::Repeated => line.extend_from_slice(b"changed nothing"),
        Fate::CancelsNothing => line.extend_from_slice(b"cancels nothing"),
        Fate::Taken => line.extend_from_slice(b"taken"),
    }
}

fn append_refused(line: &mut Vec<u8>, number: u8) -> Result<(), AllocError>
    ensures { OnOk result (line.new.items ≡ line.old.items ++ (codes "refused " ++ decimal number)) }
{
    let mut digits = Buffer::new();
    line.extend_from_slice(b"refused ")?;
    line.extend_from_slice(digits.format(number).as_bytes())?;
    Ok(())
}

/// METHOD, UID and ORGANIZER of an object, where they can be read.
fn append_header(alloc: Global, line: &mut Vec<u8>, octets: &[u8]) -> Result<(), AllocError>
    ensures { OnOk result ((method : List ℕ) × (uid : List ℕ) × (organizer : List ℕ) × (line.new.items ≡ line.old.items ++ header_text method uid organizer)) }
{
    let header = Header::of(alloc, octets)?;
    append_value(line, b", ", header.method())?;
    append_value(line, b", UID ", header.uid())?;
    append_value(line, b", ORGANIZER ", header.organizer())?;
    Ok(())
}

/// A value behind what names it, where there is one. At most 200 octets of it are shown, and `..` behind them.
fn append_value(line: &mut Vec<u8>, before: &[u8], value: &[u8]) -> Result<(), AllocError>
    ensures { OnOk result (line.new.items ≡ line.old.items ++ value_text before.now value.now) }
{
    if value.is_empty() {
        return Ok(());
    }
    line.extend_from_slice(before)?;
    append_cut(line, value)
}
