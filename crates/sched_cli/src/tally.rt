//! `serve --report`: counts the REFUSED lines as they are written, by their numbers.

ghost use Rattle.std.specs.Prelude.{◌≡◌, ◌⊎◌, ◌++◌, ℕ, List, Some, None, true, OnOk};
ghost use Rattle.sched_box.specs.Serving.{TellsStream};
ghost use Rattle.sched_box.specs.declared.serving.ServeReport.{ServeReport as SaidReport};
ghost use Rattle.sched_devices.specs.declared.output.WriteFault.TheVariants as write;
ghost use Rattle.sched_cli.specs.Commands.{TellsDevice};
ghost use Rattle.sched_cli.specs.Logging.{LogTells};
ghost use Rattle.sched_cli.specs.Reporting.{IsReportLine, ReportsWith, SaysReport, objects_word};

use crate::log::Log;
use crate::status::{DEVICE, DONE, MEMORY, report_memory, report_stream, report_write};
use sched_box::{Input, Output, ServeReport, WriteFault, serve_stream_telling};
use std::alloc::Global;
use std::io::{self, Write};

/// A writer that counts the REFUSED lines that are written to another, by the numbers of their refusals. Each call is given whole lines.
#[derive(Drop)]
pub struct Tally<W: Output> {
    to: W,
    counts: [u64; 256],
}

impl<W: Output> Tally<W> {
    /// A writer to another one, with nothing counted yet.
    pub fn new(to: W) -> Tally<W>
        ensures { result.to ≡ to }
    {
        Tally {
            to,
            counts: [0; 256],
        }
    }
}

impl<W: Output> Output for Tally<W> {
    ghost contents = { λ t. W.contents t.to };

    ghost has_failed = { λ t. W.has_failed t.to };

    ghost may_lose = { λ t. W.may_lose t.to };

    fn put(&mut self, octets: &[u8]) -> Result<(), WriteFault> {
        self.to.put(octets)?;
        count_refusals(&mut self.counts, octets);
        Ok(())
    }
}

/// Counts the REFUSED lines of some octets.
fn count_refusals(counts: &mut [u64; 256], octets: &[u8]) {
    for line in octets.split(|octet| *octet == b'\n') {
        if let Some(number) = refusal_of(line) {
            let count = &mut counts[number as usize];
            *count = count.saturating_add(1);
        }
    }
}

/// The number of a line `REFUSED;OBJECT=k:n`; None of another line.
fn refusal_of(line: &[u8]) -> Option<u8> {
    let line = line.strip_suffix(b"\r").unwrap_or(line);
    let rest = str::from_utf8(line.strip_prefix(b"REFUSED;OBJECT=")?).ok()?;
    let (_, number) = rest.split_once(':')?;
    number.parse::<u8>().ok()
}

/// `serve --report`: serves a stream as `serve` does, says of each object that came to nothing what became of it, and at its end how many objects
/// it had, how many of them were refused, and with which numbers. Of a stream that ends early the fault is said in place of these counts.
/// Gives 4 where a line wasn't written whole, and 5 where memory for one is refused; the answers were written then.
pub fn run_serve_report<R: Input, W: Output, L: Output, E: Output>(
    alloc: Global,
    reader: &mut R,
    writer: &mut Tally<W>,
    log: &mut Log<L>,
    errors: &mut E,
) -> u8
    ensures told { TellsDevice result (R.has_failed reader.old) (R.has_failed reader.new) (W.has_failed writer.old.to) (W.has_failed writer.new.to) }
    ensures reports { ReportsWith result (record { input = R.remaining reader.old; left = R.remaining reader.new; output = W.contents writer.old.to; written = W.contents writer.new.to })
        (E.contents errors.old) (E.contents errors.new) (E.may_lose errors.new) }
    ensures device { result ≡ 4 → (((R.has_failed reader.new ≡ true) ⊎ (W.has_failed writer.new.to ≡ true)) ⊎ ((log.new.fault ≡ Some write.Failed) ⊎ (E.has_failed errors.new ≡ true))) }
    ensures whole { result ≡ 0 → log.new.fault ≡ None }
    ensures tells { result ≡ 0 → (report : SaidReport) × TellsStream (λ old k _ fate new. LogTells (record { file = old.file.items; is_quiet = old.is_quiet; fault = old.fault; written = L.contents old.to; has_failed = L.has_failed old.to }) k fate
        (record { file = new.file.items; is_quiet = new.is_quiet; fault = new.fault; written = L.contents new.to; has_failed = L.has_failed new.to }))
        log.old log.new (record { input = R.remaining reader.old; left = R.remaining reader.new; output = W.contents writer.old.to; written = W.contents writer.new.to }) report }
{
    match serve_stream_telling(alloc, reader, writer, log) {
        Ok(report) => end_report(alloc, log.fault(), errors, report, &writer.counts),
        Err(fault) => report_stream(errors, fault),
    }
}

/// Says what is to be said at the end of a stream that was served: the line of counts, or that a line before it wasn't written whole.
fn end_report<E: Output>(
    alloc: Global,
    fault: Option<WriteFault>,
    errors: &mut E,
    report: ServeReport,
    counts: &[u64; 256],
) -> u8
    ensures says { SaysReport report result (E.contents errors.old) (E.contents errors.new) (E.may_lose errors.new) }
    ensures whole { result ≡ 0 → fault ≡ None }
    ensures device { result ≡ 4 → (fault ≡ Some write.Failed) ⊎ (E.has_failed errors.new ≡ true) }
{
    match fault {
        None => say_report(alloc, errors, report, counts),
        Some(fault) => report_write(errors, fault),
    }
}

/// Says the line of a report, and gives 0; 4 where it isn't written whole, 5 where memory for it is refused.
fn say_report<E: Output>(
    alloc: Global,
    errors: &mut E,
    report: ServeReport,
    counts: &[u64; 256],
) -> u8
    ensures says { SaysReport report result (E.contents errors.old) (E.contents errors.new) (E.may_lose errors.new) }
    ensures device { result ≡ 4 → E.has_failed errors.new ≡ true }
{
    let mut line = Vec::new(alloc);
    let Ok(()) = append_report(&mut line, report, counts) else {
        return report_memory(errors);
    };
    match errors.put(line.as_slice()) {
        Ok(()) => DONE,
        Err(WriteFault::Failed) => DEVICE,
        Err(WriteFault::Memory) => MEMORY,
    }
}

/// `roombox: 10 objects, 3 refused (43: 2, 61: 1)`, as a line.
fn append_report(line: &mut Vec<u8>, report: ServeReport, counts: &[u64; 256]) -> io::Result<()>
    ensures { OnOk result ((text : List ℕ) × IsReportLine report text × (line.new.items ≡ line.old.items ++ text)) }
{
    let word = objects_word(report.objects);
    write!(
        line,
        "roombox: {}{word}{} refused",
        report.objects, report.refused
    )?;
    append_counts(line, counts)?;
    writeln!(line)
}

/// What comes after this many objects.
fn objects_word(count: u64) -> &'static str
    ensures { result.now ≡ objects_word count }
{
    if count == 1 {
        " object, "
    } else {
        " objects, "
    }
}

/// ` (43: 2, 61: 1)`; nothing where nothing was refused.
fn append_counts(line: &mut Vec<u8>, counts: &[u64; 256]) -> io::Result<()>
    ensures { OnOk result ((text : List ℕ) × (line.new.items ≡ line.old.items ++ text)) }
{
    let mut some = false;
    for (number, count) in counts.iter().enumerate() {
        some = append_count(line, some, number, *count)?;
    }
    if some {
        write!(line, ")")?;
    }
    Ok(())
}

/// `43: 2`, with what parts it from the number before it, or begins the list; nothing where the count is 0. Gives whether the list has begun.
fn append_count(line: &mut Vec<u8>, some: bool, number: usize, count: u64) -> io::Result<bool>
    ensures { OnOk result ((text : List ℕ) × (line.new.items ≡ line.old.items ++ text)) }
{
    if count == 0 {
        return Ok(some);
    }
    let before = if some { ", " } else { " (" };
    write!(line, "{before}{number}: {count}")?;
    Ok(true)
}
