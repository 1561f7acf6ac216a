//! The exit statuses of `roombox`, and what it says on standard error.

ghost use Rattle.std.specs.Prelude.{◌≡◌, ◌++◌, OnErr, OnOk, decimal};
ghost use Rattle.std.specs.Io.KnownBytes.{Appends};
ghost use Rattle.sched_cli.specs.Commands.{SaysLine, device_text, fault_status, fault_text, memory_text, read_status, read_text, refused_text, too_long_text, write_status, write_text};
ghost use Rattle.sched_cli.specs.Running.{Writes, box_status, box_text, differs_text, found_status, found_text};

use ical_lines::{Fault, Refusal};
use itoa::Buffer;
use sched_box::{BoxFault, Comparison, Output, ServeFault, StreamFault, WriteFault};

/// Done. Objects that were refused in a stream leave it.
pub const DONE: u8 = 0;
/// The checker says no.
pub const NO: u8 = 1;
/// The words of the command line aren't understood.
pub const USAGE: u8 = 2;
/// The input is refused, or too long.
pub const REFUSED: u8 = 3;
/// Reading or writing failed.
pub const DEVICE: u8 = 4;
/// The memory that was asked for was refused.
pub const MEMORY: u8 = 5;

/// Says why a stream ended early, and gives the status for it.
pub fn report_stream<E: Output>(errors: &mut E, fault: StreamFault) -> u8
    ensures status { result ≡ fault_status fault }
    ensures says { SaysLine (fault_text fault) (E.contents errors.old) (E.contents errors.new) (E.may_lose errors.new) }
{
    match fault {
        StreamFault::Refused(refusal) => report_refused(errors, refusal),
        StreamFault::Serve(ServeFault::Read) => report_device(errors),
        StreamFault::Serve(ServeFault::Write) => report_device(errors),
        StreamFault::Serve(ServeFault::TooLong) => report_too_long(errors),
        StreamFault::Serve(ServeFault::Memory) => report_memory(errors),
    }
}

/// Says why something can't be read, and gives the status for it.
pub fn report_read<E: Output>(errors: &mut E, fault: Fault) -> u8
    ensures status { result ≡ read_status fault }
    ensures says { SaysLine (read_text fault) (E.contents errors.old) (E.contents errors.new) (E.may_lose errors.new) }
{
    match fault {
        Fault::Refused(refusal) => report_refused(errors, refusal),
        Fault::Memory => report_memory(errors),
    }
}

/// Says why something wasn't written whole, and gives the status for it.
pub fn report_write<E: Output>(errors: &mut E, fault: WriteFault) -> u8
    ensures status { result ≡ write_status fault }
    ensures says { SaysLine (write_text fault) (E.contents errors.old) (E.contents errors.new) (E.may_lose errors.new) }
{
    match fault {
        WriteFault::Failed => report_device(errors),
        WriteFault::Memory => report_memory(errors),
    }
}

/// Says why a run of the box ended before its end, and gives the status for it.
pub fn report_box<E: Output>(errors: &mut E, fault: BoxFault) -> u8
    ensures status { result ≡ box_status fault }
    ensures says { SaysLine (box_text fault) (E.contents errors.old) (E.contents errors.new) (E.may_lose errors.new) }
{
    match fault {
        BoxFault::Device => report_device(errors),
        BoxFault::Differs(name) => report_differs(errors, name.as_str()),
        BoxFault::Memory => report_memory(errors),
    }
}

/// Says which file of the outbox differs from what the box answers.
fn report_differs<E: Output>(errors: &mut E, name: &str) -> u8
    ensures status { result ≡ 3 }
    ensures says { SaysLine (differs_text name.now) (E.contents errors.old) (E.contents errors.new) (E.may_lose errors.new) }
{
    let _ = say_differs(errors, name);
    REFUSED
}

fn say_differs<E: Output>(errors: &mut E, name: &str) -> Result<(), WriteFault>
    ensures { Writes (differs_text name.now) result (E.contents errors.old) (E.contents errors.new) (E.may_lose errors.new) }
{
    errors.put(b"roombox: differs ")?;
    errors.put(name.as_bytes())?;
    errors.put(b"\n")
}

/// Says what a comparison found, and gives the status for it: an answer that is missing is no fault.
pub fn report_comparison<E: Output>(errors: &mut E, found: &Comparison) -> u8
    ensures status { result ≡ found_status found.now.differing.items }
    ensures says { SaysLine (found_text found.now) (E.contents errors.old) (E.contents errors.new) (E.may_lose errors.new) }
{
    let _ = say_comparison(errors, found);
    if found.differing.is_empty() {
        DONE
    } else {
        REFUSED
    }
}

/// Says which files of the outbox differ, a line each, and then the counts.
fn say_comparison<E: Output>(errors: &mut E, found: &Comparison) -> Result<(), WriteFault>
    ensures { SaysLine (found_text found.now) (E.contents errors.old) (E.contents errors.new) (E.may_lose errors.new) }
{
    for name in &found.differing {
        say_differs(errors, name.as_str())?;
    }
    say_number(errors, b"roombox: files: ", found.files)?;
    say_number(errors, b", missing answers: ", found.missing)?;
    errors.put(b"\n")
}

/// Says some words, and then a number.
fn say_number<E: Output>(errors: &mut E, words: &[u8], number: u64) -> Result<(), WriteFault>
    ensures { Writes (words.now ++ decimal number) result (E.contents errors.old) (E.contents errors.new) (E.may_lose errors.new) }
{
    let mut digits = Buffer::new();
    errors.put(words)?;
    errors.put(digits.format(number).as_bytes())
}

/// Says that the input is refused, and with which number.
pub fn report_refused<E: Output>(errors: &mut E, refusal: Refusal) -> u8
    ensures status { result ≡ 3 }
    ensures says { SaysLine (refused_text refusal.number) (E.contents errors.old) (E.contents errors.new) (E.may_lose errors.new) }
{
    let _ = say_refused(errors, refusal.number);
    REFUSED
}

fn say_refused<E: Output>(errors: &mut E, number: u8) -> Result<(), WriteFault>
    ensures { SaysLine (refused_text number) (E.contents errors.old) (E.contents errors.new) (E.may_lose errors.new) }
{
    let mut digits = Buffer::new();
    errors.put(b"roombox: refused ")?;
    errors.put(digits.format(number).as_bytes())?;
    errors.put(b"\n")
}

/// Says that the input is too long.
pub fn report_too_long<E: Output>(errors: &mut E) -> u8
    ensures status { result ≡ 3 }
    ensures says { SaysLine too_long_text (E.contents errors.old) (E.contents errors.new) (E.may_lose errors.new) }
{
    say(errors, b"roombox: too long\n");
    REFUSED
}

/// Says that a device failed.
pub fn report_device<E: Output>(errors: &mut E) -> u8
    ensures status { result ≡ 4 }
    ensures says { SaysLine device_text (E.contents errors.old) (E.contents errors.new) (E.may_lose errors.new) }
{
    say(errors, b"roombox: device\n");
    DEVICE
}

/// Says that memory ran out.
pub fn report_memory<E: Output>(errors: &mut E) -> u8
    ensures status { result ≡ 5 }
    ensures says { SaysLine memory_text (E.contents errors.old) (E.contents errors.new) (E.may_lose errors.new) }
{
    say(errors, b"roombox: memory\n");
    MEMORY
}

/// Writes a line. Where standard error fails too, nobody is left to be told.
pub(crate) fn say<E: Output>(errors: &mut E, line: &[u8])
    ensures { SaysLine line.now (E.contents errors.old) (E.contents errors.new) (E.may_lose errors.new) }
{
    let _ = errors.put(line);
}
