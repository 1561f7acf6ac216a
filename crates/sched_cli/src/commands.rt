//! What each command does, and the status that it ends with.

ghost use Rattle.std.specs.Prelude.{◌≡◌, ◌≤◌, ◌++◌, ◌⊎◌, ℕ, take, true, false, IfOk, IfErr, OnOk};
ghost use Rattle.std.specs.Io.KnownBytes.{Appends, Keeps};
ghost use Rattle.profile.specs.checker.Calendars.{CertificateHolds};
ghost use Rattle.ical_values.specs.Octets.{address_octets};
ghost use Rattle.sched_box.specs.Faults.{StreamKeepsButRead, StreamStopsFor};
ghost use Rattle.sched_devices.specs.Input.{ForTaken};
ghost use Rattle.sched_devices.specs.Output.{KeepsButFailed, StopsWriting};
ghost use Rattle.sched_cli.specs.Blaming.{IsCheckSaid, SaysBlamed};
ghost use Rattle.sched_cli.specs.Commands.{BlamesDevice, CutsKept, CutsVerdict, IsStatusSaid, ServesWith, WritesKept, KeepsBoth, KeepsNone, RefusesToKeep, TellsDevice, WritesVerdict, verdict_line, verdict_status, no_line};

use crate::blamed::say_blamed;
use crate::status::{DONE, NO, report_memory, report_stream, report_write};
use clash_check::{Checked, Verdict, Why, check};
use ical_values::Address;
use sched_box::{Input, Output, StreamFault, WriteFault, keep, read_preamble, serve_stream};
use std::alloc::Global;
use std::io::{self, Write};

/// Which of a room's two texts is wanted.
#[derive(Clone, Copy, PartialEq, Eq)]
pub enum KeptText {
    Calendar,
    Certificate,
}

/// `serve`: reads a preamble and objects, and writes the answers.
pub fn run_serve<R: Input, W: Output, E: Output>(
    alloc: Global,
    reader: &mut R,
    writer: &mut W,
    errors: &mut E,
) -> u8
    ensures device { BlamesDevice (R.has_failed reader.new) (W.has_failed writer.new) result }
    ensures told { TellsDevice result (R.has_failed reader.old) (R.has_failed reader.new) (W.has_failed writer.old) (W.has_failed writer.new) }
    ensures serves { ServesWith result (record { input = R.remaining reader.old; left = R.remaining reader.new; output = W.contents writer.old; written = W.contents writer.new })
        (E.contents errors.old) (E.contents errors.new) (E.may_lose errors.new) }
    ensures taken { ForTaken R.takes R.lent R.has_ended reader.old reader.new (λ input left. ServesWith result (record { input = input; left = left; output = W.contents writer.old; written = W.contents writer.new })
        (E.contents errors.old) (E.contents errors.new) (E.may_lose errors.new)) }
    ensures ended { result ≡ 0 → R.has_ended reader.new ≡ true }
{
    match serve_stream(alloc, reader, writer) {
        Ok(_) => DONE,
        Err(fault) => report_stream(errors, fault),
    }
}

/// `keep`: reads the same input, and writes what the room keeps after it.
pub fn run_keep<R: Input, W: Output, E: Output>(
    alloc: Global,
    room: &Address,
    kept: KeptText,
    reader: &mut R,
    writer: &mut W,
    errors: &mut E,
) -> u8
    ensures device { BlamesDevice (R.has_failed reader.new) (W.has_failed writer.new) result }
    ensures told { TellsDevice result (R.has_failed reader.old) (R.has_failed reader.new) (W.has_failed writer.old) (W.has_failed writer.new) }
    ensures status { (result ≡ 0) ⊎ (result ≡ 3) ⊎ (result ≡ 4) ⊎ (result ≡ 5) }
    ensures said { IsStatusSaid result (E.contents errors.old) (E.contents errors.new) (E.may_lose errors.new) }
    ensures unwritten { (result ≡ 3) ⊎ (result ≡ 5) → Keeps (W.contents writer.old) (W.contents writer.new) }
    ensures refused { result ≡ 3 → RefusesToKeep (address_octets room.now) (R.remaining reader.old) (R.remaining reader.new) (E.contents errors.old) (E.contents errors.new) (E.may_lose errors.new) }
    ensures kept { result ≡ 0 → WritesKept kept (address_octets room.now)
        (record { input = R.remaining reader.old; left = R.remaining reader.new; output = W.contents writer.old; written = W.contents writer.new }) }
    ensures cut { result ≡ 4 → Keeps (W.contents writer.old) (W.contents writer.new) ⊎ CutsKept kept (address_octets room.now)
        (record { input = R.remaining reader.old; left = R.remaining reader.new; output = W.contents writer.old; written = W.contents writer.new }) }
    ensures taken { result ≡ 0 → ForTaken R.takes R.lent R.has_ended reader.old reader.new (λ input left. WritesKept kept (address_octets room.now)
        (record { input = input; left = left; output = W.contents writer.old; written = W.contents writer.new })) }
{
    match keep_stream(alloc, room, reader) {
        Ok((calendar, certificate)) => {
            let text = match kept {
                KeptText::Calendar => calendar,
                KeptText::Certificate => certificate,
            };
            write_out(writer, errors, text.as_slice())
        }
        Err(fault) => report_stream(errors, fault),
    }
}

/// What the room keeps after a stream: its calendar and its certificate.
fn keep_stream<R: Input>(
    alloc: Global,
    room: &Address,
    reader: &mut R,
) -> Result<(Vec<u8>, Vec<u8>), StreamFault>
    ensures cause { IfErr result (StreamStopsFor (R.has_failed reader.new) false) }
    ensures mark { OnOk result (R.has_failed reader.new ≡ R.has_failed reader.old) }
    ensures told { IfErr result (StreamKeepsButRead (R.has_failed reader.old) (R.has_failed reader.new)) }
    ensures none { IfErr result (KeepsNone (R.remaining reader.old) (R.remaining reader.new) (address_octets room.now)) }
    ensures keeps { IfOk result (λ kept. KeepsBoth (R.remaining reader.old) (R.remaining reader.new) (address_octets room.now) kept.0.items kept.1.items) }
    ensures taken { IfOk result (λ kept. ForTaken R.takes R.lent R.has_ended reader.old reader.new (λ input left. KeepsBoth input left (address_octets room.now) kept.0.items kept.1.items)) }
{
    let (config, now) = read_preamble(alloc, reader)?;
    keep(alloc, &config, reader, now, room)
}

/// Writes octets, whole.
pub(crate) fn write_out<W: Output, E: Output>(writer: &mut W, errors: &mut E, octets: &[u8]) -> u8
    ensures written { result ≡ 0 → Appends (W.contents writer.old) (W.contents writer.new) octets.now }
    ensures cut { result ≡ 4 → (n : ℕ) × Appends (W.contents writer.old) (W.contents writer.new) (take n octets.now) }
    ensures unwritten { result ≡ 5 → Keeps (W.contents writer.old) (W.contents writer.new) }
    ensures device { BlamesDevice false (W.has_failed writer.new) result }
    ensures told { TellsDevice result false false (W.has_failed writer.old) (W.has_failed writer.new) }
    ensures status { (result ≡ 0) ⊎ (result ≡ 4) ⊎ (result ≡ 5) }
    ensures said { IsStatusSaid result (E.contents errors.old) (E.contents errors.new) (E.may_lose errors.new) }
{
    match writer.put(octets) {
        Ok(()) => DONE,
        Err(fault) => report_write(errors, fault),
    }
}

/// `check`: does the certificate hold for the calendar of this room? Writes `yes`, or `no` with its number, and
/// for 81 the line, for 83 the pair. Of a calendar that is refused it says which UID that is for, if it is known.
pub fn run_check<W: Output, E: Output>(
    alloc: Global,
    calendar: &[u8],
    certificate: &[u8],
    room: &Address,
    writer: &mut W,
    errors: &mut E,
) -> u8
    ensures yes { result ≡ 0 → CertificateHolds (address_octets room.now) calendar.now certificate.now }
    ensures no { result ≡ 1 → CertificateHolds (address_octets room.now) calendar.now certificate.now → ⊥ }
    ensures answers { result ≤ 1 → WritesVerdict result (address_octets room.now) calendar.now certificate.now (W.contents writer.old) (W.contents writer.new) }
    ensures cut { result ≡ 4 → CutsVerdict (address_octets room.now) calendar.now certificate.now (W.contents writer.old) (W.contents writer.new) }
    ensures unwritten { result ≡ 5 → Keeps (W.contents writer.old) (W.contents writer.new) }
    ensures device { BlamesDevice false (W.has_failed writer.new) result }
    ensures told { TellsDevice result false false (W.has_failed writer.old) (W.has_failed writer.new) }
    ensures status { (result ≤ 1) ⊎ (result ≡ 4) ⊎ (result ≡ 5) }
    ensures said { IsCheckSaid result calendar.now (E.contents errors.old) (E.contents errors.new) (E.may_lose errors.new) }
{
    let Ok(checked) = check(alloc, calendar, certificate, room) else {
        return report_memory(errors);
    };
    match print_verdict(alloc, writer, checked) {
        Ok(()) => close_check(alloc, calendar, room, checked, errors),
        Err(fault) => report_write(errors, fault),
    }
}

/// Says of a calendar that is refused which UID that is for, and gives the status for the checker's answer.
fn close_check<E: Output>(
    alloc: Global,
    calendar: &[u8],
    room: &Address,
    checked: Checked,
    errors: &mut E,
) -> u8
    ensures yes { result ≡ 0 → checked.verdict ≡ Verdict.Yes }
    ensures no { result ≡ 1 → checked.verdict ≡ Verdict.Yes → ⊥ }
    ensures value { result ≡ verdict_status checked.verdict }
    ensures range { result ≤ 1 }
    ensures quiet { result ≡ 0 → Keeps (E.contents errors.old) (E.contents errors.new) }
    ensures said { result ≡ 1 → SaysBlamed calendar.now (E.contents errors.old) (E.contents errors.new) (E.may_lose errors.new) }
{
    match checked.verdict {
        Verdict::Yes => DONE,
        Verdict::No(why) => {
            say_why(alloc, calendar, room, why, errors);
            NO
        }
    }
}

/// Says what the checker's no leaves out: of a calendar that is refused which UID that is for.
fn say_why<E: Output>(alloc: Global, calendar: &[u8], room: &Address, why: Why, errors: &mut E)
    ensures { SaysBlamed calendar.now (E.contents errors.old) (E.contents errors.new) (E.may_lose errors.new) }
{
    if why.number == Why::CALENDAR {
        say_blamed(alloc, calendar, room, errors);
    }
}

/// Writes the line of the checker's answer, whole.
fn print_verdict<W: Output>(
    alloc: Global,
    writer: &mut W,
    checked: Checked,
) -> Result<(), WriteFault>
    ensures line { OnOk result (Appends (W.contents writer.old) (W.contents writer.new) (verdict_line checked.verdict)) }
    ensures stops { IfErr result (StopsWriting (W.contents writer.old) (W.contents writer.new) (W.has_failed writer.new) (verdict_line checked.verdict)) }
    ensures mark { OnOk result (W.has_failed writer.new ≡ W.has_failed writer.old) }
    ensures told { IfErr result (KeepsButFailed (W.has_failed writer.old) (W.has_failed writer.new)) }
{
    let mut line = Vec::new(alloc);
    let Ok(()) = append_verdict(&mut line, checked.verdict) else {
        return Err(WriteFault::Memory);
    };
    writer.put(line.as_slice())
}

/// The line of a verdict.
fn append_verdict(line: &mut Vec<u8>, verdict: Verdict) -> io::Result<()>
    ensures { OnOk result (line.new.items ≡ line.old.items ++ verdict_line verdict) }
{
    match verdict {
        Verdict::Yes => writeln!(line, "yes"),
        Verdict::No(why) => append_no(line, why),
    }
}

fn append_no(line: &mut Vec<u8>, why: Why) -> io::Result<()>
    ensures { OnOk result (line.new.items ≡ line.old.items ++ no_line why) }
{
    match why.number {
        Why::TEXT => writeln!(line, "no {} {}", why.number, why.first),
        Why::ENTRY => writeln!(line, "no {} {} {}", why.number, why.first, why.second),
        _ => writeln!(line, "no {}", why.number),
    }
}
