//! `adapt`: makes the objects of a stream readable for a room.

ghost use Rattle.std.specs.Prelude.{◌≡◌, ◌⊎◌, ◌++◌, [], true, false, map, string_bytes, IfErr, IfOk, OnErr, OnOk};
ghost use Rattle.std.specs.List.{flat_map};
ghost use Rattle.cal_doors.specs.Adapted.{list_of};
ghost use Rattle.sched_cli.specs.Adapting.{AdaptsFront, AdaptsWhole, AdaptStopsFor, KeepsMarks, PassesOn, StopsPassing, StopsPutting, KeepsMark, adapt_status, adapt_text, adapted_text, goes_on_text};
ghost use Rattle.sched_doors.specs.Streams.{WritesStream, at_door};
ghost use Rattle.sched_doors.specs.declared.place.Place.TheVariants.{Start};
ghost use Rattle.sched_cli.specs.Commands.{BlamesDevice, IsStatusSaid, SaysLine, TellsDevice};
ghost use Rattle.std.specs.Io.KnownBytes.{Appends};

use crate::status::{DONE, report_device, report_memory, report_too_long, say};
use sched_devices::{Input, Output, WriteFault};
use sched_doors::{Door, DoorFault};
use std::alloc::{AllocError, Global};
use std::io::{self, Write};

/// Why a stream isn't handed on to its end.
#[derive(Clone, Copy)]
enum AdaptFault {
    /// The reader or the writer failed.
    Device,
    /// Out of memory.
    Memory,
}

/// `adapt`: hands on what a door lends, until it lends nothing. With `report` it says of each object that was made readable which of its
/// zones go on beyond what is stated of them, or that it was made readable. Gives 4 where the reader or the writer failed, 5 where memory was
/// refused, and 3 after more pieces than a u64 counts.
pub fn run_adapt<R: Input + Drop, W: Output, E: Output>(
    alloc: Global,
    door: &mut Door<'_, '_, R>,
    report: bool,
    writer: &mut W,
    errors: &mut E,
) -> u8
    ensures whole { result ≡ 0 → AdaptsWhole (list_of door.old.listed) (at_door door.old.place door.old.octets.items (R.remaining door.old.reader)) (at_door door.new.place door.new.octets.items (R.remaining door.new.reader)) (W.contents writer.old) (W.contents writer.new) }
    ensures stream { result ≡ 0 → door.old.place ≡ Start → WritesStream (list_of door.old.listed) (R.remaining door.old.reader) (W.contents writer.old) (W.contents writer.new) }
    ensures front { (result ≡ 0 → ⊥) → AdaptsFront result (list_of door.old.listed) (at_door door.old.place door.old.octets.items (R.remaining door.old.reader)) (W.contents writer.old) (W.contents writer.new) }
    ensures device { BlamesDevice (R.has_failed door.new.reader) (W.has_failed writer.new) result }
    ensures told { TellsDevice result (R.has_failed door.old.reader) (R.has_failed door.new.reader) (W.has_failed writer.old) (W.has_failed writer.new) }
    ensures status { (result ≡ 0) ⊎ (result ≡ 3) ⊎ (result ≡ 4) ⊎ (result ≡ 5) }
    ensures said { report ≡ false → IsStatusSaid result (E.contents errors.old) (E.contents errors.new) (E.may_lose errors.new) }
{
    for _ in 0..u64::MAX {
        match pass_on(door, writer) {
            Ok(true) => {}
            Ok(false) => return DONE,
            Err(fault) => return report_fault(errors, fault),
        }
        let Ok(()) = report_object(alloc, door, report, errors) else {
            return report_memory(errors);
        };
    }
    report_too_long(errors)
}

/// Hands on what the door lends next; false where it lends nothing.
fn pass_on<R: Input + Drop, W: Output>(
    door: &mut Door<'_, '_, R>,
    writer: &mut W,
) -> Result<bool, AdaptFault>
    ensures passes { IfOk result (PassesOn (list_of door.old.listed) (at_door door.old.place door.old.octets.items (R.remaining door.old.reader)) (at_door door.new.place door.new.octets.items (R.remaining door.new.reader)) (W.contents writer.old) (W.contents writer.new)) }
    ensures stops { IfErr result (StopsPassing (list_of door.old.listed) (at_door door.old.place door.old.octets.items (R.remaining door.old.reader)) (W.contents writer.old) (W.contents writer.new)) }
    ensures cause { IfErr result (AdaptStopsFor (R.has_failed door.new.reader) (W.has_failed writer.new)) }
    ensures mark { OnOk result (R.has_failed door.new.reader ≡ R.has_failed door.old.reader) }
    ensures sent { OnOk result (W.has_failed writer.new ≡ W.has_failed writer.old) }
    ensures told { IfErr result (KeepsMarks (R.has_failed door.old.reader) (R.has_failed door.new.reader) (W.has_failed writer.old) (W.has_failed writer.new)) }
    ensures listed { door.new.listed ≡ door.old.listed }
{
    match door.pass() {
        Ok(()) => put_lent(writer, door.buffer()),
        Err(DoorFault::Read) => Err(AdaptFault::Device),
        Err(DoorFault::Memory) => Err(AdaptFault::Memory),
    }
}

/// Writes octets, whole; false where there are none.
fn put_lent<W: Output>(writer: &mut W, octets: &[u8]) -> Result<bool, AdaptFault>
    ensures written { OnOk result (Appends (W.contents writer.old) (W.contents writer.new) octets.now) }
    ensures end { IfOk result (λ goes. goes ≡ false → octets.now ≡ []) }
    ensures stops { IfErr result (StopsPutting (W.contents writer.old) (W.contents writer.new) (W.has_failed writer.new) octets.now) }
    ensures sent { OnOk result (W.has_failed writer.new ≡ W.has_failed writer.old) }
    ensures told { IfErr result (KeepsMark (W.has_failed writer.old) (W.has_failed writer.new)) }
{
    if octets.is_empty() {
        return Ok(false);
    }
    match writer.put(octets) {
        Ok(()) => Ok(true),
        Err(WriteFault::Failed) => Err(AdaptFault::Device),
        Err(WriteFault::Memory) => Err(AdaptFault::Memory),
    }
}

/// Says why a stream wasn't handed on to its end, and gives the status for it.
fn report_fault<E: Output>(errors: &mut E, fault: AdaptFault) -> u8
    ensures status { result ≡ adapt_status fault }
    ensures says { SaysLine (adapt_text fault) (E.contents errors.old) (E.contents errors.new) (E.may_lose errors.new) }
{
    match fault {
        AdaptFault::Device => report_device(errors),
        AdaptFault::Memory => report_memory(errors),
    }
}

/// Says of an object that was made readable what goes on in it, where that is wanted.
fn report_object<R: Input + Drop, E: Output>(
    alloc: Global,
    door: &Door<'_, '_, R>,
    report: bool,
    errors: &mut E,
) -> Result<(), AllocError>
    ensures says { OnOk result (report ≡ true → door.now.is_adapted ≡ true
        → SaysLine (adapted_text door.now.objects (map string_bytes door.now.going_on.items)) (E.contents errors.old) (E.contents errors.new) (E.may_lose errors.new)) }
    ensures silent { report ≡ false → errors.new ≡ errors.old }
    ensures plain { door.now.is_adapted ≡ false → errors.new ≡ errors.old }
    ensures none { OnErr result (errors.new ≡ errors.old) }
{
    if !report {
        return Ok(());
    }
    if !door.is_adapted() {
        return Ok(());
    }
    let mut text = Vec::new(alloc);
    let Ok(()) = append_adapted(&mut text, door.objects(), door.going_on()) else {
        return Err(AllocError);
    };
    say(errors, text.as_slice());
    Ok(())
}

/// A line for each zone that goes on in the object of this number, or, where none does, that it was made readable.
fn append_adapted(text: &mut Vec<u8>, number: u64, going_on: &[String]) -> io::Result<()>
    ensures { OnOk result (text.new.items ≡ text.old.items ++ adapted_text number (map string_bytes going_on.now)) }
{
    if going_on.is_empty() {
        return writeln!(text, "roombox: object {number}: made readable");
    }
    append_going_on(text, number, going_on)
}

fn append_going_on(text: &mut Vec<u8>, number: u64, going_on: &[String]) -> io::Result<()>
    ensures { OnOk result (text.new.items ≡ text.old.items ++ flat_map (goes_on_text number) (map string_bytes going_on.now)) }
{
    for name in going_on {
        append_goes_on(text, number, name.as_str())?;
    }
    Ok(())
}

fn append_goes_on(text: &mut Vec<u8>, number: u64, name: &str) -> io::Result<()>
    ensures { OnOk result (text.new.items ≡ text.old.items ++ goes_on_text number name.now) }
{
    writeln!(
        text,
        "roombox: object {number}: {name} goes on after its last onset"
    )
}
