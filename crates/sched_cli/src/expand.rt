//! `expand`: the instances of one event, one line each: its original start, its start, and how many seconds it lasts.

ghost use Rattle.std.specs.Prelude.{◌≡◌, ◌⊎◌, ◌++◌, ◌∷◌, ℕ, List, [], decimal, false, OnOk, IfOk, IfErr};
ghost use Rattle.std.specs.Io.KnownBytes.{Appends, Keeps};
ghost use Rattle.profile.specs.text.Values.{WritesStamp};
ghost use Rattle.profile.specs.events.Events.{EventTextFault};
ghost use Rattle.cal_zones.specs.RoomZones.{room_of};
ghost use Rattle.cal_events.specs.Calendar.{instance_of};
ghost use Rattle.cal_events.specs.Event.{said_meeting};
ghost use Rattle.sched_devices.specs.Output.{KeepsButFailed, WriteStopsFor};
ghost use Rattle.sched_cli.specs.Commands.{BlamesDevice, IsStatusSaid, SaysLine, TellsDevice, refused_text};
ghost use Rattle.sched_cli.specs.Expanding.{IsPrintedLine, IsHandedOver, PrintsFirst, PrintsNext, ExpandsTo};

use crate::status::{DONE, report_read, report_write};
use cal_events::{Event, Instance, Instances, one_instance};
use cal_zones::RoomZone;
use ical_values::Stamp;
use itoa::Buffer;
use sched_box::{Output, WriteFault};
use std::alloc::{AllocError, Global};

/// Lines are handed to the writer once they have so many octets.
const FULL: usize = 65_536;

/// `expand`: prints the first instances of the event that an object says in a room of this zone, at most `limit` of them, as lines
/// `slot start seconds` by start and then by slot.
pub fn run_expand<W: Output, E: Output>(
    alloc: Global,
    octets: &[u8],
    zone: &RoomZone,
    limit: usize,
    writer: &mut W,
    errors: &mut E,
) -> u8
    ensures expands { result ≡ 0 → ExpandsTo (room_of zone.now) octets.now limit (W.contents writer.old) (W.contents writer.new) }
    ensures unwritten { result ≡ 3 → Keeps (W.contents writer.old) (W.contents writer.new) }
    ensures refused { result ≡ 3 → (n : ℕ) × EventTextFault (room_of zone.now) octets.now n × SaysLine (refused_text n) (E.contents errors.old) (E.contents errors.new) (E.may_lose errors.new) }
    ensures said { IsStatusSaid result (E.contents errors.old) (E.contents errors.new) (E.may_lose errors.new) }
    ensures device { BlamesDevice false (W.has_failed writer.new) result }
    ensures told { TellsDevice result false false (W.has_failed writer.old) (W.has_failed writer.new) }
    ensures status { (result ≡ 0) ⊎ (result ≡ 3) ⊎ (result ≡ 4) ⊎ (result ≡ 5) }
{
    let event = match Event::read(alloc, octets, zone) {
        Ok(event) => event,
        Err(fault) => return report_read(errors, fault),
    };
    // For the proof alone: the words of the room mean its zone, so each of the instances has a place of its own, and a line.
    zone.words_mean();
    one_instance();
    match print_event(alloc, &event, limit, writer) {
        Ok(()) => DONE,
        Err(fault) => report_write(errors, fault),
    }
}

/// The lines of the first instances of an event.
fn print_event<W: Output>(
    alloc: Global,
    event: &Event,
    limit: usize,
    writer: &mut W,
) -> Result<(), WriteFault>
    ensures cause { IfErr result (WriteStopsFor (W.has_failed writer.new)) }
    ensures mark { OnOk result (W.has_failed writer.new ≡ W.has_failed writer.old) }
    ensures told { IfErr result (KeepsButFailed (W.has_failed writer.old) (W.has_failed writer.new)) }
    ensures prints { OnOk result (PrintsFirst (said_meeting event.now) limit (W.contents writer.old) (W.contents writer.new) []) }
{
    let mut lines = InstanceLines {
        text: Vec::new(alloc),
    };
    print_first(event, limit, &mut lines, writer)?;
    lines.hand_over(writer)?;
    Ok(())
}

/// The lines of the first instances of an event, of which the last may not be handed over yet.
fn print_first<W: Output>(
    event: &Event,
    limit: usize,
    lines: &mut InstanceLines,
    writer: &mut W,
) -> Result<(), WriteFault>
    requires { lines.old.text.items ≡ [] }
    ensures cause { IfErr result (WriteStopsFor (W.has_failed writer.new)) }
    ensures mark { OnOk result (W.has_failed writer.new ≡ W.has_failed writer.old) }
    ensures told { IfErr result (KeepsButFailed (W.has_failed writer.old) (W.has_failed writer.new)) }
    ensures prints { OnOk result (PrintsFirst (said_meeting event.now) limit (W.contents writer.old) (W.contents writer.new) lines.new.text.items) }
{
    let mut instances = event.instances(i64::MIN);
    for count in 0..limit {
        if !print_next(&mut instances, lines, writer)? {
            return Ok(());
        }
    }
    Ok(())
}

/// The line of the next instance. False where none is left.
fn print_next<W: Output>(
    instances: &mut Instances<'_>,
    lines: &mut InstanceLines,
    writer: &mut W,
) -> Result<bool, WriteFault>
    ensures cause { IfErr result (WriteStopsFor (W.has_failed writer.new)) }
    ensures mark { OnOk result (W.has_failed writer.new ≡ W.has_failed writer.old) }
    ensures told { IfErr result (KeepsButFailed (W.has_failed writer.old) (W.has_failed writer.new)) }
    ensures prints { IfOk result (λ more. PrintsNext more instances.old instances.new (W.contents writer.old) (W.contents writer.new) lines.old.text.items lines.new.text.items) }
{
    let Some(instance) = instances.next() else {
        return Ok(false);
    };
    print_instance(instance, lines, writer)?;
    Ok(true)
}

/// The line of an instance.
fn print_instance<W: Output>(
    instance: Instance<'_>,
    lines: &mut InstanceLines,
    writer: &mut W,
) -> Result<(), WriteFault>
    ensures cause { IfErr result (WriteStopsFor (W.has_failed writer.new)) }
    ensures mark { OnOk result (W.has_failed writer.new ≡ W.has_failed writer.old) }
    ensures told { IfErr result (KeepsButFailed (W.has_failed writer.old) (W.has_failed writer.new)) }
    ensures line { OnOk result ((line : List ℕ) × IsPrintedLine (instance_of instance.entry) line
        × IsHandedOver (W.contents writer.old) (W.contents writer.new) lines.new.text.items (lines.old.text.items ++ line)) }
{
    lines.append(instance)?;
    if lines.text.len() >= FULL {
        lines.hand_over(writer)?;
    }
    Ok(())
}

/// The lines of instances, on their way to a writer.
#[derive(Drop)]
struct InstanceLines {
    text: Vec<u8>,
}

impl InstanceLines {
    /// Adds the line of an instance. Those of an event that was read have one.
    fn append(&mut self, instance: Instance<'_>) -> Result<(), AllocError>
        ensures { OnOk result ((line : List ℕ) × IsPrintedLine (instance_of instance.entry) line
            × (self.new.text.items ≡ self.old.text.items ++ line)) }
    {
        let Some(slot) = Stamp::of_instant(instance.key.slot) else {
            return Ok(());
        };
        let Some(start) = Stamp::of_instant(instance.start) else {
            return Ok(());
        };
        append_starts(&mut self.text, slot, start)?;
        let seconds = instance.end.abs_diff(instance.start);
        append_seconds(&mut self.text, seconds)?;
        Ok(())
    }

    /// Writes the lines, and forgets them.
    fn hand_over<W: Output>(&mut self, writer: &mut W) -> Result<(), WriteFault>
        ensures written { OnOk result (Appends (W.contents writer.old) (W.contents writer.new) self.old.text.items) }
        ensures cause { IfErr result (WriteStopsFor (W.has_failed writer.new)) }
        ensures mark { OnOk result (W.has_failed writer.new ≡ W.has_failed writer.old) }
        ensures told { IfErr result (KeepsButFailed (W.has_failed writer.old) (W.has_failed writer.new)) }
        ensures text { OnOk result (self.new.text.items ≡ []) }
    {
        writer.put(self.text.as_slice())?;
        self.text.clear();
        Ok(())
    }
}

/// The original start and the start. Where they are one, as for most instances, its text is made once.
fn append_starts(out: &mut Vec<u8>, slot: Stamp, start: Stamp) -> Result<(), AllocError>
    ensures { OnOk result ((first : List ℕ) × (second : List ℕ) × WritesStamp first slot × WritesStamp second start
        × (out.new.items ≡ (out.old.items ++ (first ++ 32 ∷ [])) ++ (second ++ 32 ∷ []))) }
{
    let from = out.len();
    append_start(out, slot)?;
    if slot == start {
        out.extend_from_within(from..)?;
        return Ok(());
    }
    append_start(out, start)
}

/// A start, and what parts it from the next column.
fn append_start(out: &mut Vec<u8>, start: Stamp) -> Result<(), AllocError>
    ensures { OnOk result ((text : List ℕ) × WritesStamp text start × (out.new.items ≡ out.old.items ++ (text ++ 32 ∷ []))) }
{
    start.write(out)?;
    out.push(b' ')?;
    Ok(())
}

/// The last column, and the end of the line.
fn append_seconds(out: &mut Vec<u8>, seconds: u64) -> Result<(), AllocError>
    ensures { OnOk result (out.new.items ≡ out.old.items ++ (decimal seconds ++ 10 ∷ [])) }
{
    let mut digits = Buffer::new();
    out.extend_from_slice(digits.format(seconds).as_bytes())?;
    out.push(b'\n')?;
    Ok(())
}
