//! `explain` without a number: reads one object as `serve` reads a message, and says why it is refused.

ghost use Rattle.std.specs.Prelude.{◌≡◌, ◌≤◌, ◌++◌, ◌⊎◌, ℕ, List, codes, decimal, true, false, IfOk, MatchOption, OnOk};
ghost use Rattle.std.specs.Io.KnownBytes.{Appends, Keeps};
ghost use Rattle.sched_cli.specs.Commands.{BlamesDevice, IsStatusSaid, TellsDevice};
ghost use Rattle.sched_cli.specs.Diagnosis.{HasFault, IsEnding, IsHelp, IsMeaningOf, IsPlaceText, IsMessageText, IsReason, IsRefusedText, SaysRefused, SaysTaken, message_line, place_text, property_text, way_text};
ghost use Rattle.fault_places.specs.EventFlaws.{flaw_text, flaw_words};
ghost use Rattle.sched_cli.specs.Explained.{is_explained};

use crate::explain::explanation;
use crate::status::{DONE, NO, report_memory, report_write};
use cal_doors::adapt;
use cal_events::Method;
use fault_places::{
    FlawKind, InTheWay, ObjectFlaw, Place, PlacedFlaw, flaw_in_object, in_the_way, place_of,
};
use ical_lines::{Fault, Refusal};
use itip_messages::Message;
use itoa::Buffer;
use sched_box::Output;
use std::alloc::{AllocError, Global};

/// `explain` of an object: writes `not refused` and what the object is, or the number that `Message::read` refuses it with, the place of
/// the fault where it is known, and what the number means. Gives 0 where it isn't refused, and 1 where it is.
pub fn run_explain_object<W: Output, E: Output>(
    alloc: Global,
    octets: &[u8],
    writer: &mut W,
    errors: &mut E,
) -> u8
    ensures taken { result ≡ 0 → SaysTaken octets.now (W.contents writer.old) (W.contents writer.new) }
    ensures refused { result ≡ 1 → SaysRefused octets.now (W.contents writer.old) (W.contents writer.new) }
    ensures unwritten { result ≡ 5 → Keeps (W.contents writer.old) (W.contents writer.new) }
    ensures device { BlamesDevice false (W.has_failed writer.new) result }
    ensures told { TellsDevice result false false (W.has_failed writer.old) (W.has_failed writer.new) }
    ensures status { (result ≤ 1) ⊎ (result ≡ 4) ⊎ (result ≡ 5) }
    ensures said { IsStatusSaid result (E.contents errors.old) (E.contents errors.new) (E.may_lose errors.new) }
{
    match Message::read(alloc, octets) {
        Ok(message) => write_status(writer, errors, DONE, taken_line(&message).as_bytes()),
        Err(Fault::Refused(refusal)) => match refused_text(alloc, octets, refusal) {
            Ok(text) => write_status(writer, errors, NO, text.as_slice()),
            Err(_) => report_memory(errors),
        },
        Err(Fault::Memory) => report_memory(errors),
    }
}

/// Writes octets, whole, and gives this status then, which is 0 or 1.
fn write_status<W: Output, E: Output>(
    writer: &mut W,
    errors: &mut E,
    status: u8,
    octets: &[u8],
) -> u8
    requires { status ≤ 1 }
    ensures written { result ≤ 1 → Appends (W.contents writer.old) (W.contents writer.new) octets.now }
    ensures given { result ≤ 1 → result ≡ status }
    ensures unwritten { result ≡ 5 → Keeps (W.contents writer.old) (W.contents writer.new) }
    ensures device { BlamesDevice false (W.has_failed writer.new) result }
    ensures told { TellsDevice result false false (W.has_failed writer.old) (W.has_failed writer.new) }
    ensures status { (result ≤ 1) ⊎ (result ≡ 4) ⊎ (result ≡ 5) }
    ensures said { IsStatusSaid result (E.contents errors.old) (E.contents errors.new) (E.may_lose errors.new) }
{
    match writer.put(octets) {
        Ok(()) => status,
        Err(fault) => report_write(errors, fault),
    }
}

/// What is said of an object that isn't refused.
fn taken_line(message: &Message) -> &'static str
    ensures { result.now ≡ message_line message.now }
{
    match message.method() {
        Method::Store => "not refused: a store\n",
        Method::Request => "not refused: a REQUEST\n",
        Method::Add => "not refused: an ADD\n",
        Method::Cancel => "not refused: a CANCEL\n",
        Method::Reply => "not refused: a REPLY\n",
        Method::Refresh => "not refused: a REFRESH\n",
    }
}

/// What is said of an object that is refused so: a line with the place, of a VTIMEZONE one with what is in the way, and the line of the
/// number.
fn refused_text(alloc: Global, octets: &[u8], refusal: Refusal) -> Result<Vec<u8>, AllocError>
    ensures { is_explained refusal.number ≡ true → IfOk result (λ text. IsRefusedText octets.now refusal.number refusal.line text.items) }
{
    let mut text = Vec::new(alloc);
    let mut digits = Buffer::new();
    text.extend_from_slice(b"refused ")?;
    text.extend_from_slice(digits.format(refusal.number).as_bytes())?;
    append_reason(alloc, &mut text, octets, refusal)?;
    append_meaning(&mut text, refusal.number)?;
    Ok(text)
}

/// The rest of the line with the place, and the line with what is in the way, where a VTIMEZONE is refused.
fn append_reason(
    alloc: Global,
    text: &mut Vec<u8>,
    octets: &[u8],
    refusal: Refusal,
) -> Result<(), AllocError>
    ensures { OnOk result ((reason : List ℕ) × IsReason octets.now refusal.number refusal.line reason × (text.new.items ≡ text.old.items ++ reason)) }
{
    let Some(found) = in_the_way(alloc, octets, refusal.number)? else {
        return append_line(alloc, text, octets, refusal);
    };
    append_place(text, &found.place)?;
    end_line(text)?;
    append_way(text, &found)?;
    append_help(alloc, text, octets)
}

/// Appends what is wrong where no VTIMEZONE is in the way: the place, and a line with what is wrong with a VEVENT's properties, if that is it.
fn append_line(
    alloc: Global,
    text: &mut Vec<u8>,
    octets: &[u8],
    refusal: Refusal,
) -> Result<(), AllocError>
    ensures { OnOk result ((reason : List ℕ) × IsReason octets.now refusal.number refusal.line reason × (text.new.items ≡ text.old.items ++ reason)) }
{
    append_blamed(alloc, text, octets, refusal.line())?;
    end_line(text)?;
    let ObjectFlaw::Placed(found) = flaw_in_object(alloc, octets, refusal.number)? else {
        return Ok(());
    };
    append_flaw(text, &found)
}

fn end_line(text: &mut Vec<u8>) -> Result<(), AllocError>
    ensures { OnOk result (text.new.items ≡ text.old.items ++ codes "\n") }
{
    text.push(b'\n')?;
    Ok(())
}

/// The place of the logical line of this number; nothing where there is none.
fn append_blamed(
    alloc: Global,
    text: &mut Vec<u8>,
    octets: &[u8],
    line: usize,
) -> Result<(), AllocError>
    ensures { OnOk result ((place : List ℕ) × IsPlaceText octets.now line place × (text.new.items ≡ text.old.items ++ place)) }
{
    let Some(place) = place_of(alloc, octets, line)? else {
        return Ok(());
    };
    append_place(text, &place)
}

/// ` at line 12: DTSTART`
fn append_place(text: &mut Vec<u8>, place: &Place) -> Result<(), AllocError>
    ensures { OnOk result (text.new.items ≡ text.old.items ++ place_text place.now.line place.now.property.items) }
{
    let mut digits = Buffer::new();
    text.extend_from_slice(b" at line ")?;
    text.extend_from_slice(digits.format(place.line).as_bytes())?;
    append_property(text, place.property.as_slice())
}

/// `: DTSTART`; nothing where it is empty.
fn append_property(text: &mut Vec<u8>, property: &[u8]) -> Result<(), AllocError>
    ensures { OnOk result (text.new.items ≡ text.old.items ++ property_text property.now) }
{
    if property.is_empty() {
        return Ok(());
    }
    text.extend_from_slice(b": ")?;
    text.extend_from_slice(property)?;
    Ok(())
}

/// `DAYLIGHT at line 9: its RRULE has UNTIL.`
fn append_way(text: &mut Vec<u8>, found: &InTheWay) -> Result<(), AllocError>
    ensures { OnOk result (text.new.items ≡ text.old.items ++ way_text found.now) }
{
    let mut digits = Buffer::new();
    text.extend_from_slice(found.part.as_slice())?;
    text.extend_from_slice(b" at line ")?;
    text.extend_from_slice(digits.format(found.begins).as_bytes())?;
    text.extend_from_slice(b": ")?;
    text.extend_from_slice(found.obstacle.words().as_bytes())?;
    Ok(())
}

/// `VEVENT at line 4: it has no UID.`, as a line.
fn append_flaw(text: &mut Vec<u8>, found: &PlacedFlaw) -> Result<(), AllocError>
    ensures { OnOk result (text.new.items ≡ text.old.items ++ flaw_text found.now) }
{
    let mut digits = Buffer::new();
    text.extend_from_slice(found.event.as_slice())?;
    text.extend_from_slice(b" at line ")?;
    text.extend_from_slice(digits.format(found.begins).as_bytes())?;
    text.extend_from_slice(b": ")?;
    append_flaw_words(text, found.kind, found.property.as_slice())
}

/// What is wrong with a property, in words that follow the place of the VEVENT.
fn append_flaw_words(text: &mut Vec<u8>, kind: FlawKind, property: &[u8]) -> Result<(), AllocError>
    ensures { OnOk result (text.new.items ≡ text.old.items ++ flaw_words kind property.now) }
{
    match kind {
        FlawKind::Missing => append_around(text, b"it has no ", property, b".\n"),
        FlawKind::Twice => append_around(text, b"", property, b" occurs twice in it.\n"),
        FlawKind::Beside => append_around(text, b"", property, b" stands beside DTEND in it.\n"),
    }
}

fn append_around(
    text: &mut Vec<u8>,
    before: &[u8],
    word: &[u8],
    behind: &[u8],
) -> Result<(), AllocError>
    ensures { OnOk result (text.new.items ≡ text.old.items ++ (before.now ++ (word.now ++ behind.now))) }
{
    text.extend_from_slice(before)?;
    text.extend_from_slice(word)?;
    text.extend_from_slice(behind)?;
    Ok(())
}

/// What `roombox adapt` makes of an object that a VTIMEZONE is in the way of.
fn append_help(alloc: Global, text: &mut Vec<u8>, octets: &[u8]) -> Result<(), AllocError>
    ensures { OnOk result ((help : List ℕ) × IsHelp octets.now help × (text.new.items ≡ text.old.items ++ help)) }
{
    let Some(adapted) = adapt(alloc, octets, None)? else {
        text.extend_from_slice(b" `roombox adapt` hands the object on as it is.\n")?;
        return Ok(());
    };
    text.extend_from_slice(b" `roombox adapt` makes an object of it that is ")?;
    append_adapted(alloc, text, adapted.octets.as_slice())
}

/// `read.`, or `refused 34.`
fn append_adapted(alloc: Global, text: &mut Vec<u8>, octets: &[u8]) -> Result<(), AllocError>
    ensures { OnOk result ((ending : List ℕ) × IsEnding octets.now ending × (text.new.items ≡ text.old.items ++ ending)) }
{
    let Some(number) = refused_number(alloc, octets)? else {
        text.extend_from_slice(b"read.\n")?;
        return Ok(());
    };
    append_refused(text, number)
}

/// The number that octets are refused with; None where they are read.
fn refused_number(alloc: Global, octets: &[u8]) -> Result<Option<u8>, AllocError>
    ensures { IfOk result (λ refused. MatchOption refused (IsMessageText octets.now) (HasFault octets.now)) }
{
    match Message::read(alloc, octets) {
        Ok(_) => Ok(None),
        Err(Fault::Refused(refusal)) => Ok(Some(refusal.number)),
        Err(Fault::Memory) => Err(AllocError),
    }
}

/// `refused 34.`
fn append_refused(text: &mut Vec<u8>, number: u8) -> Result<(), AllocError>
    ensures { OnOk result (text.new.items ≡ text.old.items ++ (codes "refused " ++ (decimal number ++ codes ".\n"))) }
{
    let mut shown = Buffer::new();
    text.extend_from_slice(b"refused ")?;
    text.extend_from_slice(shown.format(number).as_bytes())?;
    text.extend_from_slice(b".\n")?;
    Ok(())
}

/// The line of a number.
fn append_meaning(text: &mut Vec<u8>, number: u8) -> Result<(), AllocError>
    ensures { is_explained number ≡ true → OnOk result ((meaning : List ℕ) × IsMeaningOf number meaning × (text.new.items ≡ text.old.items ++ meaning)) }
{
    let Some(line) = explanation(number) else {
        return Ok(());
    };
    text.extend_from_slice(line.as_bytes())?;
    Ok(())
}
