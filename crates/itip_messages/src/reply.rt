//! Replies of a room (RFC 5546 3.2.3): one VEVENT for each part that was decided.
ghost use Rattle.std.specs.Prelude.{◌≡◌, ◌↔◌, ◌++◌, ◌∷◌, [], ◌<◌, true, string_bytes, length, take, IsSome, IfSome, OnOk, OnErr};
ghost use Rattle.profile.specs.text.Lines.{folded};
ghost use Rattle.profile.specs.text.Values.{IsClockSeconds, WritesStamp};
ghost use Rattle.profile.specs.rooms.Messages.{TellsSlot, TellsOutcome, IsKeyText, word, word_octet, is_word_octet, hexadecimal};
ghost use Rattle.cal_events.specs.Calendar.{key_of as instance_key};
ghost use Rattle.ical_values.specs.Written.{Appends};
ghost use Rattle.itip_messages.specs.Reply.{IsConflict, IsReplyText, IsWrittenEvent, WritesEvents, WritesLines, attendee_line, busy, conflict_key, decision_outcome, slot_at};

use crate::writer::ObjectWriter;
use cal_events::InstanceKey;
use ical_values::shown::stamp_text;
use ical_values::{Address, Sequence, Stamp, Text};
use std::alloc::{AllocError, Global};

/// Which instance of which meeting, as a reply names it: its original start can be written.
#[derive(Clone, Copy)]
pub struct ConflictKey<'a> {
    pub organiser: &'a str,
    pub uid: &'a str,
    pub slot: Stamp,
}

/// Two instances that share an instant, the later of their starts.
#[derive(Clone, Copy)]
pub struct Conflict<'a> {
    pub instant: Stamp,
    pub first: ConflictKey<'a>,
    pub second: ConflictKey<'a>,
}

impl<'a> Conflict<'a> {
    /// Two instances and an instant in seconds from 1970-01-01T00:00:00Z; None where the instant or a slot is
    /// outside the years 1 to 9999, which no stamp can write.
    pub fn of(instant: i64, first: InstanceKey<'a>, second: InstanceKey<'a>) -> Option<Conflict<'a>>
        ensures found { IsSome result ↔ (IsClockSeconds instant × IsClockSeconds first.entry.slot × IsClockSeconds second.entry.slot) }
        ensures value { IfSome result (IsConflict instant (instance_key first.entry) (instance_key second.entry)) }
    {
        let instant = Stamp::of_instant(instant)?;
        let first_slot = Stamp::of_instant(first.slot)?;
        let second_slot = Stamp::of_instant(second.slot)?;
        let first = ConflictKey {
            organiser: first.organiser,
            uid: first.uid,
            slot: first_slot,
        };
        let second = ConflictKey {
            organiser: second.organiser,
            uid: second.uid,
            slot: second_slot,
        };
        Some(Conflict {
            instant,
            first,
            second,
        })
    }
}

/// What a room decided.
#[derive(Clone, Copy)]
pub enum Decision<'a> {
    Accepted,
    /// Declined: the room isn't free.
    Busy(Conflict<'a>),
    /// Declined: the room would have more confirmed series than it may.
    SeriesLimit,
    /// Declined: the room would have more confirmed single instances than it may.
    SinglesLimit,
}

/// What one VEVENT of a reply says.
#[derive(Clone, Copy)]
pub struct ReplyEvent<'a> {
    pub uid: &'a Text,
    /// The instance that is answered by itself, written as RECURRENCE-ID; None for the whole meeting.
    pub recurrence: Option<Stamp>,
    pub sequence: Sequence,
    /// The moment of the decision, written as DTSTAMP.
    pub moment: Stamp,
    pub organiser: &'a Address,
    /// The room that replies.
    pub room: &'a Address,
    pub decision: Decision<'a>,
}

/// Writes a REPLY of these events. Where the memory for it is refused, `out` is as it was.
pub fn write_reply(events: &[ReplyEvent<'_>], out: &mut Vec<u8>) -> Result<(), AllocError>
    ensures ok { OnOk result (Appends out.old.items out.new.items (IsReplyText events.now)) }
    ensures err { OnErr result (out.new.items ≡ out.old.items) }
{
    let mut object = ObjectWriter::new(*out.allocator());
    object.begin_calendar(Some("REPLY"))?;
    write_events(&mut object, events)?;
    object.end_calendar()?;
    let octets = object.finish();
    out.extend_from_slice(octets.as_slice())?;
    Ok(())
}

fn write_events(object: &mut ObjectWriter, events: &[ReplyEvent<'_>]) -> Result<(), AllocError>
    ensures { OnOk result (WritesEvents events.now object.old object.new) }
{
    for event in events {
        write_event(object, event)?;
    }
    Ok(())
}

/// Writes the VEVENT of one event. Where the memory for it is refused, `object` is as it was.
pub fn write_event(object: &mut ObjectWriter, event: &ReplyEvent<'_>) -> Result<(), AllocError>
    ensures ok { OnOk result (WritesLines object.old object.new (IsWrittenEvent event.now)) }
    ensures err { OnErr result (object.new ≡ object.old) }
{
    let kept = object.len();
    if let Err(error) = write_all_lines(object, event) {
        object.truncate(kept);
        return Err(error);
    }
    Ok(())
}

/// As `write_event`. On an error some of its lines may have been written.
fn write_all_lines(object: &mut ObjectWriter, event: &ReplyEvent<'_>) -> Result<(), AllocError>
    ensures ok { OnOk result (WritesLines object.old object.new (IsWrittenEvent event.now)) }
    ensures keeps { take (length object.old) object.new ≡ object.old }
{
    object.line("BEGIN:VEVENT")?;
    object.uid(event.uid)?;
    write_recurrence(object, event.recurrence)?;
    object.sequence(event.sequence)?;
    object.stamp("DTSTAMP:", event.moment)?;
    object.named("ORGANIZER:", event.organiser.as_str())?;
    write_attendee(object, event)?;
    write_decision(object, &event.decision)?;
    object.line("END:VEVENT")?;
    Ok(())
}

fn write_recurrence(object: &mut ObjectWriter, recurrence: Option<Stamp>) -> Result<(), AllocError>
    ensures ok { OnOk result (WritesLines object.old object.new (TellsSlot (slot_at recurrence))) }
    ensures err { OnErr result (object.new ≡ object.old) }
{
    match recurrence {
        Some(stamp) => object.stamp("RECURRENCE-ID:", stamp),
        None => Ok(()),
    }
}

/// The room's own line, with its answer.
fn write_attendee(object: &mut ObjectWriter, event: &ReplyEvent<'_>) -> Result<(), AllocError>
    ensures ok { OnOk result (object.new ≡ object.old ++ folded (attendee_line event.now)) }
    ensures err { OnErr result (object.new ≡ object.old) }
{
    let name = match event.decision {
        Decision::Accepted => "ATTENDEE;PARTSTAT=ACCEPTED:",
        _ => "ATTENDEE;PARTSTAT=DECLINED:",
    };
    object.named(name, event.room.as_str())
}

fn write_decision(object: &mut ObjectWriter, decision: &Decision<'_>) -> Result<(), AllocError>
    ensures ok { OnOk result (WritesLines object.old object.new (TellsOutcome (decision_outcome decision.now))) }
    ensures err { OnErr result (object.new ≡ object.old) }
{
    match decision {
        Decision::Accepted => object.line("REQUEST-STATUS:2.0;Success"),
        Decision::Busy(conflict) => write_conflict(object, conflict),
        Decision::SeriesLimit => object.line("X-ROOM-LIMIT:SERIES"),
        Decision::SinglesLimit => object.line("X-ROOM-LIMIT:SINGLES"),
    }
}

/// The status of a decline (RFC 5545 3.8.8.3): its code, its text, and seven words, the instant and then slot,
/// organiser and UID of each instance. The code's text and the words are this profile's choice.
fn write_conflict(object: &mut ObjectWriter, conflict: &Conflict<'_>) -> Result<(), AllocError>
    ensures ok { OnOk result (WritesLines object.old object.new (TellsOutcome (busy conflict.now))) }
    ensures err { OnErr result (object.new ≡ object.old) }
{
    let alloc = object.alloc();
    let mut line = String::new(alloc);
    put_conflict(alloc, &mut line, conflict)?;
    object.line(line.as_str())
}

/// Writes the line of that status into an empty string.
fn put_conflict(alloc: Global, line: &mut String, conflict: &Conflict<'_>) -> Result<(), AllocError>
    requires { string_bytes line.now ≡ [] }
    ensures { OnOk result (TellsOutcome (busy conflict.now) (string_bytes line.new ∷ [])) }
{
    line.push_str("REQUEST-STATUS:4.1;Event conflict.  Date-time is busy.;")?;
    put_stamp(alloc, line, conflict.instant)?;
    line.push_str(" ")?;
    put_key(alloc, line, &conflict.first)?;
    line.push_str(" ")?;
    put_key(alloc, line, &conflict.second)
}

/// A key in three words: slot, organiser, UID.
fn put_key(alloc: Global, line: &mut String, key: &ConflictKey<'_>) -> Result<(), AllocError>
    ensures { OnOk result (Appends (string_bytes line.old) (string_bytes line.new) (λ text. IsKeyText text (conflict_key key.now))) }
{
    put_stamp(alloc, line, key.slot)?;
    line.push_str(" ")?;
    put_word(line, key.organiser)?;
    line.push_str(" ")?;
    put_word(line, key.uid)
}

fn put_stamp(alloc: Global, line: &mut String, stamp: Stamp) -> Result<(), AllocError>
    ensures { OnOk result (Appends (string_bytes line.old) (string_bytes line.new) (λ text. WritesStamp text stamp)) }
{
    let text = stamp_text(alloc, stamp)?;
    line.push_str(text.as_str())
}

/// A word of the status: each octet other than letters, digits and `-._~@:` becomes `%` and two hexadecimal
/// digits in upper case, so that no word has a space.
fn put_word(line: &mut String, text: &str) -> Result<(), AllocError>
    ensures { OnOk result (string_bytes line.new ≡ string_bytes line.old ++ word text.now) }
{
    for octet in text.as_bytes() {
        put_octet(line, *octet)?;
    }
    Ok(())
}

fn put_octet(line: &mut String, octet: u8) -> Result<(), AllocError>
    ensures { OnOk result (string_bytes line.new ≡ string_bytes line.old ++ word_octet octet) }
{
    if is_plain(octet) {
        return line.push(char::from(octet));
    }
    line.push('%')?;
    line.push(hexadecimal(octet / 16))?;
    line.push(hexadecimal(octet % 16))
}

fn is_plain(octet: u8) -> bool
    ensures value { result ≡ is_word_octet octet }
    ensures ascii { result ≡ true → octet < 128 }
{
    octet.is_ascii_alphanumeric() || matches!(octet, b'-' | b'.' | b'_' | b'~' | b'@' | b':')
}

/// The upper case digit of a number below 16.
fn hexadecimal(number: u8) -> char
    requires { number < 16 }
    ensures value { result ≡ hexadecimal number }
    ensures ascii { result < 128 }
{
    if number < 10 {
        char::from(b'0' + number)
    } else {
        char::from(b'A' + (number - 10))
    }
}
