//! Serving: each object goes to the rooms that it is addressed to, or to the organiser that it names, and what is answered is written.

ghost use Rattle.std.specs.Prelude.{◌≡◌, ◌<◌, ◌≤◌, ℕ, List, Option, Bool, Contains, true, false, IfErr, IfOk, OnOk};
ghost use Rattle.std.specs.Io.KnownBytes.{Appends, Keeps};
ghost use Rattle.std.specs.Result.{IsErrAnd};
ghost use Rattle.ical_values.specs.Octets.{address_octets};
ghost use Rattle.profile.specs.checker.Calendars.{CertificateHolds};
ghost use Rattle.profile.specs.streams.Streams.{Box, new_box};
ghost use Rattle.sched_box.specs.Books.{AreBooksOf, hosted_rooms};
ghost use Rattle.sched_box.specs.Config.{config_hosts, config_rooms};
ghost use Rattle.sched_box.specs.Faults.{IfRefusedStream, IsRefusal, KeepsButRead, KeepsButWrite, RefusesPreamble, StopsFor, StreamKeepsButRead, StreamKeepsButWrite, StreamStopsFor};
ghost use Rattle.sched_devices.specs.Input.{ForTaken, IsFilledWithin};
ghost use Rattle.sched_box.specs.Sending.{StopsSending};
ghost use Rattle.sched_box.specs.Serving.{AnswersWhole, BooksServe, KeepsTexts, Serves, ServesBooks, ServesStream, StopsKeeping, StopsWithin, TellsAll, TellsStream};

use crate::books::Books;
use crate::config::Config;
use crate::fault::{ServeFault, StreamFault};
use crate::journal::{Journal, Nobody};
use crate::objects::{MOST_OCTETS, Objects};
use crate::preamble::read_preamble;
use ical_lines::Refusal;
use ical_values::{Address, Stamp};
use room_books::served_texts_pass;
use sched_devices::{Input, Nowhere, Output, WriteFault};
use std::alloc::{AllocError, Global};

/// How many objects a stream had, and how many of them were refused.
#[derive(Clone, Copy, Debug, PartialEq, Eq)]
pub struct ServeReport {
    pub objects: u64,
    pub refused: u64,
}

/// Reads a preamble, and serves what follows it.
pub fn serve_stream<R: Input, W: Output>(
    alloc: Global,
    reader: &mut R,
    writer: &mut W,
) -> Result<ServeReport, StreamFault>
    ensures counts { IfOk result (λ report. report.refused ≤ report.objects) }
    ensures refuses { IfErr result RefusesPreamble }
    ensures cause { IfErr result (StreamStopsFor (R.has_failed reader.new) (W.has_failed writer.new)) }
    ensures mark { OnOk result (R.has_failed reader.new ≡ R.has_failed reader.old) }
    ensures told { IfErr result (StreamKeepsButRead (R.has_failed reader.old) (R.has_failed reader.new)) }
    ensures sent { OnOk result (W.has_failed writer.new ≡ W.has_failed writer.old) }
    ensures unsent { IfErr result (StreamKeepsButWrite (W.has_failed writer.old) (W.has_failed writer.new)) }
    ensures serves { ServesStream (record { input = R.remaining reader.old; left = R.remaining reader.new; output = W.contents writer.old; written = W.contents writer.new }) result }
    ensures fills { IsFilledWithin 3 (R.fills reader.old) (R.fills reader.new) (R.remaining reader.old) (R.remaining reader.new) }
    ensures whole { OnOk result (AnswersWhole (record { input = R.remaining reader.old; left = R.remaining reader.new; output = W.contents writer.old; written = W.contents writer.new })) }
    ensures ended { OnOk result (R.has_ended reader.new ≡ true) }
    ensures taken { ForTaken R.takes R.lent R.has_ended reader.old reader.new (λ input left. ServesStream (record { input = input; left = left; output = W.contents writer.old; written = W.contents writer.new }) result) }
    ensures answers { OnOk result (ForTaken R.takes R.lent R.has_ended reader.old reader.new (λ input left. AnswersWhole (record { input = input; left = left; output = W.contents writer.old; written = W.contents writer.new }))) }
{
    serve_stream_telling(alloc, reader, writer, &mut Nobody)
}

/// Serves a stream as `serve_stream` does, and tells of each object what became of it, after its answers are written.
pub fn serve_stream_telling<R: Input, W: Output, J: Journal>(
    alloc: Global,
    reader: &mut R,
    writer: &mut W,
    journal: &mut J,
) -> Result<ServeReport, StreamFault>
    ensures counts { IfOk result (λ report. report.refused ≤ report.objects) }
    ensures refuses { IfErr result RefusesPreamble }
    ensures cause { IfErr result (StreamStopsFor (R.has_failed reader.new) (W.has_failed writer.new)) }
    ensures mark { OnOk result (R.has_failed reader.new ≡ R.has_failed reader.old) }
    ensures told { IfErr result (StreamKeepsButRead (R.has_failed reader.old) (R.has_failed reader.new)) }
    ensures sent { OnOk result (W.has_failed writer.new ≡ W.has_failed writer.old) }
    ensures unsent { IfErr result (StreamKeepsButWrite (W.has_failed writer.old) (W.has_failed writer.new)) }
    ensures serves { ServesStream (record { input = R.remaining reader.old; left = R.remaining reader.new; output = W.contents writer.old; written = W.contents writer.new }) result }
    ensures fills { IsFilledWithin 3 (R.fills reader.old) (R.fills reader.new) (R.remaining reader.old) (R.remaining reader.new) }
    ensures whole { OnOk result (AnswersWhole (record { input = R.remaining reader.old; left = R.remaining reader.new; output = W.contents writer.old; written = W.contents writer.new })) }
    ensures ended { OnOk result (R.has_ended reader.new ≡ true) }
    ensures taken { ForTaken R.takes R.lent R.has_ended reader.old reader.new (λ input left. ServesStream (record { input = input; left = left; output = W.contents writer.old; written = W.contents writer.new }) result) }
    ensures answers { OnOk result (ForTaken R.takes R.lent R.has_ended reader.old reader.new (λ input left. AnswersWhole (record { input = input; left = left; output = W.contents writer.old; written = W.contents writer.new }))) }
    ensures tells { IfOk result (TellsStream J.tells journal.old journal.new (record { input = R.remaining reader.old; left = R.remaining reader.new; output = W.contents writer.old; written = W.contents writer.new })) }
    ensures taken_told { IfOk result (λ report. ForTaken R.takes R.lent R.has_ended reader.old reader.new (λ input left. TellsStream J.tells journal.old journal.new (record { input = input; left = left; output = W.contents writer.old; written = W.contents writer.new }) report)) }
{
    let (config, now) = read_preamble(alloc, reader)?;
    let report = serve_telling(alloc, &config, reader, writer, now, journal)?;
    Ok(report)
}

/// Serves the objects of a stream from empty books, and writes the answers to each object after all that it goes to
/// have taken it. Read comes only where the reader has failed: then those to each object were written whose end and the
/// octet after it were consumed. Write comes only where the writer has failed: then a beginning of the answers was
/// written; when out of memory, the answers to the earlier objects. The reader is filled only where all that it lent was
/// consumed: at most once for each octet that is consumed, once at the end of the last object, and once after it.
pub fn serve<R: Input, W: Output>(
    alloc: Global,
    config: &Config,
    reader: &mut R,
    writer: &mut W,
    now: Stamp,
) -> Result<ServeReport, ServeFault>
    ensures counts { IfOk result (λ report. report.refused ≤ report.objects) }
    ensures cause { IfErr result (StopsFor (R.has_failed reader.new) (W.has_failed writer.new)) }
    ensures mark { OnOk result (R.has_failed reader.new ≡ R.has_failed reader.old) }
    ensures told { IfErr result (KeepsButRead (R.has_failed reader.old) (R.has_failed reader.new)) }
    ensures sent { OnOk result (W.has_failed writer.new ≡ W.has_failed writer.old) }
    ensures unsent { IfErr result (KeepsButWrite (W.has_failed writer.old) (W.has_failed writer.new)) }
    ensures fills { IsFilledWithin 2 (R.fills reader.old) (R.fills reader.new) (R.remaining reader.old) (R.remaining reader.new) }
    ensures serves { Serves now (new_box (config_hosts config.now))
        (record { input = R.remaining reader.old; left = R.remaining reader.new; output = W.contents writer.old; written = W.contents writer.new }) result }
    ensures ended { OnOk result (R.has_ended reader.new ≡ true) }
    ensures taken { ForTaken R.takes R.lent R.has_ended reader.old reader.new (λ input left. Serves now (new_box (config_hosts config.now))
        (record { input = input; left = left; output = W.contents writer.old; written = W.contents writer.new }) result) }
{
    serve_telling(alloc, config, reader, writer, now, &mut Nobody)
}

/// Serves the objects of a stream, and tells of each what became of it.
fn serve_telling<R: Input, W: Output, J: Journal>(
    alloc: Global,
    config: &Config,
    reader: &mut R,
    writer: &mut W,
    now: Stamp,
    journal: &mut J,
) -> Result<ServeReport, ServeFault>
    ensures counts { IfOk result (λ report. report.refused ≤ report.objects) }
    ensures cause { IfErr result (StopsFor (R.has_failed reader.new) (W.has_failed writer.new)) }
    ensures mark { OnOk result (R.has_failed reader.new ≡ R.has_failed reader.old) }
    ensures told { IfErr result (KeepsButRead (R.has_failed reader.old) (R.has_failed reader.new)) }
    ensures sent { OnOk result (W.has_failed writer.new ≡ W.has_failed writer.old) }
    ensures unsent { IfErr result (KeepsButWrite (W.has_failed writer.old) (W.has_failed writer.new)) }
    ensures fills { IsFilledWithin 2 (R.fills reader.old) (R.fills reader.new) (R.remaining reader.old) (R.remaining reader.new) }
    ensures serves { Serves now (new_box (config_hosts config.now))
        (record { input = R.remaining reader.old; left = R.remaining reader.new; output = W.contents writer.old; written = W.contents writer.new }) result }
    ensures tells { IfOk result (λ report. (after : Box) × TellsAll J.tells journal.old journal.new now (new_box (config_hosts config.now)) after
        (record { input = R.remaining reader.old; left = R.remaining reader.new; output = W.contents writer.old; written = W.contents writer.new }) report) }
    ensures ended { OnOk result (R.has_ended reader.new ≡ true) }
    ensures taken { ForTaken R.takes R.lent R.has_ended reader.old reader.new (λ input left. Serves now (new_box (config_hosts config.now))
        (record { input = input; left = left; output = W.contents writer.old; written = W.contents writer.new }) result) }
    ensures taken_told { ForTaken R.takes R.lent R.has_ended reader.old reader.new (λ input left. IfOk result (λ report. (after : Box) × TellsAll J.tells journal.old journal.new now (new_box (config_hosts config.now)) after
        (record { input = input; left = left; output = W.contents writer.old; written = W.contents writer.new }) report)) }
{
    let mut books = Books::new(alloc, config)?;
    serve_objects(alloc, &mut books, reader, writer, now, MOST_OCTETS, journal)
}

/// What a room keeps after the same objects: its calendar and its certificate, for which the checker says yes.
/// Refused: 90 where the box doesn't host the room, before anything is read. `TooLong` comes only after 1,073,741,824 octets.
pub fn keep<R: Input>(
    alloc: Global,
    config: &Config,
    reader: &mut R,
    now: Stamp,
    room: &Address,
) -> Result<(Vec<u8>, Vec<u8>), StreamFault>
    ensures keeps { IfOk result (λ kept. KeepsTexts now (config_hosts config.now) (R.remaining reader.old) (R.remaining reader.new) (address_octets room.now) kept.0.items kept.1.items) }
    ensures passes { IfOk result (λ kept. CertificateHolds (address_octets room.now) kept.0.items kept.1.items) }
    ensures refuses { IfErr result RefusesPreamble }
    ensures cause { IfErr result (StreamStopsFor (R.has_failed reader.new) false) }
    ensures mark { OnOk result (R.has_failed reader.new ≡ R.has_failed reader.old) }
    ensures told { IfErr result (StreamKeepsButRead (R.has_failed reader.old) (R.has_failed reader.new)) }
    ensures none { IfErr result (IfRefusedStream (Contains (config_rooms config.now) (address_octets room.now) → ⊥)) }
    ensures bound { IfErr result (StopsKeeping (R.remaining reader.old) (R.remaining reader.new)) }
    ensures fills { IsFilledWithin 2 (R.fills reader.old) (R.fills reader.new) (R.remaining reader.old) (R.remaining reader.new) }
    ensures unhosted { (Contains (config_rooms config.now) (address_octets room.now) → ⊥)
        → IsErrAnd result IsRefusal × Keeps (R.remaining reader.old) (R.remaining reader.new) }
    ensures ended { OnOk result (R.has_ended reader.new ≡ true) }
    ensures taken { IfOk result (λ kept. ForTaken R.takes R.lent R.has_ended reader.old reader.new (λ input left. KeepsTexts now (config_hosts config.now) input left (address_octets room.now) kept.0.items kept.1.items)) }
{
    if !config.has_room(room) {
        return Err(not_hosted());
    }
    let mut books = Books::new(alloc, config)?;
    let mut nowhere = Nowhere;
    serve_objects(
        alloc,
        &mut books,
        reader,
        &mut nowhere,
        now,
        MOST_OCTETS,
        &mut Nobody,
    )?;
    let Some(kept) = books.room_at(room) else {
        return Err(not_hosted());
    };
    let texts = kept.kept()?;
    served_texts_pass();
    Ok((texts.calendar, texts.certificate))
}

/// What a room or an organiser gets that the box doesn't host: 90.
pub(crate) fn not_hosted() -> StreamFault
    ensures refuses { RefusesPreamble result }
    ensures cause { (reader writer : Bool) → StreamStopsFor reader writer result }
    ensures told { (reader : Bool) → StreamKeepsButRead reader reader result }
    ensures refusal { IsRefusal result }
    ensures bound { (input left : Option (List ℕ)) → StopsKeeping input left result }
{
    StreamFault::Refused(Refusal::BAD_PREAMBLE)
}

/// Serves the objects from whatever the books represent, of a stream of fewer octets than `most`, which is some, and tells what became of each.
pub(crate) fn serve_objects<R: Input, W: Output, J: Journal>(
    alloc: Global,
    books: &mut Books,
    reader: &mut R,
    writer: &mut W,
    now: Stamp,
    most: u64,
    journal: &mut J,
) -> Result<ServeReport, ServeFault>
    requires { 0 < most }
    ensures counts { IfOk result (λ report. report.refused ≤ report.objects) }
    ensures addresses { OnOk result (hosted_rooms books.new ≡ hosted_rooms books.old) }
    ensures cause { IfErr result (StopsFor (R.has_failed reader.new) (W.has_failed writer.new)) }
    ensures mark { OnOk result (R.has_failed reader.new ≡ R.has_failed reader.old) }
    ensures told { IfErr result (KeepsButRead (R.has_failed reader.old) (R.has_failed reader.new)) }
    ensures sent { OnOk result (W.has_failed writer.new ≡ W.has_failed writer.old) }
    ensures unsent { IfErr result (KeepsButWrite (W.has_failed writer.old) (W.has_failed writer.new)) }
    ensures ended { OnOk result (R.has_ended reader.new ≡ true) }
    ensures taken { ForTaken R.takes R.lent R.has_ended reader.old reader.new (ServesBooks J.tells journal.old journal.new most now books.old books.new
        (R.fills reader.old) (R.fills reader.new) (W.contents writer.old) (W.contents writer.new) result) }
    ensures fills { IsFilledWithin 2 (R.fills reader.old) (R.fills reader.new) (R.remaining reader.old) (R.remaining reader.new) }
    ensures bound { IfErr result (StopsWithin most (R.remaining reader.old) (R.remaining reader.new)) }
    ensures serves { (before : Box) → AreBooksOf books.old before → BooksServe most now before books.new
        (record { input = R.remaining reader.old; left = R.remaining reader.new; output = W.contents writer.old; written = W.contents writer.new }) result }
    ensures tells { (before : Box) → AreBooksOf books.old before → IfOk result (λ report. (after : Box) × AreBooksOf books.new after
        × TellsAll J.tells journal.old journal.new now before after
        (record { input = R.remaining reader.old; left = R.remaining reader.new; output = W.contents writer.old; written = W.contents writer.new }) report) }
{
    let mut objects = Objects::new(alloc, most);
    answer_each(alloc, &mut objects, books, reader, writer, now, journal)
}

/// Answers each object of a stream of which some octets may be read, in turn.
fn answer_each<R: Input, W: Output, J: Journal>(
    alloc: Global,
    objects: &mut Objects,
    books: &mut Books,
    reader: &mut R,
    writer: &mut W,
    now: Stamp,
    journal: &mut J,
) -> Result<ServeReport, ServeFault>
    requires { 0 < objects.old.left }
    ensures counts { IfOk result (λ report. report.refused ≤ report.objects) }
    ensures addresses { OnOk result (hosted_rooms books.new ≡ hosted_rooms books.old) }
    ensures cause { IfErr result (StopsFor (R.has_failed reader.new) (W.has_failed writer.new)) }
    ensures mark { OnOk result (R.has_failed reader.new ≡ R.has_failed reader.old) }
    ensures told { IfErr result (KeepsButRead (R.has_failed reader.old) (R.has_failed reader.new)) }
    ensures sent { OnOk result (W.has_failed writer.new ≡ W.has_failed writer.old) }
    ensures unsent { IfErr result (KeepsButWrite (W.has_failed writer.old) (W.has_failed writer.new)) }
    ensures ended { OnOk result (R.has_ended reader.new ≡ true) }
    ensures taken { ForTaken R.takes R.lent R.has_ended reader.old reader.new (ServesBooks J.tells journal.old journal.new objects.old.left now books.old books.new
        (R.fills reader.old) (R.fills reader.new) (W.contents writer.old) (W.contents writer.new) result) }
{
    let mut report = ServeReport {
        objects: 0,
        refused: 0,
    };
    let mut answers = Vec::new(alloc);
    while objects.next_object(reader)? {
        let number = report.objects + 1;
        answers.clear();
        let fate = books.take(objects.octets(), number, now, &mut answers)?;
        send(writer, answers.as_slice())?;
        journal.tell(number, objects.octets(), fate);
        report = ServeReport {
            objects: number,
            refused: report.refused + fate.refusals(),
        };
    }
    Ok(report)
}

/// Writes the answers to an object, if there are any.
fn send<W: Output>(writer: &mut W, answers: &[u8]) -> Result<(), ServeFault>
    ensures written { OnOk result (Appends (W.contents writer.old) (W.contents writer.new) answers.now) }
    ensures stops { IfErr result (StopsSending (W.contents writer.old) (W.contents writer.new) (W.has_failed writer.new) answers.now) }
    ensures sent { OnOk result (W.has_failed writer.new ≡ W.has_failed writer.old) }
    ensures unsent { IfErr result (KeepsButWrite (W.has_failed writer.old) (W.has_failed writer.new)) }
{
    if answers.is_empty() {
        return Ok(());
    }
    match writer.put(answers) {
        Ok(()) => Ok(()),
        Err(WriteFault::Failed) => Err(ServeFault::Write),
        Err(WriteFault::Memory) => Err(ServeFault::Memory),
    }
}
