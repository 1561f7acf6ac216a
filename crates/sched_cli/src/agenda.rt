//! `agenda`: what a room's calendar confirms in a span of time, by start and then by key; and when the room is free. Of a calendar whose events
//! name other rooms alone nothing is said of the room.
ghost use Rattle.std.specs.Prelude.{◌≡◌, ◌⊎◌, ◌≤◌, ℕ, List, false, option_map, IfOk, IfErr};
ghost use Rattle.std.specs.Io.KnownBytes.{Appends, Keeps};
ghost use Rattle.ical_values.specs.Octets.{address_octets};
ghost use Rattle.profile.specs.checker.Naming.{IsOfRoom};
ghost use Rattle.cal_zones.specs.Kinds.{zone_of};
ghost use Rattle.sched_cli.specs.Agendas.{IsAgendaFault, IsAgendaSaid, IsAgendaText, IsFreeText, IsPageText, IsPublishedText, IsReadFor, PrintsAgenda, PrintsFree, PrintsPage, PrintsPublished, RefusesAgenda, SaysCount, count_text, counted_words, free_status, named_words, none_names_text};
ghost use Rattle.sched_cli.specs.Commands.{BlamesDevice, SaysLine, TellsDevice};
ghost use Rattle.sched_cli.specs.declared.agenda.AgendaFault.TheVariants.{Unread};
ghost use Rattle.ical_lines.specs.declared.fault.Fault.TheVariants.{Memory};

use crate::blamed::report_calendar;
use crate::shown::append_cut;
use crate::status::{DONE, NO, REFUSED, report_memory, report_write, say};
use cal_agenda::{
    PageSpan, agenda, free_by, html_page, is_free, plain_address, publish, write_agenda,
    write_spans,
};
use cal_events::{Calendar, Span};
use cal_zones::Zone;
use ical_lines::Fault;
use ical_values::{Address, Stamp};
use itoa::Buffer;
use sched_box::Output;
use std::alloc::{AllocError, Global};

/// Why a calendar says nothing of a room.
#[derive(Clone, Copy)]
enum AgendaFault {
    /// It can't be read.
    Unread(Fault),
    /// It has events, and none of them names the room.
    OfOthers,
}

impl From<Fault> for AgendaFault {
    ghost from_gives = { λ fault e. e ≡ Unread fault };

    fn from(fault: Fault) -> AgendaFault {
        AgendaFault::Unread(fault)
    }
}

impl From<AllocError> for AgendaFault {
    ghost from_gives = { λ _ e. e ≡ Unread Memory };

    fn from(_error: AllocError) -> AgendaFault {
        AgendaFault::Unread(Fault::Memory)
    }
}

/// `agenda`: prints what the calendar confirms for this room in a span, as lines `start end UID organiser`; behind start and
/// end in UTC their local times where a zone is given.
pub fn run_agenda<W: Output, E: Output>(
    alloc: Global,
    calendar: &[u8],
    room: &Address,
    span: Span,
    zone: Option<Zone>,
    writer: &mut W,
    errors: &mut E,
) -> u8
    ensures agenda { result ≡ 0 → PrintsAgenda (option_map zone_of zone) (address_octets room.now) calendar.now span.start span.end (W.contents writer.old) (W.contents writer.new) }
    ensures unwritten { (result ≡ 3) ⊎ (result ≡ 5) → Keeps (W.contents writer.old) (W.contents writer.new) }
    ensures refused { result ≡ 3 → RefusesAgenda (address_octets room.now) calendar.now (E.contents errors.old) (E.contents errors.new) (E.may_lose errors.new) }
    ensures said { IsAgendaSaid result (address_octets room.now) calendar.now (E.contents errors.old) (E.contents errors.new) (E.may_lose errors.new) }
    ensures device { BlamesDevice false (W.has_failed writer.new) result }
    ensures told { TellsDevice result false false (W.has_failed writer.old) (W.has_failed writer.new) }
    ensures status { (result ≡ 0) ⊎ (result ≡ 3) ⊎ (result ≡ 4) ⊎ (result ≡ 5) }
{
    match agenda_text(alloc, calendar, room, span, zone) {
        Ok((text, count)) => {
            print_answer(alloc, room, text.as_slice(), DONE, count, writer, errors)
        }
        Err(fault) => report_agenda(alloc, calendar, room, fault, errors),
    }
}

/// The lines of what a calendar confirms for a room in a span.
fn agenda_text(
    alloc: Global,
    calendar: &[u8],
    room: &Address,
    span: Span,
    zone: Option<Zone>,
) -> Result<(Vec<u8>, u64), AgendaFault>
    ensures text { IfOk result (λ text. IsAgendaText (option_map zone_of zone) (address_octets room.now) calendar.now span.start span.end text.0.items) }
    ensures of_room { IfOk result (λ text. IsOfRoom (address_octets room.now) calendar.now text.1) }
    ensures fault { IfErr result (IsAgendaFault (address_octets room.now) calendar.now) }
{
    let (calendar, count) = read_calendar(alloc, calendar, room)?;
    let instances = agenda(alloc, &calendar, span)?;
    let mut text = Vec::new(alloc);
    write_agenda(alloc, &instances, zone, &mut text)?;
    Ok((text, count))
}

/// `free`: prints when this room is free in a span by its calendar, as lines `start end`, with their local times where a zone is given. The status is 0 where it is free all the time, and 1 where
/// it isn't.
pub fn run_free<W: Output, E: Output>(
    alloc: Global,
    calendar: &[u8],
    room: &Address,
    span: Span,
    zone: Option<Zone>,
    writer: &mut W,
    errors: &mut E,
) -> u8
    ensures free { result ≤ 1 → PrintsFree (option_map zone_of zone) result (address_octets room.now) calendar.now span.start span.end (W.contents writer.old) (W.contents writer.new) }
    ensures unwritten { (result ≡ 3) ⊎ (result ≡ 5) → Keeps (W.contents writer.old) (W.contents writer.new) }
    ensures refused { result ≡ 3 → RefusesAgenda (address_octets room.now) calendar.now (E.contents errors.old) (E.contents errors.new) (E.may_lose errors.new) }
    ensures said { IsAgendaSaid result (address_octets room.now) calendar.now (E.contents errors.old) (E.contents errors.new) (E.may_lose errors.new) }
    ensures device { BlamesDevice false (W.has_failed writer.new) result }
    ensures told { TellsDevice result false false (W.has_failed writer.old) (W.has_failed writer.new) }
    ensures status { (result ≤ 1) ⊎ (result ≡ 3) ⊎ (result ≡ 4) ⊎ (result ≡ 5) }
{
    match free_text(alloc, calendar, room, span, zone) {
        Ok((text, is_free, count)) => {
            let status = free_status(is_free);
            print_answer(alloc, room, text.as_slice(), status, count, writer, errors)
        }
        Err(fault) => report_agenda(alloc, calendar, room, fault, errors),
    }
}

/// The status that says whether the room is free.
fn free_status(is_free: bool) -> u8
    ensures value { result ≡ free_status is_free }
    ensures range { result ≤ 1 }
{
    if is_free { DONE } else { NO }
}

/// The lines of when a room is free by its calendar, and whether it is all the time of the span.
fn free_text(
    alloc: Global,
    calendar: &[u8],
    room: &Address,
    span: Span,
    zone: Option<Zone>,
) -> Result<(Vec<u8>, bool, u64), AgendaFault>
    ensures text { IfOk result (λ free. IsFreeText (option_map zone_of zone) (address_octets room.now) calendar.now span.start span.end free.1 free.0.items) }
    ensures of_room { IfOk result (λ free. IsOfRoom (address_octets room.now) calendar.now free.2) }
    ensures fault { IfErr result (IsAgendaFault (address_octets room.now) calendar.now) }
{
    let (calendar, count) = read_calendar(alloc, calendar, room)?;
    let instances = agenda(alloc, &calendar, span)?;
    let spans = free_by(alloc, &instances, span)?;
    let mut text = Vec::new(alloc);
    write_spans(alloc, &spans, zone, &mut text)?;
    Ok((text, is_free(&instances), count))
}

/// `agenda --ics`: prints an iCalendar object for subscribing, with a VEVENT for each instance that the calendar confirms for this room from a
/// moment on and before an instant.
pub fn run_published<W: Output, E: Output>(
    alloc: Global,
    calendar: &[u8],
    room: &Address,
    from: Stamp,
    until: i64,
    writer: &mut W,
    errors: &mut E,
) -> u8
    ensures published { result ≡ 0 → PrintsPublished (address_octets room.now) calendar.now from until (W.contents writer.old) (W.contents writer.new) }
    ensures unwritten { (result ≡ 3) ⊎ (result ≡ 5) → Keeps (W.contents writer.old) (W.contents writer.new) }
    ensures refused { result ≡ 3 → RefusesAgenda (address_octets room.now) calendar.now (E.contents errors.old) (E.contents errors.new) (E.may_lose errors.new) }
    ensures said { IsAgendaSaid result (address_octets room.now) calendar.now (E.contents errors.old) (E.contents errors.new) (E.may_lose errors.new) }
    ensures device { BlamesDevice false (W.has_failed writer.new) result }
    ensures told { TellsDevice result false false (W.has_failed writer.old) (W.has_failed writer.new) }
    ensures status { (result ≡ 0) ⊎ (result ≡ 3) ⊎ (result ≡ 4) ⊎ (result ≡ 5) }
{
    match published_text(alloc, calendar, room, from, until) {
        Ok((text, count)) => {
            print_answer(alloc, room, text.as_slice(), DONE, count, writer, errors)
        }
        Err(fault) => report_agenda(alloc, calendar, room, fault, errors),
    }
}

/// The object of what a calendar confirms for a room from a moment on and before an instant.
fn published_text(
    alloc: Global,
    calendar: &[u8],
    room: &Address,
    from: Stamp,
    until: i64,
) -> Result<(Vec<u8>, u64), AgendaFault>
    ensures text { IfOk result (λ text. IsPublishedText (address_octets room.now) calendar.now from until text.0.items) }
    ensures of_room { IfOk result (λ text. IsOfRoom (address_octets room.now) calendar.now text.1) }
    ensures fault { IfErr result (IsAgendaFault (address_octets room.now) calendar.now) }
{
    let (calendar, count) = read_calendar(alloc, calendar, room)?;
    let span = Span {
        start: from.instant(),
        end: until,
    };
    let instances = agenda(alloc, &calendar, span)?;
    let text = publish(alloc, plain_address(room.as_str()), from, &instances)?;
    Ok((text, count))
}

/// `agenda --html`: prints a page for the room's door, with what the calendar confirms for this room, and when it is free, of each day that a span
/// touches, by the clocks of a zone, or in UTC.
pub fn run_page<W: Output, E: Output>(
    alloc: Global,
    calendar: &[u8],
    room: &Address,
    span: PageSpan,
    zone: Option<Zone>,
    writer: &mut W,
    errors: &mut E,
) -> u8
    ensures page { result ≡ 0 → PrintsPage (option_map zone_of zone) (address_octets room.now) calendar.now span.start span.end (W.contents writer.old) (W.contents writer.new) }
    ensures unwritten { (result ≡ 3) ⊎ (result ≡ 5) → Keeps (W.contents writer.old) (W.contents writer.new) }
    ensures refused { result ≡ 3 → RefusesAgenda (address_octets room.now) calendar.now (E.contents errors.old) (E.contents errors.new) (E.may_lose errors.new) }
    ensures said { IsAgendaSaid result (address_octets room.now) calendar.now (E.contents errors.old) (E.contents errors.new) (E.may_lose errors.new) }
    ensures device { BlamesDevice false (W.has_failed writer.new) result }
    ensures told { TellsDevice result false false (W.has_failed writer.old) (W.has_failed writer.new) }
    ensures status { (result ≡ 0) ⊎ (result ≡ 3) ⊎ (result ≡ 4) ⊎ (result ≡ 5) }
{
    match page_text(alloc, calendar, room, span, zone) {
        Ok((text, count)) => {
            print_answer(alloc, room, text.as_slice(), DONE, count, writer, errors)
        }
        Err(fault) => report_agenda(alloc, calendar, room, fault, errors),
    }
}

/// The page of what a calendar confirms for a room on the days that a span touches.
fn page_text(
    alloc: Global,
    calendar: &[u8],
    room: &Address,
    span: PageSpan,
    zone: Option<Zone>,
) -> Result<(Vec<u8>, u64), AgendaFault>
    ensures text { IfOk result (λ text. IsPageText (option_map zone_of zone) (address_octets room.now) calendar.now span.start span.end text.0.items) }
    ensures of_room { IfOk result (λ text. IsOfRoom (address_octets room.now) calendar.now text.1) }
    ensures fault { IfErr result (IsAgendaFault (address_octets room.now) calendar.now) }
{
    let (calendar, count) = read_calendar(alloc, calendar, room)?;
    let text = html_page(alloc, plain_address(room.as_str()), &calendar, zone, span)?;
    Ok((text, count))
}

/// The calendar of a room, and how many of its events name the room, which hasn't accepted them, and aren't cancelled.
fn read_calendar(
    alloc: Global,
    calendar: &[u8],
    room: &Address,
) -> Result<(Calendar, u64), AgendaFault>
    ensures read { IfOk result (λ read. IsReadFor (address_octets room.now) calendar.now read.0 read.1) }
    ensures fault { IfErr result (IsAgendaFault (address_octets room.now) calendar.now) }
{
    let (calendar, naming) = Calendar::read_naming(alloc, calendar, room)?;
    if !naming.is_of_room() {
        return Err(AgendaFault::OfOthers);
    }
    Ok((calendar, naming.not_accepted()))
}

/// Prints an answer, whole, and says then how many events of the calendar name the room and aren't accepted. This is the status, 0 or 1.
#[tactic(auto, using(crate::proofs::AgendaSaid::said_memory, crate::proofs::AgendaSaid::said_unwritten, crate::proofs::AgendaSaid::said_done))]
fn print_answer<W: Output, E: Output>(
    alloc: Global,
    room: &Address,
    text: &[u8],
    status: u8,
    count: u64,
    writer: &mut W,
    errors: &mut E,
) -> u8
    requires { status ≤ 1 }
    ensures written { result ≤ 1 → Appends (W.contents writer.old) (W.contents writer.new) text.now }
    ensures given { result ≤ 1 → result ≡ status }
    ensures unwritten { result ≡ 5 → Keeps (W.contents writer.old) (W.contents writer.new) }
    ensures said { (octets : List ℕ) → IsOfRoom (address_octets room.now) octets count → IsAgendaSaid result (address_octets room.now) octets (E.contents errors.old) (E.contents errors.new) (E.may_lose errors.new) }
    ensures device { BlamesDevice false (W.has_failed writer.new) result }
    ensures told { TellsDevice result false false (W.has_failed writer.old) (W.has_failed writer.new) }
    ensures status { (result ≡ status) ⊎ (result ≡ 4) ⊎ (result ≡ 5) }
{
    let Ok(line) = count_line(alloc, room, count) else {
        return report_memory(errors);
    };
    match writer.put(text) {
        Ok(()) => {
            say_count(errors, count, line.as_slice());
            status
        }
        Err(fault) => report_write(errors, fault),
    }
}

/// Says in this line how many events aren't accepted, where there are such.
#[tactic(auto, using(crate::proofs::AgendaSaid::says_some, crate::proofs::AgendaSaid::says_none))]
fn say_count<E: Output>(errors: &mut E, count: u64, line: &[u8])
    ensures { (room : List ℕ) → line.now ≡ count_text room count → SaysCount room count (E.contents errors.old) (E.contents errors.new) (E.may_lose errors.new) }
{
    if count > 0 {
        say(errors, line);
    }
}

/// `roombox: 12 events name mailto:r1@example.com and aren't accepted`, as a line.
fn count_line(alloc: Global, room: &Address, count: u64) -> Result<Vec<u8>, AllocError>
    ensures { IfOk result (λ line. line.items ≡ count_text (address_octets room.now) count) }
{
    let mut digits = Buffer::new();
    let mut line = Vec::new(alloc);
    line.extend_from_slice(b"roombox: ")?;
    line.extend_from_slice(digits.format(count).as_bytes())?;
    line.extend_from_slice(named_words(count).as_bytes())?;
    append_cut(&mut line, room.as_str().as_bytes())?;
    line.extend_from_slice(counted_words(count).as_bytes())?;
    Ok(line)
}

fn named_words(count: u64) -> &'static str
    ensures { result.now ≡ named_words count }
{
    match count {
        1 => " event names ",
        _ => " events name ",
    }
}

fn counted_words(count: u64) -> &'static str
    ensures { result.now ≡ counted_words count }
{
    match count {
        1 => " and isn't accepted\n",
        _ => " and aren't accepted\n",
    }
}

/// Says why a calendar says nothing of a room, and gives the status for it.
#[tactic(auto, using(crate::proofs::AgendaSaid::said_memory, crate::proofs::AgendaSaid::said_refused))]
fn report_agenda<E: Output>(
    alloc: Global,
    calendar: &[u8],
    room: &Address,
    fault: AgendaFault,
    errors: &mut E,
) -> u8
    ensures status { (result ≡ 3) ⊎ (result ≡ 5) }
    ensures refused { IsAgendaFault (address_octets room.now) calendar.now fault → result ≡ 3 → RefusesAgenda (address_octets room.now) calendar.now (E.contents errors.old) (E.contents errors.new) (E.may_lose errors.new) }
    ensures said { IsAgendaSaid result (address_octets room.now) calendar.now (E.contents errors.old) (E.contents errors.new) (E.may_lose errors.new) }
{
    match fault {
        AgendaFault::Unread(Fault::Refused(refusal)) => {
            report_calendar(alloc, calendar, refusal, errors)
        }
        AgendaFault::Unread(Fault::Memory) => report_memory(errors),
        AgendaFault::OfOthers => report_others(alloc, room, errors),
    }
}

/// Says that no event names the room, and gives the status for it.
#[tactic(auto, using(crate::proofs::AgendaSaid::said_memory, crate::proofs::AgendaSaid::said_refused))]
fn report_others<E: Output>(alloc: Global, room: &Address, errors: &mut E) -> u8
    ensures status { (result ≡ 3) ⊎ (result ≡ 5) }
    ensures says { result ≡ 3 → SaysLine (none_names_text (address_octets room.now)) (E.contents errors.old) (E.contents errors.new) (E.may_lose errors.new) }
    ensures said { (octets : List ℕ) → IsAgendaSaid result (address_octets room.now) octets (E.contents errors.old) (E.contents errors.new) (E.may_lose errors.new) }
{
    let Ok(line) = others_line(alloc, room) else {
        return report_memory(errors);
    };
    say(errors, line.as_slice());
    REFUSED
}

/// `roombox: no event names mailto:r1@example.com`, as a line.
fn others_line(alloc: Global, room: &Address) -> Result<Vec<u8>, AllocError>
    ensures { IfOk result (λ line. line.items ≡ none_names_text (address_octets room.now)) }
{
    let mut line = Vec::new(alloc);
    line.extend_from_slice(b"roombox: no event names ")?;
    append_cut(&mut line, room.as_str().as_bytes())?;
    line.extend_from_slice(b"\n")?;
    Ok(line)
}
