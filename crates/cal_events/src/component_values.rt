//! The values of a VEVENT's properties, each read by itself: UID, ORGANIZER, DTSTAMP, SEQUENCE, STATUS, SUMMARY and ATTENDEE.
ghost use Rattle.std.specs.Prelude.{ℕ, List, ◌≡◌, Some, map, codes, option_map, IfOk, IfErr, IsTrue, Option};
ghost use Rattle.std.specs.List.{AllZip};
ghost use Rattle.ical_lines.specs.Fault.{RefusesOnly, RefusesBy, RefusesAt, RefusesWhere};
ghost use Rattle.ical_tree.specs.Own.{own_lines, numbered_own};
ghost use Rattle.profile.specs.events.EventBlame.{EventBlame};
ghost use Rattle.profile.specs.series.ZoneBlame.{NumberedZone};
ghost use Rattle.ical_lines.specs.Text.{line_text};
ghost use Rattle.ical_values.specs.Octets.{address_octets, text_octets};
ghost use Rattle.profile.specs.text.Trees.{Tree};
ghost use Rattle.profile.specs.faults.Faults.{is_event_fault};
ghost use Rattle.profile.specs.events.EventComponents.{Method as SaidMethod, DTSTAMP, ORGANIZER, UID, is_by_server, summary_of, IsAttendee, EventComponentFault, SaysAs, SaysSequence};
ghost use Rattle.profile.specs.events.Occurrences.{SaysStatus};
ghost use Rattle.profile.specs.events.Properties.{lines_named, IsUidLine, IsAddressLine, IsStampLine, IsNoAddress};
ghost use Rattle.cal_events.specs.Component.{method_read, attendee_of};

use crate::component::{Attendee, PartStat};
use crate::method::Method;
use crate::properties::{first_named, line_of};
use crate::property::Property;
use ical_lines::{Fault, Line, Refusal};
use ical_tree::Properties;
use ical_values::{Address, Sequence, Stamp, Text};
use std::alloc::{AllocError, Global};

pub(crate) fn read_uid(
    alloc: Global,
    properties: &Properties<'_>,
    method: Option<Method>,
) -> Result<Text, Fault>
    ensures reads { IfOk result (λ uid. SaysAs (method_read method) UID IsUidLine (own_lines properties.now) (Some (text_octets uid))) }
    ensures refuses { IfErr result (RefusesOnly is_event_fault) }
    ensures fault { (object : Tree) → IfErr result (RefusesBy (EventComponentFault object (method_read method) (own_lines properties.now))) }
    ensures at { (zones : List NumberedZone) → IfErr result (RefusesWhere (EventBlame (method_read method) zones (numbered_own properties.now))) }
{
    match line_of(properties, Property::Uid, method)? {
        Some(line) => line.placed_fault(Text::read_uid(alloc, line.value())),
        None => unreachable!(),
    }
}

pub(crate) fn read_organiser(
    alloc: Global,
    properties: &Properties<'_>,
    method: Option<Method>,
) -> Result<Option<Address>, Fault>
    ensures reads { IfOk result (λ found. SaysAs (method_read method) ORGANIZER IsAddressLine (own_lines properties.now) (option_map address_octets found)) }
    ensures refuses { IfErr result (RefusesOnly is_event_fault) }
    ensures fault { (object : Tree) → IfErr result (RefusesBy (EventComponentFault object (method_read method) (own_lines properties.now))) }
    ensures at { (zones : List NumberedZone) → IfErr result (RefusesWhere (EventBlame (method_read method) zones (numbered_own properties.now))) }
{
    match line_of(properties, Property::Organizer, method)? {
        Some(line) => Ok(Some(line.placed_fault(Address::read(alloc, line.value()))?)),
        None => Ok(None),
    }
}

pub(crate) fn read_stamp(
    properties: &Properties<'_>,
    method: Option<Method>,
) -> Result<Option<Stamp>, Refusal>
    ensures reads { IfOk result (λ found. SaysAs (method_read method) DTSTAMP IsStampLine (own_lines properties.now) found) }
    ensures refuses { IfErr result (λ e. IsTrue (is_event_fault e.number)) }
    ensures fault { (object : Tree) → IfErr result (λ e. EventComponentFault object (method_read method) (own_lines properties.now) e.number) }
    ensures at { (zones : List NumberedZone) → IfErr result (λ e. EventBlame (method_read method) zones (numbered_own properties.now) e.number e.line) }
{
    match line_of(properties, Property::Dtstamp, method)? {
        Some(line) => Ok(Some(line.placed(Stamp::read(line.value()))?)),
        None => Ok(None),
    }
}

pub(crate) fn read_sequence(
    properties: &Properties<'_>,
    method: Option<Method>,
) -> Result<Sequence, Refusal>
    ensures reads { IfOk result (SaysSequence (own_lines properties.now)) }
    ensures refuses { IfErr result (λ e. IsTrue (is_event_fault e.number)) }
    ensures fault { (object : Tree) → IfErr result (λ e. EventComponentFault object (method_read method) (own_lines properties.now) e.number) }
    ensures at { (zones : List NumberedZone) → IfErr result (λ e. EventBlame (method_read method) zones (numbered_own properties.now) e.number e.line) }
{
    match line_of(properties, Property::Sequence, method)? {
        Some(line) => line.placed(Sequence::read(line.value())),
        None => Ok(Sequence::zero()),
    }
}

/// Whether STATUS is CANCELLED, caseless.
pub(crate) fn read_cancelled(
    properties: &Properties<'_>,
    method: Option<Method>,
) -> Result<bool, Refusal>
    ensures reads { IfOk result (SaysStatus (own_lines properties.now)) }
    ensures fault { (object : Tree) → IfErr result (λ e. EventComponentFault object (method_read method) (own_lines properties.now) e.number) }
    ensures at { (zones : List NumberedZone) → IfErr result (λ e. EventBlame (method_read method) zones (numbered_own properties.now) e.number e.line) }
{
    match line_of(properties, Property::Status, method)? {
        Some(line) => Ok(line.value().eq_ignore_ascii_case("CANCELLED")),
        None => Ok(false),
    }
}

/// SUMMARY, the first of several; empty where it is missing. It fails only when out of memory.
pub(crate) fn read_summary(alloc: Global, properties: &Properties<'_>) -> Result<Text, AllocError>
    ensures { IfOk result (λ text. text_octets text ≡ summary_of (own_lines properties.now)) }
{
    match first_named(properties, Property::Summary) {
        Some(line) => Text::read(alloc, line.value()),
        None => Text::of(alloc, ""),
    }
}

pub(crate) fn read_attendees(
    alloc: Global,
    properties: &Properties<'_>,
) -> Result<Vec<Attendee>, Fault>
    ensures reads { IfOk result (λ v. AllZip IsAttendee (lines_named (codes "ATTENDEE") (own_lines properties.now)) (map attendee_of v.items)) }
    ensures refuses { IfErr result (RefusesOnly is_event_fault) }
    ensures fault { (object : Tree) (method : Option SaidMethod) → IfErr result (RefusesBy (EventComponentFault object method (own_lines properties.now))) }
    ensures at { (method : Option SaidMethod) (zones : List NumberedZone) → IfErr result (RefusesWhere (EventBlame method zones (numbered_own properties.now))) }
{
    let mut attendees = Vec::new(alloc);
    for line in properties.lines() {
        if Property::Attendee.names(*line) {
            attendees.push(read_attendee(alloc, *line)?)?;
        }
    }
    Ok(attendees)
}

fn read_attendee(alloc: Global, line: Line<'_>) -> Result<Attendee, Fault>
    ensures reads { IfOk result (λ attendee. IsAttendee (line_text line.entry) (attendee_of attendee)) }
    ensures refuses { IfErr result (RefusesOnly is_event_fault) }
    ensures fault { IfErr result (RefusesBy (λ n. (n ≡ 15) × IsNoAddress (line_text line.entry))) }
    ensures at { IfErr result (RefusesAt (λ at. at ≡ line.entry.number)) }
{
    let address = line.placed_fault(Address::read(alloc, line.value()))?;
    let status = PartStat::of(line.param("PARTSTAT"));
    let scheduled = is_by_server(line);
    Ok(Attendee {
        address,
        status,
        scheduled,
    })
}

/// Whether it is left to the server to send messages to an attendee.
fn is_by_server(line: Line<'_>) -> bool
    ensures { result ≡ is_by_server (line_text line.entry) }
{
    match line.param("SCHEDULE-AGENT") {
        Some(agent) => agent.eq_ignore_ascii_case("SERVER"),
        None => true,
    }
}
