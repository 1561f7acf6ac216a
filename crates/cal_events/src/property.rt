//! The properties of a VEVENT that are read (RFC 5545 3.8), and how often METHOD lets each occur (RFC 5545 3.6.1, RFC 5546 3.2): one table.
ghost use Rattle.std.specs.Prelude.{◌≡◌, map, option_map, IsTrue};
ghost use Rattle.std.specs.List.{find};
ghost use Rattle.ical_lines.specs.Text.{line_text};
ghost use Rattle.profile.specs.faults.Faults.{is_event_fault};
ghost use Rattle.profile.specs.events.EventComponents.{bars_recurrence, is_named_by, is_never, is_of_one, is_once, is_single, missing_number, names_by_fixed, presence, properties, property_name};
ghost use Rattle.cal_events.specs.Component.{method_read};
ghost use Rattle.cal_events.specs.Property.{presence_said, property_said};

use crate::method::Method;
use ical_lines::{Line, Refusal};

/// A property of a VEVENT that is read.
#[derive(Clone, Copy, PartialEq, Eq)]
pub enum Property {
    Uid,
    Organizer,
    Dtstamp,
    Sequence,
    Status,
    RecurrenceId,
    Dtstart,
    Dtend,
    Duration,
    Rrule,
    Rdate,
    Exdate,
    Attendee,
    Summary,
}

/// All, in the order in which they are read.
pub const PROPERTIES: [Property; 14] = [
    Property::Uid,
    Property::Organizer,
    Property::Dtstamp,
    Property::Sequence,
    Property::Status,
    Property::RecurrenceId,
    Property::Dtstart,
    Property::Dtend,
    Property::Duration,
    Property::Rrule,
    Property::Rdate,
    Property::Exdate,
    Property::Attendee,
    Property::Summary,
];

/// How often a property occurs in a VEVENT.
#[derive(Clone, Copy, PartialEq, Eq)]
pub enum Presence {
    Once,
    AtMostOnce,
    AnyNumber,
    Never,
    /// Once or more, each time with the same address.
    OfOne,
}

impl Presence {
    /// Whether the property occurs exactly once.
    pub fn is_once(self) -> bool
        ensures { result ≡ is_once (presence_said self) }
    {
        matches!(self, Presence::Once)
    }

    /// Whether it occurs at most once.
    pub fn is_single(self) -> bool
        ensures { result ≡ is_single (presence_said self) }
    {
        matches!(self, Presence::Once | Presence::AtMostOnce)
    }

    /// Whether it may not occur.
    pub fn is_never(self) -> bool
        ensures { result ≡ is_never (presence_said self) }
    {
        matches!(self, Presence::Never)
    }

    /// Whether it occurs once or more, each time with the same address.
    pub fn is_of_one(self) -> bool
        ensures { result ≡ is_of_one (presence_said self) }
    {
        matches!(self, Presence::OfOne)
    }
}

impl Property {
    /// Its name, as RFC 5545 writes it.
    pub fn name(self) -> &'static str
        ensures { result.now ≡ property_name (property_said self) }
    {
        match self {
            Property::Uid => "UID",
            Property::Organizer => "ORGANIZER",
            Property::Dtstamp => "DTSTAMP",
            Property::Sequence => "SEQUENCE",
            Property::Status => "STATUS",
            Property::RecurrenceId => "RECURRENCE-ID",
            Property::Dtstart => "DTSTART",
            Property::Dtend => "DTEND",
            Property::Duration => "DURATION",
            Property::Rrule => "RRULE",
            Property::Rdate => "RDATE",
            Property::Exdate => "EXDATE",
            Property::Attendee => "ATTENDEE",
            Property::Summary => "SUMMARY",
        }
    }

    /// Whether a line is of it; names are compared caseless.
    pub fn names(self, line: Line<'_>) -> bool
        ensures { result ≡ is_named_by (line_text line.entry) (property_said self) }
    {
        line.is_named(self.name())
    }

    /// The property that a line is of, None where that isn't read.
    pub fn named(line: Line<'_>) -> Option<Property>
        ensures { option_map property_said result ≡ find (is_named_by (line_text line.entry)) properties }
    {
        first_of(line, &PROPERTIES)
    }

    /// How often it occurs in a VEVENT of an object of this METHOD, or of one whose METHOD is ignored.
    pub fn presence(self, method: Option<Method>) -> Presence
        ensures { presence_said result ≡ presence (property_said self) (method_read method) }
    {
        match (self, method) {
            (Property::Uid, _) => Presence::Once,
            (Property::Organizer | Property::Dtstamp, None) => Presence::AtMostOnce,
            (Property::Organizer | Property::Dtstamp, Some(_)) => Presence::Once,
            (Property::Sequence | Property::Status | Property::RecurrenceId, _) => {
                Presence::AtMostOnce
            }
            (Property::Dtstart, Some(Method::Cancel | Method::Reply | Method::Refresh)) => {
                Presence::AtMostOnce
            }
            (Property::Dtstart, _) => Presence::Once,
            (Property::Dtend | Property::Duration, _) => Presence::AtMostOnce,
            (Property::Rrule | Property::Rdate, Some(Method::Add)) => Presence::Never,
            (Property::Rrule, _) => Presence::AtMostOnce,
            (Property::Attendee, Some(Method::Reply | Method::Refresh)) => Presence::OfOne,
            (Property::Rdate | Property::Exdate | Property::Attendee | Property::Summary, _) => {
                Presence::AnyNumber
            }
        }
    }

    /// What a VEVENT is refused with in which it is missing.
    pub(crate) fn missing(self) -> Refusal
        ensures number { result.number ≡ missing_number (property_said self) }
        ensures event { IsTrue (is_event_fault result.number) }
    {
        match self {
            Property::Organizer => Refusal::NO_ORGANIZER,
            _ => Refusal::BAD_PROPERTY,
        }
    }
}

/// The first of some properties that a line is of.
fn first_of(line: Line<'_>, properties: &[Property]) -> Option<Property>
    ensures { option_map property_said result ≡ find (is_named_by (line_text line.entry)) (map property_said properties.now) }
{
    for property in properties {
        if property.names(line) {
            return Some(*property);
        }
    }
    None
}

/// Whether RRULE and RDATE may not occur: each VEVENT is a single instance.
pub(crate) fn bars_recurrence(method: Option<Method>) -> bool
    ensures { result ≡ bars_recurrence (method_read method) }
{
    Property::Rrule.presence(method).is_never() || Property::Rdate.presence(method).is_never()
}

/// Whether RECURRENCE-ID names an instance by a fixed time: in what is stored, and in what is answered to it.
pub(crate) fn names_by_fixed(method: Option<Method>) -> bool
    ensures { result ≡ names_by_fixed (method_read method) }
{
    matches!(method, Some(Method::Store | Method::Reply))
}
