//! One VEVENT, read: its values, judged one property after another in a fixed order, and then
//! together (RFC 5545 3.6.1).
ghost use Rattle.std.specs.Prelude.{ℕ, List, [], true, is_some, unwrap_or, ◌≡◌, pos, ◌+ℤ◌, option_map, IfOk, IfErr, Option};
ghost use Rattle.ical_lines.specs.Fault.{RefusesBy, RefusesWhere};
ghost use Rattle.ical_tree.specs.Own.{own_lines, numbered_own};
ghost use Rattle.ical_values.specs.Octets.{address_octets};
ghost use Rattle.profile.specs.text.Trees.{Tree};
ghost use Rattle.profile.specs.events.EventComponents.{EventComponent as SaidComponent, Method as SaidMethod, answer_named, answer_of, SaysEventComponent, EventComponentFault};
ghost use Rattle.profile.specs.events.Properties.{length_seconds, TimeFault};
ghost use Rattle.profile.specs.events.ZonedTimes.{clock_of};
ghost use Rattle.profile.specs.events.EventBlame.{EventBlame};
ghost use Rattle.cal_events.specs.Blame.{zones_of};
ghost use Rattle.cal_events.specs.Zones.{object_of, AreRead};
ghost use Rattle.cal_events.specs.MeetingComponents.{IsInEventDates};
ghost use Rattle.cal_events.specs.Clocks.{IsSteady};
ghost use Rattle.cal_events.specs.Times.{times_of, zone_said};
ghost use Rattle.cal_events.specs.Said.{AreSaidWith};

use crate::component_values::{
    read_attendees, read_cancelled, read_organiser, read_sequence, read_stamp, read_summary,
    read_uid,
};
use crate::event_rule::SaidRule;
use crate::event_times::{EventTimes, SaidTimes, seconds_of};
use crate::method::Method;
use crate::occurrences::{
    Listing, SaidInstant, SaidInstants, WrittenTimes, instants_of, judge_recurrence,
    refuse_recurring_instance, refuse_unfixed,
};
use crate::properties::has;
use crate::property::{Property, bars_recurrence, names_by_fixed};
use crate::when::one_zoned_time;
use crate::zones::ZonesOfObject;
use cal_rules::{Rule, one_rule};
use ical_lines::Fault;
use ical_tree::Properties;
use ical_values::duration::one_duration;
use ical_values::sequence::one_sequence;
use ical_values::stamp::one_stamp;
use ical_values::{Address, Sequence, Stamp, Text};
use std::alloc::Global;

/// What an attendee answered (RFC 5545 3.2.12, for VEVENT).
#[derive(Clone, Copy, PartialEq, Eq)]
pub enum PartStat {
    NeedsAction,
    Tentative,
    Accepted,
    Delegated,
    Declined,
}

impl PartStat {
    ghost use Rattle.cal_events.specs.Component.{participation_of};

    /// The status that a PARTSTAT word names (caseless); NeedsAction where it is missing or unknown.
    pub fn of(word: Option<&str>) -> PartStat
        ensures { participation_of result ≡ answer_named (option_map (λ x. x.now) word.entry) }
    {
        match word {
            Some(word) if word.eq_ignore_ascii_case("ACCEPTED") => PartStat::Accepted,
            Some(word) if word.eq_ignore_ascii_case("DECLINED") => PartStat::Declined,
            Some(word) if word.eq_ignore_ascii_case("TENTATIVE") => PartStat::Tentative,
            Some(word) if word.eq_ignore_ascii_case("DELEGATED") => PartStat::Delegated,
            _ => PartStat::NeedsAction,
        }
    }
}

/// An ATTENDEE line (RFC 5545 3.8.4.1).
#[derive(Drop)]
pub struct Attendee {
    pub address: Address,
    pub status: PartStat,
    /// Whether it is left to the server to send messages to it: SCHEDULE-AGENT is SERVER or missing (RFC 6638 7.1).
    pub scheduled: bool,
}

/// What a VEVENT says.
#[derive(Drop)]
pub struct EventComponent {
    /// The number of its BEGIN among the logical lines of the octets that it was read from.
    pub begun: usize,
    pub uid: Text,
    /// None where ORGANIZER is missing, which only a calendar may have.
    pub organiser: Option<Address>,
    /// DTSTAMP, None where it is missing, which only a calendar may have.
    pub stamp: Option<Stamp>,
    /// SEQUENCE, 0 where it is missing.
    pub sequence: Sequence,
    /// Whether STATUS is CANCELLED (RFC 5545 3.8.1.11).
    pub cancelled: bool,
    /// RECURRENCE-ID: the original start of the instance that it replaces (RFC 5545 3.8.4.4), in seconds from
    /// 1970-01-01T00:00:00Z. None where it isn't a single instance of a meeting.
    pub recurrence: Option<i64>,
    /// When it starts and how long it lasts.
    pub times: EventTimes,
    /// The rule by which it recurs, on the days of DTSTART's own clock. None where it happens once.
    pub rule: Option<Rule>,
    /// RDATE: the starts that are added (RFC 5545 3.8.5.2), in the order of the text and in the same seconds. At most 366.
    pub additions: Vec<i64>,
    /// EXDATE: the starts that are taken away (RFC 5545 3.8.5.1), likewise; they may be in any year from 1 to 9999.
    pub exceptions: Vec<i64>,
    /// RECURRENCE-ID, RDATE and EXDATE as they are written.
    pub written: WrittenTimes,
    /// SUMMARY, that of the first line where there are several; empty where it is missing (RFC 5545 3.8.1.12).
    pub summary: Text,
    /// The ATTENDEE lines in the order of the text. Of several with one address the first counts.
    pub attendees: Vec<Attendee>,
    ghost steady: { IsSteady (clock_of (zone_said times.start)) },
    ghost named: { IsInEventDates times.instant },
    ghost said: { is_some rule ≡ true → ∥ AreSaidWith (times_of times) rule ∥₁ },
}

impl EventComponent {
    ghost use Rattle.cal_events.specs.Component.{component_of, length_of, method_read, participation_of};

    /// Reads the properties of a VEVENT of an object of this METHOD, or of one whose METHOD is ignored; its times may name these zones.
    /// Refused, in this order: of UID, ORGANIZER, DTSTAMP, SEQUENCE and STATUS 10 and 14 to 16 for a value, 61 and 63 as by `Property::presence`
    /// for one that is missing or occurs twice; as by `SaidInstant::read_recurrence` for RECURRENCE-ID; as by `SaidTimes::read` for DTSTART,
    /// DTEND and DURATION; 61 and 30 to 33 for RRULE; as by `SaidInstants::read` for RDATE and EXDATE; 15 for an ATTENDEE;
    /// 57 for a RECURRENCE-ID that isn't fixed, in what is stored or answered; as by `SaidTimes::judge` for the times together;
    /// 52 for a RECURRENCE-ID or an RDATE outside of the dates that an event may name; 67 for RRULE or RDATE in a single instance;
    /// 34 for a DTSTART that isn't one of the rule's days.
    pub(crate) fn read(
        alloc: Global,
        zones: &ZonesOfObject<'_, '_>,
        properties: &Properties<'_>,
        method: Option<Method>,
    ) -> Result<EventComponent, Fault>
        requires zones { AreRead zones.now }
        ensures says { IfOk result (λ event. SaysEventComponent (object_of zones.now) (method_read method) (own_lines properties.now) (component_of event)) }
        ensures fault { IfErr result (RefusesBy (EventComponentFault (object_of zones.now) (method_read method) (own_lines properties.now))) }
        ensures begun { IfOk result (λ event. event.begun ≡ properties.now.begun) }
        ensures at { IfErr result (RefusesWhere (EventBlame (method_read method) (zones_of zones.now) (numbered_own properties.now))) }
    {
        let uid = read_uid(alloc, properties, method)?;
        let organiser = read_organiser(alloc, properties, method)?;
        let stamp = read_stamp(properties, method)?;
        let sequence = read_sequence(properties, method)?;
        let cancelled = read_cancelled(properties, method)?;
        let said_recurrence = SaidInstant::read_recurrence(zones, properties, method)?;
        let said = SaidTimes::read(zones, properties, method)?;
        let said_rule = SaidRule::read(alloc, properties, method)?;
        let said_additions = SaidInstants::read(alloc, zones, properties, Listing::Additions)?;
        let said_exceptions = SaidInstants::read(alloc, zones, properties, Listing::Exceptions)?;
        let attendees = read_attendees(alloc, properties)?;
        let summary = read_summary(alloc, properties)?;
        refuse_unfixed(said_recurrence, names_by_fixed(method))?;
        let times = said.judge()?;
        let written = WrittenTimes {
            recurrence: judge_recurrence(said_recurrence)?,
            additions: said_additions.judge()?,
            exceptions: said_exceptions.times,
        };
        refuse_recurring_instance(properties, bars_recurrence(method))?;
        let rule = said_rule.judge(&times, has(properties, Property::Dtstart))?;
        let additions = instants_of(alloc, &written.additions)?;
        let exceptions = instants_of(alloc, &written.exceptions)?;
        Ok(EventComponent {
            begun: properties.begun(),
            uid,
            organiser,
            stamp,
            sequence,
            cancelled,
            recurrence: written.instant(),
            times,
            rule,
            additions,
            exceptions,
            written,
            summary,
            attendees,
        })
    }

    /// The first second after the event, in seconds from 1970-01-01T00:00:00Z.
    pub fn end(&self) -> i64
        ensures { result ≡ self.now.times.instant +ℤ pos (length_seconds (length_of self.now.times.length)) }
    {
        let EventTimes {
            instant,
            length,
            ..
        } = self.times;
        instant.instant().saturating_add(seconds_of(length))
    }

    /// The ORGANIZER's address; the empty text where there is none.
    pub(crate) fn organiser_text(&self) -> &str
        ensures { result.now ≡ unwrap_or (component_of self.now).organiser [] }
    {
        match &self.organiser {
            Some(organiser) => organiser.as_str(),
            None => "",
        }
    }

    /// What the attendee of this address answered, None where none has it.
    pub fn status_of(&self, address: &Address) -> Option<PartStat>
        ensures { option_map participation_of result ≡ answer_of (address_octets address.now) (component_of self.now) }
    {
        for attendee in &self.attendees {
            if attendee.address == *address {
                return Some(attendee.status);
            }
        }
        None
    }
}

/// The lines of a VEVENT of an object say at most one event, and none where they have a fault. A start or an end
/// without TZID has at most one fault.
pub fn one_event()
    ensures one { (object : Tree) (method : Option SaidMethod) (lines : List (List ℕ)) (a b : SaidComponent)
        → SaysEventComponent object method lines a → SaysEventComponent object method lines b → a ≡ b }
    ensures or_a_fault { (object : Tree) (method : Option SaidMethod) (lines : List (List ℕ)) (a : SaidComponent) (n : ℕ)
        → SaysEventComponent object method lines a → EventComponentFault object method lines n → ⊥ }
    ensures one_number { (line : List ℕ) (m n : ℕ) → TimeFault line m → TimeFault line n → m ≡ n }
{
    one_stamp();
    one_duration();
    one_sequence();
    one_zoned_time();
    one_rule();
}
