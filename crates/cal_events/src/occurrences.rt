//! Which instance of a meeting a VEVENT is for (RECURRENCE-ID, RFC 5545 3.8.4.4), and which starts it adds to those of its
//! rule and which it takes away (RDATE 3.8.5.2, EXDATE 3.8.5.1): first as they are said, then judged together with the rest.

ghost use Rattle.std.specs.Prelude.{◌≡◌, ◌⊎◌, ◌<◌, ◌∷◌, ◌++◌, ◌==◌, ◌||◌, [], List, ℕ, Bool, codes, map, option_map, is_some, true, false, Contains, Option, Some, IfOk, IfErr, IfSome, OnOk, OnErr};
ghost use Rattle.std.specs.List.{AllZip, list_any};
ghost use Rattle.ical_lines.specs.Fault.{RefusesBy, RefusesWhere};
ghost use Rattle.ical_lines.specs.Text.{line_text, numbered};
ghost use Rattle.ical_tree.specs.Own.{own_lines, numbered_own};
ghost use Rattle.profile.specs.text.Trees.{Tree};
ghost use Rattle.profile.specs.events.Properties.{is_fixed, is_of, Says};
ghost use Rattle.profile.specs.events.ZonedTimes.{ZonedTextFault};
ghost use Rattle.profile.specs.events.Occurrences.{ListedTime, IsRecurrenceLine, is_period, entries_of, entries_named, Lists, IsInside, EntriesFault, OccurrenceFault, IsFixedWhere, recurs_as_instance};
ghost use Rattle.profile.specs.events.EventComponents.{Method as SaidMethod, RECURRENCE-ID, instants_of, property_name, EventComponentFault};
ghost use Rattle.profile.specs.events.EventBlame.{EventBlame, texts_of};
ghost use Rattle.cal_events.specs.Blame.{TextBlame, zones_of};
ghost use Rattle.cal_events.specs.Times.{form_of, none_written, time_of, written_of};
ghost use Rattle.cal_events.specs.Component.{method_read};
ghost use Rattle.cal_events.specs.Property.{property_said};
ghost use Rattle.cal_events.specs.Zones.{object_of, AreRead};
ghost use Rattle.cal_events.specs.Occurrences.{name_of, time_said, SaysSo, IsAtSaid, IsLineNamed, IsListLine, IsRecurringLine, IsRecurrenceSaid, AreListed, ListedBlame};

use crate::event_times::is_in_dates;
use crate::method::Method;
use crate::properties::{has, line_of};
use crate::property::Property;
use crate::time::Time;
use crate::when::{Form, When, is_in_zone};
use crate::zones::ZonesOfObject;
use ical_lines::{Fault, Line, Refusal};
use ical_tree::Properties;
use std::alloc::{AllocError, Global};

/// The most times of RDATE, and of EXDATE, of a VEVENT; this profile's choice.
const MOST: usize = 366;

/// A property that lists times.
#[derive(Clone, Copy)]
pub(crate) enum Listing {
    /// RDATE.
    Additions,
    /// EXDATE.
    Exceptions,
}

impl Listing {
    fn property(self) -> Property
        ensures { property_name (property_said result) ≡ name_of self }
    {
        match self {
            Listing::Additions => Property::Rdate,
            Listing::Exceptions => Property::Exdate,
        }
    }

    /// Whether a text is a period: with `/`, where a period is allowed (RFC 5545 3.3.9, 3.8.5.2).
    fn is_period(self, text: &str) -> bool
        ensures { result ≡ is_period (name_of self) text.now }
    {
        match self {
            Listing::Additions => has_slash(text),
            Listing::Exceptions => false,
        }
    }
}

fn has_slash(text: &str) -> bool
    ensures { result ≡ list_any (λ c. c == 47) text.now }
{
    text.bytes().any(|octet| octet == b'/')
}

/// Which instance a VEVENT is for, and what it adds and takes away, as they are written.
#[derive(Drop)]
pub struct WrittenTimes {
    /// RECURRENCE-ID.
    pub recurrence: Option<Time>,
    /// RDATE, in the order of the text.
    pub additions: Vec<Time>,
    /// EXDATE, likewise.
    pub exceptions: Vec<Time>,
}

impl WrittenTimes {
    /// None.
    pub(crate) fn new(alloc: Global) -> WrittenTimes
        ensures { written_of result ≡ none_written }
    {
        WrittenTimes {
            recurrence: None,
            additions: Vec::new(alloc),
            exceptions: Vec::new(alloc),
        }
    }

    /// The instant of RECURRENCE-ID.
    pub(crate) fn instant(&self) -> Option<i64>
        ensures { result ≡ option_map (λ time. time.instant) (written_of self.now).recurrence }
    {
        match self.recurrence {
            Some(time) => Some(time.instant),
            None => None,
        }
    }
}

/// A time as it is said.
#[derive(Clone, Copy)]
pub(crate) struct SaidInstant {
    /// The number of its line.
    line: usize,
    time: Time,
    /// Whether it is in the dates that an event may name.
    in_dates: bool,
}

impl SaidInstant {
    /// The time that a text of a line says, where TZID may name one of these zones.
    /// Refused: as by `When::read`.
    pub(crate) fn read(
        line: Line<'_>,
        text: &str,
        zones: &ZonesOfObject<'_, '_>,
    ) -> Result<SaidInstant, Refusal>
        requires zones { AreRead zones.now }
        ensures says { IfOk result (SaysSo (object_of zones.now) (line_text line.entry) text.now) }
        ensures fault { IfErr result (λ e. ZonedTextFault (object_of zones.now) (line_text line.entry) text.now e.number) }
        ensures line { IfOk result (λ said. said.line ≡ line.entry.number) }
        ensures at { IfErr result (λ e. TextBlame (zones_of zones.now) (numbered line.entry) text.now e.number e.line) }
    {
        let when = When::read_text(line, text, zones)?;
        let time = Time {
            form: when.form(),
            instant: when.instant(),
        };
        Ok(SaidInstant {
            line: line.number(),
            time,
            in_dates: is_in_dates(&when, false, is_in_zone(line), time.instant),
        })
    }

    /// What RECURRENCE-ID says, None where it is absent.
    /// Refused: 61 where it occurs twice, 65 where it has RANGE, and as by `When::read`.
    pub(crate) fn read_recurrence(
        zones: &ZonesOfObject<'_, '_>,
        properties: &Properties<'_>,
        method: Option<Method>,
    ) -> Result<Option<SaidInstant>, Refusal>
        requires zones { AreRead zones.now }
        ensures said { IfOk result (IsRecurrenceSaid (object_of zones.now) (own_lines properties.now)) }
        ensures fault { IfErr result (λ e. EventComponentFault (object_of zones.now) (method_read method) (own_lines properties.now) e.number) }
        ensures among { IfOk result (λ found. IfSome found (λ said. IsLineNamed RECURRENCE-ID (numbered_own properties.now) said.line)) }
        ensures at { IfErr result (λ e. EventBlame (method_read method) (zones_of zones.now) (numbered_own properties.now) e.number e.line) }
    {
        let Some(line) = line_of(properties, Property::RecurrenceId, method)? else {
            return Ok(None);
        };
        if line.param("RANGE").is_some() {
            return Err(Refusal::RANGE.at(line.number()));
        }
        Ok(Some(SaidInstant::read(line, line.value(), zones)?))
    }

    fn is_fixed(self) -> bool
        ensures { result ≡ is_fixed (form_of self.time.form) }
    {
        matches!(self.time.form, Form::Fixed)
    }
}

/// Refuses a RECURRENCE-ID that isn't fixed where only a fixed time can name an instance.
/// Refused: 57.
pub(crate) fn refuse_unfixed(said: Option<SaidInstant>, fixed: bool) -> Result<(), Refusal>
    ensures is { OnOk result (IsFixedWhere fixed (time_said said)) }
    ensures fault { (object : Tree) (lines : List (List ℕ)) → IsRecurrenceSaid object lines said
        → (added : Bool) → IfErr result (λ e. OccurrenceFault added fixed object lines e.number) }
    ensures at { IfErr result (λ e. (e.number ≡ 57) × IsAtSaid said e.line) }
{
    match said {
        Some(said) if fixed && !said.is_fixed() => Err(Refusal::OTHER_FORM.at(said.line)),
        _ => Ok(()),
    }
}

/// The time of RECURRENCE-ID.
/// Refused: 52 where it is outside of the dates that an event may name.
pub(crate) fn judge_recurrence(said: Option<SaidInstant>) -> Result<Option<Time>, Refusal>
    ensures is { IfOk result (λ time. option_map time_of time ≡ time_said said) }
    ensures says { (object : Tree) (lines : List (List ℕ)) → IsRecurrenceSaid object lines said
        → IfOk result (λ time. Says (codes "RECURRENCE-ID") false (IsRecurrenceLine object) lines (option_map time_of time)) }
    ensures fault { (object : Tree) (lines : List (List ℕ)) → IsRecurrenceSaid object lines said
        → (added fixed : Bool) → IfErr result (λ e. OccurrenceFault added fixed object lines e.number) }
    ensures at { IfErr result (λ e. (e.number ≡ 52) × IsAtSaid said e.line) }
{
    match said {
        Some(said) if !said.in_dates => Err(Refusal::OUT_OF_DATES.at(said.line)),
        Some(said) => Ok(Some(said.time)),
        None => Ok(None),
    }
}

/// Refuses RRULE or RDATE where METHOD bars them, and in a VEVENT that is a single instance by its RECURRENCE-ID: an instance doesn't recur.
/// Refused: 67.
pub(crate) fn refuse_recurring_instance(
    properties: &Properties<'_>,
    barred: bool,
) -> Result<(), Refusal>
    ensures alone { OnOk result (recurs_as_instance barred (own_lines properties.now) ≡ false) }
    ensures recurs { OnErr result (recurs_as_instance barred (own_lines properties.now) ≡ true) }
    ensures number { IfErr result (λ e. e.number ≡ 67) }
    ensures at { IfErr result (λ e. IsRecurringLine (numbered_own properties.now) e.line) }
{
    if !barred && !has(properties, Property::RecurrenceId) {
        return Ok(());
    }
    match first_recurring(properties) {
        Some(line) => Err(Refusal::RECURRING_INSTANCE.at(line.number())),
        None => Ok(()),
    }
}

/// The first line of RRULE or RDATE.
fn first_recurring<'a>(properties: &Properties<'a>) -> Option<Line<'a>>
    ensures found { is_some result ≡ list_any (λ line. is_of (codes "RRULE") line || is_of (codes "RDATE") line) (own_lines properties.now) }
    ensures at { IfSome result (λ line. IsRecurringLine (numbered_own properties.now) line.number) }
{
    for line in properties.lines() {
        if Property::Rrule.names(*line) || Property::Rdate.names(*line) {
            return Some(*line);
        }
    }
    None
}

/// The times that a property lists, as they are said.
#[derive(Drop)]
pub(crate) struct SaidInstants {
    /// In the order of the text. At most 366.
    pub(crate) times: Vec<Time>,
    /// The number of the line of the first one that isn't in the dates that an event may name; None where all are.
    outside: Option<usize>,
}

impl SaidInstants {
    /// Reads all lines of a property, each with one time or more, whose TZID may name one of these zones.
    /// Refused: 56 at the 367th time and for a period, and else as by `When::read`, at the first time in the text.
    pub(crate) fn read(
        alloc: Global,
        zones: &ZonesOfObject<'_, '_>,
        properties: &Properties<'_>,
        listing: Listing,
    ) -> Result<SaidInstants, Fault>
        requires zones { AreRead zones.now }
        ensures listed { IfOk result (AreListed (object_of zones.now) (name_of listing) (entries_named (name_of listing) (own_lines properties.now))) }
        ensures fault { IfErr result (RefusesBy (EntriesFault (object_of zones.now) (name_of listing) (entries_named (name_of listing) (own_lines properties.now)))) }
        ensures among { IfOk result (λ said. IfSome said.outside (λ at. IsListLine listing (numbered_own properties.now) at)) }
        ensures at { (method : Option SaidMethod) → IfErr result (RefusesWhere (EventBlame method (zones_of zones.now) (numbered_own properties.now))) }
    {
        let mut said = SaidInstants {
            times: Vec::new(alloc),
            outside: None,
        };
        let property = listing.property();
        for line in properties.lines() {
            if property.names(*line) {
                said.add_line(*line, zones, listing)?;
            }
        }
        Ok(said)
    }

    /// Adds the times of a line.
    fn add_line(
        &mut self,
        line: Line<'_>,
        zones: &ZonesOfObject<'_, '_>,
        listing: Listing,
    ) -> Result<(), Fault>
        requires zones { AreRead zones.now }
        ensures adds { (done : List ListedTime) → AreListed (object_of zones.now) (name_of listing) done self.old
            → OnOk result (AreListed (object_of zones.now) (name_of listing) (done ++ entries_of (line_text line.entry)) self.new) }
        ensures fault { (done : List ListedTime) → AreListed (object_of zones.now) (name_of listing) done self.old
            → IfErr result (RefusesBy (EntriesFault (object_of zones.now) (name_of listing) (done ++ entries_of (line_text line.entry)))) }
        ensures outside { OnOk result ((self.new.outside ≡ self.old.outside) ⊎ (self.new.outside ≡ Some line.entry.number)) }
        ensures at { IfErr result (RefusesWhere (λ n at. (text : List ℕ) × Contains (texts_of (line_text line.entry)) text
            × ListedBlame (zones_of zones.now) (name_of listing) (numbered line.entry) text n at)) }
    {
        for text in line.value().split(',') {
            self.add(line, text, zones, listing)?;
        }
        Ok(())
    }

    /// Adds a time, a text of a line.
    fn add(
        &mut self,
        line: Line<'_>,
        text: &str,
        zones: &ZonesOfObject<'_, '_>,
        listing: Listing,
    ) -> Result<(), Fault>
        requires zones { AreRead zones.now }
        ensures adds { (done : List ListedTime) → AreListed (object_of zones.now) (name_of listing) done self.old
            → OnOk result (AreListed (object_of zones.now) (name_of listing) (done ++ (line_text line.entry, text.now) ∷ []) self.new) }
        ensures fault { (done : List ListedTime) → AreListed (object_of zones.now) (name_of listing) done self.old
            → IfErr result (RefusesBy (EntriesFault (object_of zones.now) (name_of listing) (done ++ (line_text line.entry, text.now) ∷ []))) }
        ensures outside { OnOk result ((self.new.outside ≡ self.old.outside) ⊎ (self.new.outside ≡ Some line.entry.number)) }
        ensures at { IfErr result (RefusesWhere (ListedBlame (zones_of zones.now) (name_of listing) (numbered line.entry) text.now)) }
    {
        if self.times.len() == MOST || listing.is_period(text) {
            return Err(Fault::Refused(Refusal::LIST_OR_PERIOD.at(line.number())));
        }
        let said = SaidInstant::read(line, text, zones)?;
        self.times.push(said.time)?;
        if !said.in_dates && self.outside.is_none() {
            self.outside = Some(said.line);
        }
        Ok(())
    }

    /// The times of RDATE.
    /// Refused: 52 where one is outside of the dates that an event may name.
    pub(crate) fn judge(self) -> Result<Vec<Time>, Refusal>
        ensures says { (object : Tree) (lines : List (List ℕ)) → AreListed object (codes "RDATE") (entries_named (codes "RDATE") lines) self
            → IfOk result (λ v. Lists object (codes "RDATE") (entries_named (codes "RDATE") lines) (map time_of v.items)
            × AllZip (IsInside object) (entries_named (codes "RDATE") lines) (map time_of v.items)) }
        ensures fault { (object : Tree) (lines : List (List ℕ)) → AreListed object (codes "RDATE") (entries_named (codes "RDATE") lines) self
            → (added fixed : Bool) → IfErr result (λ e. OccurrenceFault added fixed object lines e.number) }
        ensures at { IfErr result (λ e. (e.number ≡ 52) × (self.outside ≡ Some e.line)) }
    {
        match self.outside {
            Some(line) => Err(Refusal::OUT_OF_DATES.at(line)),
            None => Ok(self.times),
        }
    }
}

/// The instants of times, in their order. It fails only when out of memory.
pub(crate) fn instants_of(alloc: Global, times: &[Time]) -> Result<Vec<i64>, AllocError>
    ensures { IfOk result (λ instants. instants.items ≡ instants_of (map time_of times.now)) }
{
    let mut instants = Vec::new(alloc);
    for time in times {
        instants.push(time.instant)?;
    }
    Ok(instants)
}
