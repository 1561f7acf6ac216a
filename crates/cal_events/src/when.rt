//! When a start or an end is: in UTC, by the clocks of a zone, where TZID names a VTIMEZONE of the object that the line is in, without zone, or a
//! whole day (RFC 5545 3.2.19, 3.2.20, 3.3.4, 3.3.5, 3.6.5, 3.8.3.1). What is wrong with a VTIMEZONE that no line names refuses nothing.
ghost use Rattle.std.specs.Prelude.{◌≡◌, ◌⊎◌, ℕ, List, Option, None, Some, ℤ, pos, IsTrue, option_map, IfOk, IfErr, IfSome, IfNone, OnOk};
ghost use Rattle.ical_lines.specs.Text.{line_text, numbered};
ghost use Rattle.profile.specs.events.EventBlame.{NamedBlame};
ghost use Rattle.profile.specs.text.Lines.{line_value};
ghost use Rattle.cal_events.specs.Blame.{TextBlame, zones_of};
ghost use Rattle.profile.specs.text.Trees.{Tree};
ghost use Rattle.profile.specs.text.Values.{SpellsLocal};
ghost use Rattle.profile.specs.series.Zones as zones;
ghost use Rattle.profile.specs.series.Zones.{Means, IsNearEpoch};
ghost use Rattle.profile.specs.events.Properties as properties;
ghost use Rattle.profile.specs.events.Properties.{time_kind, allows_form, KindFault, NoTimeFault, IsDateText, malformed_number};
ghost use Rattle.profile.specs.events.ZonedTimes.{is_in_zone, SpellsForm, SpellsMidnight, SaysZonedText, SaysZonedTime, clock_of, InZoneFault, LocalFault, ZonedTextFault, ZonedTimeFault};
ghost use Rattle.profile.specs.events.Placed.{zone_in};
ghost use Rattle.cal_zones.specs.Kinds.{zone_of};
ghost use Rattle.cal_events.specs.Zones.{object_of, AreRead};
ghost use Rattle.cal_events.specs.Times.{form_of, form_said, zone_said, local_said};
ghost use Rattle.cal_events.specs.Forms.{said_kind, SpellsAlone, IsReadable};

use crate::zones::ZonesOfObject;
use cal_zones::{Zone, one_zone};
use ical_lines::{Line, Refusal};
use ical_values::date::read_date;
use ical_values::local_time::one_local_time;
use ical_values::stamp::{ends_in_z, one_stamp};
use ical_values::{LocalTime, Stamp};

/// The form of a time (RFC 5545 3.3.4, 3.3.5).
#[derive(Clone, Copy, PartialEq, Eq)]
pub enum Form {
    /// In UTC, or in the zone that TZID names.
    Fixed,
    /// A local time without zone.
    Floating,
    /// A date.
    WholeDay,
}

impl Form {
    ghost use Rattle.std.specs.Prelude.{◌≡◌};
    ghost use Rattle.cal_events.specs.Times.{form_of};
    ghost use Rattle.profile.specs.events.Properties.{is_fixed};

    /// Whether such a time is fixed.
    pub(crate) fn is_fixed(self) -> bool
        ensures { result ≡ is_fixed (form_of self) }
    {
        match self {
            Form::Fixed => true,
            Form::Floating => false,
            Form::WholeDay => false,
        }
    }
}

/// A time, by its form. UTC isn't a zone of offset 0.
#[derive(Clone, Copy)]
pub enum When {
    /// What the clocks of UTC show.
    Utc(LocalTime),
    /// What the clocks of a zone show.
    Zoned(LocalTime, Zone),
    /// A local time without zone: what the clocks of the room show, whose zone is beside it; None is UTC.
    Floating(LocalTime, Option<Zone>),
    /// A date, by its midnight on the clocks of the room.
    WholeDay(LocalTime, Option<Zone>),
}

impl When {
    /// What a DTSTART or a DTEND says, where TZID may name one of these zones; in a room that goes by UTC. The text is judged before the zone.
    /// Refused without TZID: 10 where the text ends in `Z` and isn't a UTC date-time, 11 where it isn't a date-time or a date, or not that which
    /// VALUE says; 56 where VALUE is PERIOD.
    /// Refused with TZID: 11 for a text that isn't a local time, also for a date and where it ends in `Z`, 56 where VALUE is PERIOD; 43 where no
    /// VTIMEZONE of the object has that name; 11, 13 and 40 to 42 for the first that has it.
    pub(crate) fn read(line: Line<'_>, zones: &ZonesOfObject<'_, '_>) -> Result<When, Refusal>
        requires zones { AreRead zones.now }
        ensures says { IfOk result (λ t. SaysZonedTime (object_of zones.now) (line_text line.entry) (form_said t) (zone_said t) (local_said t)) }
        ensures fault { IfErr result (λ e. ZonedTimeFault (object_of zones.now) (line_text line.entry) e.number) }
        ensures at { IfErr result (λ e. TextBlame (zones_of zones.now) (numbered line.entry) (line_value (line_text line.entry)) e.number e.line) }
    {
        When::read_text(line, line.value(), zones)
    }

    /// What one text of the line's value says, as a time of a list has VALUE and TZID of its line.
    pub(crate) fn read_text(
        line: Line<'_>,
        text: &str,
        zones: &ZonesOfObject<'_, '_>,
    ) -> Result<When, Refusal>
        requires zones { AreRead zones.now }
        ensures says { IfOk result (λ t. SaysZonedText (object_of zones.now) (line_text line.entry) text.now (form_said t) (zone_said t) (local_said t)) }
        ensures fault { IfErr result (λ e. ZonedTextFault (object_of zones.now) (line_text line.entry) text.now e.number) }
        ensures at { IfErr result (λ e. TextBlame (zones_of zones.now) (numbered line.entry) text.now e.number e.line) }
    {
        match line.param("TZID") {
            Some(name) => read_in_zone(line, text, name, zones),
            None => line.placed(read_alone(line, text)),
        }
    }

    /// The instant that it means, in seconds from 1970-01-01T00:00:00Z: the first of two where the clocks show it twice,
    /// and where they skip it what it means with the offset before (RFC 5545 3.3.5).
    pub fn instant(&self) -> i64
        ensures meaning { Means (clock_of (zone_said self.now)) (local_said self.now) result }
        ensures range { IsNearEpoch result }
    {
        self.clock().resolve(self.local())
    }

    /// The local time that its clocks show.
    pub fn local(&self) -> LocalTime
        ensures { result ≡ local_said self.now }
    {
        match *self {
            When::Utc(local) => local,
            When::Zoned(local, _) => local,
            When::Floating(local, _) => local,
            When::WholeDay(local, _) => local,
        }
    }

    /// The clocks that show it: those of its zone or of the room's, else those of UTC.
    pub fn clock(&self) -> Zone
        ensures { zone_of result ≡ clock_of (zone_said self.now) }
    {
        match *self {
            When::Utc(_) => Zone::utc(),
            When::Zoned(_, zone) => zone,
            When::Floating(_, room) => clock_in(room),
            When::WholeDay(_, room) => clock_in(room),
        }
    }

    /// Its form.
    pub fn form(&self) -> Form
        ensures { form_of result ≡ form_said self.now }
    {
        match self {
            When::Utc(_) => Form::Fixed,
            When::Zoned(_, _) => Form::Fixed,
            When::Floating(_, _) => Form::Floating,
            When::WholeDay(_, _) => Form::WholeDay,
        }
    }

    /// The time as a room of this zone has it, None where the room goes by UTC: there its clocks show a time that isn't fixed.
    pub(crate) fn in_room(self, room: Option<Zone>) -> When
        ensures form { form_said result ≡ form_said self }
        ensures local { local_said result ≡ local_said self }
        ensures zone { zone_said result ≡ zone_in (option_map zone_of room) (form_said self) (zone_said self) }
    {
        match self {
            When::Utc(local) => When::Utc(local),
            When::Zoned(local, zone) => When::Zoned(local, zone),
            When::Floating(local, _) => When::Floating(local, room),
            When::WholeDay(local, _) => When::WholeDay(local, room),
        }
    }

    /// 1970-01-01T00:00:00Z.
    pub(crate) fn epoch() -> When
        ensures form { form_said result ≡ properties.Fixed }
        ensures zone { zone_said result ≡ None }
        ensures local { local_said result ≡ pos 0 }
    {
        When::Utc(LocalTime::of_seconds(0).unwrap())
    }
}

/// The clocks of a room of this zone; None goes by UTC.
pub(crate) fn clock_in(room: Option<Zone>) -> Zone
    ensures { zone_of result ≡ clock_of (option_map zone_of room) }
{
    match room {
        Some(zone) => zone,
        None => Zone::utc(),
    }
}

/// A text of a line says at most one local time of one form in one zone, and none where it has a fault.
pub fn one_zoned_time()
    ensures one { (object : Tree) (line text : List ℕ) (f g : properties.Form) (a b : Option zones.Zone) (s t : ℤ)
        → SaysZonedText object line text f a s → SaysZonedText object line text g b t → (f ≡ g) × (a ≡ b) × (s ≡ t) }
    ensures or_a_fault { (object : Tree) (line text : List ℕ) (f : properties.Form) (a : Option zones.Zone) (s : ℤ) (n : ℕ)
        → SaysZonedText object line text f a s → ZonedTextFault object line text n → ⊥ }
{
    one_stamp();
    one_local_time();
    one_zone();
}

/// Judges a text of a time of a line by itself: except for the VTIMEZONE that TZID names, which only its object has.
/// Refused without TZID: 10, 11 and 56; with TZID: 11 and 56; as by `When::read` before it looks at the zone.
pub fn judge_time(line: Line<'_>, text: &str) -> Result<(), Refusal>
    ensures reads { OnOk result (IsReadable (line_text line.entry) text.now) }
    ensures fault { IfErr result (λ e. (object : Tree) → ZonedTextFault object (line_text line.entry) text.now e.number) }
{
    if is_in_zone(line) {
        read_local(line, text)?;
    } else {
        read_alone(line, text)?;
    }
    Ok(())
}

/// Whether a line has TZID.
pub(crate) fn is_in_zone(line: Line<'_>) -> bool
    ensures { result ≡ is_in_zone (line_text line.entry) }
{
    line.param("TZID").is_some()
}

/// A text of a line with TZID.
fn read_in_zone(
    line: Line<'_>,
    text: &str,
    name: &str,
    zones: &ZonesOfObject<'_, '_>,
) -> Result<When, Refusal>
    requires zones { AreRead zones.now }
    ensures allowed { IfOk result (λ t. IsTrue (allows_form (time_kind (line_text line.entry)) (form_said t))) }
    ensures says { IfOk result (λ t. SpellsForm (object_of zones.now) (Some name.now) text.now (form_said t) (zone_said t) (local_said t)) }
    ensures fault { IfErr result (λ e. InZoneFault (object_of zones.now) name.now (time_kind (line_text line.entry)) text.now e.number) }
    ensures at { IfErr result (λ e. ((e.line ≡ line.entry.number) × LocalFault (time_kind (line_text line.entry)) text.now e.number)
        ⊎ NamedBlame (zones_of zones.now) line.entry.number name.now e.number e.line) }
{
    let local = line.placed(read_local(line, text))?;
    let zone = zones.named(name, line.number())?;
    Ok(When::Zoned(local, zone))
}

/// The local time that a text of a line with TZID spells, whichever zone has it (RFC 5545 3.3.5, form 3).
/// Refused: as by `When::read` before it looks at the zone.
fn read_local(line: Line<'_>, text: &str) -> Result<LocalTime, Refusal>
    ensures allowed { OnOk result (IsTrue (allows_form (time_kind (line_text line.entry)) properties.Fixed)) }
    ensures reads { IfOk result (SpellsLocal text.now) }
    ensures fault { IfErr result (λ e. LocalFault (time_kind (line_text line.entry)) text.now e.number) }
{
    match kind_of(line) {
        TimeKind::Unsaid | TimeKind::DateTime => LocalTime::read(text),
        TimeKind::Date | TimeKind::Other => Err(Refusal::BAD_DATE_TIME),
        TimeKind::Period => Err(Refusal::LIST_OR_PERIOD),
    }
}

/// The time that a text of a line without TZID spells: in UTC, without zone, or a date.
/// Refused: as by `When::read`.
fn read_alone(line: Line<'_>, text: &str) -> Result<When, Refusal>
    ensures allowed { IfOk result (λ t. IsTrue (allows_form (time_kind (line_text line.entry)) (form_said t))) }
    ensures says { IfOk result (SpellsAlone text.now) }
    ensures fault { IfErr result (λ e. KindFault (time_kind (line_text line.entry)) text.now e.number) }
{
    match kind_of(line) {
        TimeKind::Unsaid => read_any(text),
        TimeKind::DateTime => read_date_time(text),
        TimeKind::Date => read_day(text),
        TimeKind::Period => Err(Refusal::LIST_OR_PERIOD),
        TimeKind::Other => Err(Refusal::BAD_DATE_TIME),
    }
}

/// What a line says by its VALUE parameter that its times are (RFC 5545 3.2.20).
enum TimeKind {
    /// Nothing.
    Unsaid,
    DateTime,
    Date,
    Period,
    Other,
}

fn kind_of(line: Line<'_>) -> TimeKind
    ensures { said_kind result ≡ time_kind (line_text line.entry) }
{
    match line.param("VALUE") {
        None => TimeKind::Unsaid,
        Some(word) if word.eq_ignore_ascii_case("DATE-TIME") => TimeKind::DateTime,
        Some(word) if word.eq_ignore_ascii_case("DATE") => TimeKind::Date,
        Some(word) if word.eq_ignore_ascii_case("PERIOD") => TimeKind::Period,
        Some(_) => TimeKind::Other,
    }
}

/// A date or a date-time.
fn read_any(text: &str) -> Result<When, Refusal>
    ensures says { IfOk result (SpellsAlone text.now) }
    ensures fault { IfErr result (λ e. KindFault properties.Unsaid text.now e.number) }
{
    match midnight(text) {
        Some(local) => Ok(When::WholeDay(local, None)),
        None => read_date_time(text),
    }
}

/// A date.
fn read_day(text: &str) -> Result<When, Refusal>
    ensures form { IfOk result (λ t. form_said t ≡ properties.WholeDay) }
    ensures says { IfOk result (SpellsAlone text.now) }
    ensures fault { IfErr result (λ e. KindFault properties.Date text.now e.number) }
{
    match midnight(text) {
        Some(local) => Ok(When::WholeDay(local, None)),
        None => Err(Refusal::BAD_DATE_TIME),
    }
}

/// A date-time, in UTC or without zone.
fn read_date_time(text: &str) -> Result<When, Refusal>
    ensures allowed { IfOk result (λ t. IsTrue (allows_form properties.DateTime (form_said t))) }
    ensures says { IfOk result (SpellsAlone text.now) }
    ensures fault { IfErr result (λ e. NoTimeFault text.now e.number) }
{
    if let Ok(stamp) = Stamp::read(text) {
        return Ok(When::Utc(LocalTime::of_seconds(stamp.instant()).unwrap()));
    }
    match LocalTime::read(text) {
        Ok(local) => Ok(When::Floating(local, None)),
        Err(_) => Err(malformed(text)),
    }
}

/// The midnight with which the date of a text begins. None where it is no date.
fn midnight(text: &str) -> Option<LocalTime>
    ensures found { IfSome result (SpellsMidnight text.now) }
    ensures none { IfNone result (IsDateText text.now → ⊥) }
{
    let day = read_date(text.as_bytes())?;
    LocalTime::of_day(day, 0)
}

/// Why a text is refused that is neither a date nor a time: 10 where it ends in `Z` as a UTC time does, else 11.
fn malformed(text: &str) -> Refusal
    ensures { result.number ≡ malformed_number text.now }
{
    if ends_in_z(text) {
        Refusal::BAD_STAMP
    } else {
        Refusal::BAD_DATE_TIME
    }
}
