//! When an event starts and how long it lasts (RFC 5545 3.6.1): first its three properties as they are said, in UTC,
//! where TZID names a zone, without zone or as dates, then all of them together.

ghost use Rattle.std.specs.Prelude.{◌≡◌, ◌↔◌, ◌⊎◌, ◌≤◌, ◌^◌, ℕ, Bool, List, Some, codes, pos, ◌+ℤ◌, ◌-ℤ◌, ◌<ℤ◌, ◌≤ℤ◌, Option, IfOk, IfErr, OnOk, IsTrue};
ghost use Rattle.ical_lines.specs.Text.{line_text, numbered};
ghost use Rattle.ical_tree.specs.Own.{own_lines, numbered_own};
ghost use Rattle.profile.specs.faults.Blame.{Numbered};
ghost use Rattle.profile.specs.text.Lines.{line_value};
ghost use Rattle.profile.specs.text.Trees.{Tree};
ghost use Rattle.profile.specs.text.Values.{IsClockSeconds};
ghost use Rattle.profile.specs.series.Zones.{IsNearEpoch, Shows, Means};
ghost use Rattle.profile.specs.events.Starts.{IsCountedFrom, IsDaysLater, EndsAt, IsWidth};
ghost use Rattle.cal_zones.specs.Kinds.{zone_of};
ghost use Rattle.profile.specs.events.Properties.{WholeDay, length_seconds, OccursAtMostOnce};
ghost use Rattle.profile.specs.events.ZonedTimes.{is_in_zone, past_locals, IsInDates, SuitsForm, length_alone, ZonedTimeFault, SaysEventTimes, SaysNoStart, SaysTimes, EventTimesFault};
ghost use Rattle.profile.specs.events.EventComponents.{Method as SaidMethod, may_lack_start, EventComponentFault};
ghost use Rattle.profile.specs.events.EventBlame.{EventBlame};
ghost use Rattle.profile.specs.series.ZoneBlame.{NumberedZone};
ghost use Rattle.cal_events.specs.Blame.{TextBlame, zones_of};
ghost use Rattle.cal_events.specs.Property.{IsLineOf};
ghost use Rattle.cal_events.specs.declared.property.Property.TheVariants.{Dtstart};
ghost use Rattle.cal_events.specs.Component.{method_read, times_of, length_of, form_of, form_said, local_said, IsLengthTo, GivesLength, GivesAlone, ExtentFault, AloneFault};
ghost use Rattle.cal_events.specs.declared.event_times.Extent.TheVariants.{To, For};
ghost use Rattle.cal_events.specs.Zones.{object_of, AreRead};
ghost use Rattle.cal_events.specs.Overlapping.{LastAtMost};
ghost use Rattle.cal_events.specs.Zoned.{ends_in, AreLinesSaid, IsExtentLine, MayHave, EndsSo, IsExtentIn, AreSaid, AreSaidAlone, AreSaidBy, IsInYears};

use crate::instance::HORIZON;
use crate::method::Method;
use crate::properties::line_of;
use crate::property::Property;
use crate::when::{Form, When, is_in_zone};
use crate::zones::ZonesOfObject;
use cal_zones::Zone;
use ical_lines::{Line, Refusal};
use ical_tree::Properties;
use ical_values::{DAY_SECONDS, Duration, Stamp};
use std::cmp::max;

/// The longest event, 366 days in seconds; this profile's choice.
const LONGEST: i64 = 366 * DAY_SECONDS;

/// The first second that an event may name, 1969-12-31T00:00:00Z: a local time of 1970 may be as early.
pub const FIRST_SECOND: i64 = -DAY_SECONDS;

/// The times of an event, judged together.
#[derive(Clone, Copy)]
pub struct EventTimes {
    /// DTSTART.
    pub start: When,
    /// The instant that DTSTART means.
    pub instant: Stamp,
    /// How long it lasts: to DTEND in exact seconds, or in days where it is a date; or DURATION as it is written; or a day where DTSTART is a date;
    /// or nothing. At most 366 days.
    pub length: Duration,
}

impl EventTimes {
    /// How long each instance lasts in exact seconds.
    pub fn seconds(&self) -> u64
        ensures { result ≡ length_seconds (length_of self.now.length) }
    {
        seconds_of(self.length) as u64
    }

    /// No instance lasts longer, in exact seconds: its days are 86,400 seconds each, plus, if there are days, the difference of the zone's offsets.
    pub fn width(&self) -> i64
        ensures width { IsWidth (times_of self.now) result }
        ensures bound { LastAtMost (times_of self.now) result }
        ensures range { (pos 0 ≤ℤ result) × (result <ℤ pos (2 ^ 50)) }
    {
        let seconds = seconds_of(self.length);
        if self.length.days == 0 {
            return seconds;
        }
        let (least, greatest) = self.start.clock().offsets();
        seconds + i64::from(greatest - least)
    }

    /// When an instance ends that starts at an instant: after the days of the length, in the zone of DTSTART, and its seconds (RFC 5545
    /// 3.3.6).
    pub(crate) fn end_from(&self, start: i64) -> i64
        requires { IsClockSeconds start }
        ensures { EndsAt (times_of self.now) start result }
    {
        let form = self.start.form();
        let later = days_later(form, &self.start.clock(), start, self.length.days);
        later + i64::from(self.length.seconds)
    }
}

/// The instant that comes this many days later by the clocks of a zone: the days are added to the local time from which they are counted.
fn days_later(form: Form, clock: &Zone, instant: i64, days: u32) -> i64
    requires { IsClockSeconds instant }
    ensures later { IsDaysLater (form_of form) (zone_of clock.now) days instant result }
    ensures range { IsInYears result }
{
    if days == 0 {
        return instant;
    }
    let local = counted_from(form, clock, instant) + i64::from(days) * DAY_SECONDS;
    resolve(clock, local)
}

/// The local time from which the days of an event are counted that starts at an instant: what the clocks show, or of a whole day its midnight where
/// that means the instant, also where they skip it.
fn counted_from(form: Form, clock: &Zone, instant: i64) -> i64
    requires { IsClockSeconds instant }
    ensures counted { IsCountedFrom (form_of form) (zone_of clock.now) instant result }
    ensures near { ((instant -ℤ pos 172_800) ≤ℤ result) × (result ≤ℤ (instant +ℤ pos 86_400)) }
{
    let shown = instant + i64::from(clock.offset(instant));
    match form {
        Form::Fixed => shown,
        Form::Floating => shown,
        Form::WholeDay => day_from(clock, instant, shown),
    }
}

/// The second from which a whole day is counted whose start the clocks show as this local time.
fn day_from(clock: &Zone, instant: i64, shown: i64) -> i64
    requires start { IsClockSeconds instant }
    requires shown { Shows (zone_of clock.now) instant shown }
    requires near { ((instant -ℤ pos 86_400) ≤ℤ shown) × (shown ≤ℤ (instant +ℤ pos 86_400)) }
    ensures counted { IsCountedFrom WholeDay (zone_of clock.now) instant result }
    ensures near { ((shown -ℤ pos 86_400) ≤ℤ result) × (result ≤ℤ shown) }
{
    let midnight = shown - shown.rem_euclid(DAY_SECONDS);
    // Only for the proof: a local time means one instant.
    clock.one_meaning();
    let meant = resolve(clock, midnight);
    if meant == instant {
        return midnight;
    }
    shown
}

/// The instant that a local time means, in seconds, as by `Zone::resolve`, in years past 9999 too.
pub(crate) fn resolve(clock: &Zone, local: i64) -> i64
    requires { IsInYears local }
    ensures meaning { Means (zone_of clock.now) local result }
    ensures near { ((local -ℤ pos 86_400) ≤ℤ result) × (result ≤ℤ (local +ℤ pos 86_400)) }
{
    let (least, greatest) = clock.offsets();
    let early = local - i64::from(greatest);
    if clock.offset(early) == greatest {
        return early;
    }
    let late = local - i64::from(least);
    // Only for the proof: the clocks show it then or skip it.
    let _ = clock.offset(late);
    late
}

/// DTEND as it is said.
#[derive(Clone, Copy)]
pub(crate) struct SaidEnd {
    form: Form,
    /// Seconds from DTSTART, negative where it is before.
    seconds: i64,
    /// Whether it is in the dates that an event may name.
    in_dates: bool,
}

/// How long an event is said to last.
#[derive(Clone, Copy)]
pub(crate) enum Extent {
    /// DTEND.
    To(SaidEnd),
    /// DURATION.
    For(Duration),
    /// There is neither.
    Open,
}

impl Extent {
    /// Whether DTEND is in the dates that an event may name, or is absent.
    fn ends_in(self) -> bool
        ensures { result ≡ ends_in self }
    {
        match self {
            Extent::To(end) => end.in_dates,
            Extent::For(_) | Extent::Open => true,
        }
    }
}

/// What DTSTART, DTEND and DURATION say, each judged alone.
#[derive(Clone, Copy)]
pub(crate) enum SaidTimes {
    From {
        start: When,
        /// The instant that it means.
        instant: i64,
        /// Whether it is in the dates that an event may name.
        in_dates: bool,
        extent: Extent,
        lines: TimesLines,
    },
    /// Without DTSTART: an end gives no length.
    Alone(Extent, TimesLines),
}

/// The numbers of the lines of DTSTART, and of DTEND or DURATION; 0 where there is none.
#[derive(Clone, Copy)]
pub(crate) struct TimesLines {
    start: usize,
    extent: usize,
}

impl SaidTimes {
    /// Reads the start of a VEVENT, which METHOD may let be missing, and its end or its length, where they may name these zones.
    /// Refused: 61 where DTSTART is missing and may not, one of the three occurs twice, or DTEND beside DURATION; as by
    /// `When::read` for the two times; 12 and 51 for DURATION.
    pub(crate) fn read(
        zones: &ZonesOfObject<'_, '_>,
        properties: &Properties<'_>,
        method: Option<Method>,
    ) -> Result<SaidTimes, Refusal>
        requires zones { AreRead zones.now }
        ensures said { IfOk result (AreSaidBy (may_lack_start (method_read method)) (object_of zones.now) (own_lines properties.now)) }
        ensures fault { IfErr result (λ e. EventComponentFault (object_of zones.now) (method_read method) (own_lines properties.now) e.number) }
        ensures lines { IfOk result (AreLinesSaid (numbered_own properties.now)) }
        ensures at { IfErr result (λ e. EventBlame (method_read method) (zones_of zones.now) (numbered_own properties.now) e.number e.line) }
    {
        if let Some(line) = line_of(properties, Property::Dtstart, method)? {
            return SaidTimes::from_start(line, zones, properties, method);
        }
        let (extent, line) = read_extent(zones, properties, method, 0)?;
        let lines = TimesLines {
            start: 0,
            extent: line,
        };
        Ok(SaidTimes::Alone(extent, lines))
    }

    /// What they say with this line of DTSTART.
    fn from_start(
        line: Line<'_>,
        zones: &ZonesOfObject<'_, '_>,
        properties: &Properties<'_>,
        method: Option<Method>,
    ) -> Result<SaidTimes, Refusal>
        requires zones { AreRead zones.now }
        requires once { OccursAtMostOnce (codes "DTSTART") (own_lines properties.now) (Some (line_text line)) }
        requires among { IsLineOf Dtstart (numbered_own properties.now) line }
        ensures said { (may_lack : Bool) → IfOk result (AreSaidBy may_lack (object_of zones.now) (own_lines properties.now)) }
        ensures fault { IfErr result (λ e. EventComponentFault (object_of zones.now) (method_read method) (own_lines properties.now) e.number) }
        ensures lines { IfOk result (AreLinesSaid (numbered_own properties.now)) }
        ensures at { IfErr result (λ e. EventBlame (method_read method) (zones_of zones.now) (numbered_own properties.now) e.number e.line) }
    {
        let start = When::read(line, zones)?;
        let instant = start.instant();
        let in_dates = is_in_dates(&start, false, is_in_zone(line), instant);
        let (extent, extent_line) = read_extent(zones, properties, method, instant)?;
        Ok(SaidTimes::From {
            start,
            instant,
            in_dates,
            extent,
            lines: TimesLines {
                start: line.number(),
                extent: extent_line,
            },
        })
    }

    /// Judges the times together.
    /// Refused: 57 where DTEND or DURATION doesn't go with the form of DTSTART; 50 where the event ends before it starts, 51 past 366 days; 52 where
    /// DTSTART or DTEND is outside of the local years 1970 to 9999 (in UTC from 1969-12-31 on), or not before 10000-01-01T00:00:00Z, or
    /// a DTSTART that isn't fixed is on 9999-12-31.
    pub(crate) fn judge(self) -> Result<EventTimes, Refusal>
        ensures says { (may_lack : Bool) (object : Tree) (lines : List (List ℕ)) → AreSaidBy may_lack object lines self
            → IfOk result (λ times. SaysTimes may_lack object lines (times_of times)) }
        ensures fault { (may_lack : Bool) (object : Tree) (lines : List (List ℕ)) → AreSaidBy may_lack object lines self
            → IfErr result (λ e. EventTimesFault object lines e.number) }
        ensures at { (method : Option SaidMethod) (zones : List NumberedZone) (event : Numbered) → AreLinesSaid event self
            → IfErr result (λ e. EventBlame method zones event e.number e.line) }
    {
        match self {
            SaidTimes::From {
                start,
                instant,
                in_dates,
                extent,
                lines,
            } => judge_from(start, instant, in_dates, extent, lines),
            SaidTimes::Alone(extent, lines) => judge_alone(extent, lines),
        }
    }
}

/// Whether an event may name a time, as an end or not, of a line with TZID or without, which means this instant.
pub(crate) fn is_in_dates(when: &When, is_end: bool, in_zone: bool, instant: i64) -> bool
    ensures { IsTrue result ↔ IsInDates is_end (form_said when.now) in_zone (local_said when.now) instant }
{
    let local = when.local().seconds();
    match when.form() {
        Form::Fixed => {
            let first = if in_zone { 0 } else { FIRST_SECOND };
            local >= first && instant >= FIRST_SECOND && instant < HORIZON
        }
        Form::Floating | Form::WholeDay => local >= 0 && local < past_locals(is_end),
    }
}

/// The first local time past those of a start that isn't fixed, 9999-12-31T00:00:00, or past those of an end.
fn past_locals(is_end: bool) -> i64
    ensures { result ≡ past_locals is_end }
{
    if is_end {
        HORIZON
    } else {
        HORIZON - DAY_SECONDS
    }
}

/// What DTEND or DURATION say of an event that starts at an instant, and at which line.
fn read_extent(
    zones: &ZonesOfObject<'_, '_>,
    properties: &Properties<'_>,
    method: Option<Method>,
    start: i64,
) -> Result<(Extent, usize), Refusal>
    requires zones { AreRead zones.now }
    requires start { IsNearEpoch start }
    ensures reads { IfOk result (λ read. IsExtentIn (object_of zones.now) (own_lines properties.now) start read.0) }
    ensures line { IfOk result (λ read. IsExtentLine (numbered_own properties.now) read.0 read.1) }
    ensures fault { IfErr result (λ e. EventComponentFault (object_of zones.now) (method_read method) (own_lines properties.now) e.number) }
    ensures at { IfErr result (λ e. EventBlame (method_read method) (zones_of zones.now) (numbered_own properties.now) e.number e.line) }
{
    let end = line_of(properties, Property::Dtend, method)?;
    let duration = line_of(properties, Property::Duration, method)?;
    match (end, duration) {
        (Some(end), Some(duration)) => {
            let later = max(end.number(), duration.number());
            Err(Refusal::BAD_PROPERTY.at(later))
        }
        (Some(line), None) => Ok((Extent::To(read_end(line, zones, start)?), line.number())),
        (None, Some(line)) => {
            let duration = line.placed(Duration::read(line.value()))?;
            Ok((Extent::For(duration), line.number()))
        }
        (None, None) => Ok((Extent::Open, 0)),
    }
}

/// The end that a line says, of an event that starts at an instant.
fn read_end(line: Line<'_>, zones: &ZonesOfObject<'_, '_>, start: i64) -> Result<SaidEnd, Refusal>
    requires zones { AreRead zones.now }
    requires start { IsNearEpoch start }
    ensures says { IfOk result (EndsSo (object_of zones.now) (line_text line.entry) start) }
    ensures fault { IfErr result (λ e. ZonedTimeFault (object_of zones.now) (line_text line.entry) e.number) }
    ensures at { IfErr result (λ e. TextBlame (zones_of zones.now) (numbered line.entry) (line_value (line_text line.entry)) e.number e.line) }
{
    let when = When::read(line, zones)?;
    let instant = when.instant();
    Ok(SaidEnd {
        form: when.form(),
        seconds: instant - start,
        in_dates: is_in_dates(&when, true, is_in_zone(line), instant),
    })
}

/// The times of an event with DTSTART.
/// Refused: as by `SaidTimes::judge`.
fn judge_from(
    start: When,
    instant: i64,
    in_dates: bool,
    extent: Extent,
    lines: TimesLines,
) -> Result<EventTimes, Refusal>
    ensures says { (object : Tree) (lines : List (List ℕ)) → AreSaid object lines start instant in_dates extent
        → IfOk result (λ times. SaysEventTimes object lines (times_of times)) }
    ensures fault { (object : Tree) (lines : List (List ℕ)) → AreSaid object lines start instant in_dates extent
        → IfErr result (λ e. EventTimesFault object lines e.number) }
    ensures at { IfErr result (λ e. ((e.number ≡ 52) × (e.line ≡ lines.start)) ⊎ (MayHave extent e.number × (e.line ≡ lines.extent))) }
{
    let length = match length_from(start.form(), extent) {
        Ok(length) => length,
        Err(refusal) => return Err(refusal.at(lines.extent)),
    };
    if !in_dates {
        return Err(Refusal::OUT_OF_DATES.at(lines.start));
    }
    if !extent.ends_in() {
        return Err(Refusal::OUT_OF_DATES.at(lines.extent));
    }
    let Some(instant) = Stamp::of_instant(instant) else {
        return Err(Refusal::OUT_OF_DATES.at(lines.start));
    };
    Ok(EventTimes {
        start,
        instant,
        length,
    })
}

/// The times of an event without DTSTART.
/// Refused: 51 for a DURATION past 366 days, 52 for a DTEND outside of the dates that an event may name.
fn judge_alone(extent: Extent, lines: TimesLines) -> Result<EventTimes, Refusal>
    ensures says { (object : Tree) (lines : List (List ℕ)) → AreSaidAlone object lines extent
        → IfOk result (λ times. SaysNoStart object lines (times_of times)) }
    ensures fault { (object : Tree) (lines : List (List ℕ)) → AreSaidAlone object lines extent
        → IfErr result (λ e. EventTimesFault object lines e.number) }
    ensures at { IfErr result (λ e. MayHave extent e.number × (e.line ≡ lines.extent)) }
{
    let length = match length_without_start(extent) {
        Ok(length) => length,
        Err(refusal) => return Err(refusal.at(lines.extent)),
    };
    if !extent.ends_in() {
        return Err(Refusal::OUT_OF_DATES.at(lines.extent));
    }
    Ok(EventTimes {
        start: When::epoch(),
        instant: Stamp::of_instant(0).unwrap(),
        length,
    })
}

/// How long an event lasts without DTSTART: an end gives no length.
/// Refused: 51 for a DURATION past 366 days.
fn length_without_start(extent: Extent) -> Result<Duration, Refusal>
    ensures length { IfOk result (λ length. GivesAlone extent (length_of length)) }
    ensures most { IfOk result (λ length. length_seconds (length_of length) ≤ 31_622_400) }
    ensures fault { IfErr result (λ e. AloneFault extent e.number) }
{
    match extent {
        Extent::For(duration) => judge_duration(duration, Form::Fixed),
        Extent::To(_) => Ok(length_alone(Form::Fixed)),
        Extent::Open => Ok(length_alone(Form::Fixed)),
    }
}

/// How long an event lasts whose DTSTART has this form.
/// Refused: 57 where DTEND has another form, or DURATION isn't of whole days beside a date; 50 where the event ends before it starts, 51 past
/// 366 days.
fn length_from(form: Form, extent: Extent) -> Result<Duration, Refusal>
    ensures length { IfOk result (λ length. GivesLength (form_of form) extent (length_of length)) }
    ensures most { IfOk result (λ length. length_seconds (length_of length) ≤ 31_622_400) }
    ensures fault { IfErr result (λ e. ExtentFault (form_of form) extent e.number) }
{
    match extent {
        Extent::To(end) => judge_end(end, form),
        Extent::For(duration) => judge_duration(duration, form),
        Extent::Open => Ok(length_alone(form)),
    }
}

/// The length up to a DTEND beside a DTSTART of this form.
/// Refused: 57 where it has another form, 50 where the event ends before it starts, 51 past 366 days.
fn judge_end(end: SaidEnd, form: Form) -> Result<Duration, Refusal>
    ensures length { IfOk result (λ length. GivesLength (form_of form) (To end) (length_of length)) }
    ensures most { IfOk result (λ length. length_seconds (length_of length) ≤ 31_622_400) }
    ensures fault { IfErr result (λ e. ExtentFault (form_of form) (To end) e.number) }
{
    if end.form != form {
        return Err(Refusal::OTHER_FORM);
    }
    length_to(form, end.seconds)
}

/// The length up to a DTEND of this form, so many seconds after DTSTART: whole days up to a date, which are 86,400 seconds each.
/// Refused: 50 where it is negative, 51 past 366 days.
fn length_to(form: Form, seconds: i64) -> Result<Duration, Refusal>
    ensures length { IfOk result (λ length. IsLengthTo (form_of form) seconds (length_of length)) }
    ensures most { IfOk result (λ length. length_seconds (length_of length) ≤ 31_622_400) }
    ensures fault { IfErr result (λ e. ((e.number ≡ 50) × (seconds <ℤ pos 0)) ⊎ ((e.number ≡ 51) × (pos 31_622_400 <ℤ seconds))) }
{
    if seconds < 0 {
        return Err(Refusal::END_BEFORE_START);
    }
    if seconds > LONGEST {
        return Err(Refusal::LONG_OR_NEGATIVE);
    }
    Ok(match form {
        Form::Fixed | Form::Floating => Duration {
            days: 0,
            seconds: seconds as u32,
        },
        Form::WholeDay => Duration {
            days: (seconds / DAY_SECONDS) as u32,
            seconds: 0,
        },
    })
}

/// A DURATION beside a DTSTART of this form.
/// Refused: 57 where it isn't of whole days beside a date, 51 past 366 days.
fn judge_duration(duration: Duration, form: Form) -> Result<Duration, Refusal>
    ensures same { IfOk result (λ length. length ≡ duration) }
    ensures suits { OnOk result (SuitsForm (form_of form) (length_of duration)) }
    ensures most { OnOk result (length_seconds (length_of duration) ≤ 31_622_400) }
    ensures fault { IfErr result (λ e. ExtentFault (form_of form) (For duration) e.number) }
{
    if form == Form::WholeDay && duration.seconds > 0 {
        return Err(Refusal::OTHER_FORM);
    }
    if seconds_of(duration) > LONGEST {
        return Err(Refusal::LONG_OR_NEGATIVE);
    }
    Ok(duration)
}

/// How long an event lasts without DTEND and DURATION: a whole day that day, another not at all.
fn length_alone(form: Form) -> Duration
    ensures { length_of result ≡ length_alone (form_of form) }
{
    let days = match form {
        Form::Fixed | Form::Floating => 0,
        Form::WholeDay => 1,
    };
    Duration { days, seconds: 0 }
}

/// A duration in seconds, days as 86,400: in UTC no day is longer or shorter.
pub(crate) fn seconds_of(duration: Duration) -> i64
    ensures value { result ≡ pos (length_seconds (length_of duration)) }
    ensures range { result <ℤ pos (2 ^ 49) }
{
    i64::from(duration.days) * DAY_SECONDS + i64::from(duration.seconds)
}
