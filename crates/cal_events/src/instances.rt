//! The instances of an event (RFC 5545 3.8.5.3, 3.8.5.2, 3.8.5.1, 3.8.4.4), by start and then by slot. None is kept: each is looked for from
//! the place of the one before it, and on the days of the rule that are still to be looked at.

ghost use Rattle.std.specs.Prelude.{◌≡◌, ◌↔◌, ◌<◌, ◌≤ℤ◌, ◌<ℤ◌, ℤ, pos, IsTrue, List, [], Some, None, option_map, Contains, IfSome, IfNone};
ghost use Rattle.profile.specs.series.Days.{day_index};
ghost use Rattle.profile.specs.text.Values.{IsClockSeconds};
ghost use Rattle.profile.specs.series.Zones.{IsOneMeaning, IsNearEpoch, Means, local_time};
ghost use Rattle.profile.specs.events.ZonedTimes.{clock_of};
ghost use Rattle.profile.specs.checker.Instances.{Instance as SaidInstance, horizon};
ghost use Rattle.profile.specs.rooms.Messages.{is_in_dates};
ghost use Rattle.profile.specs.events.Starts.{IsGiven, IsStart, IsInstance, EndsAt, key_at};
ghost use Rattle.cal_events.specs.Clocks.{IsAscending, HasGoodClock};
ghost use Rattle.cal_events.specs.Calendar.{key_of, key_in, instance_of};
ghost use Rattle.cal_events.specs.Event.{said_meeting};
ghost use Rattle.cal_zones.specs.Kinds.{zone_of};
ghost use Rattle.profile.specs.events.EventComponents.{EventComponent as SaidComponent};
ghost use Rattle.cal_events.specs.Component.{times_of, zone_said};
ghost use Rattle.cal_events.specs.Recurrence.{name_of, recurring};
ghost use Rattle.cal_events.specs.MeetingComponents.{IsInEventDates};
ghost use Rattle.cal_events.specs.Instances.{IsAfter, IsPastSlot, IsBefore, IsWanted, NoneBefore, AreWalked, StayWalked, IsLeast, lesser, IsAtPlace, IsMovedTo, IsSoonest, IsSooner, HasPassed, IsOfClock, HasClock, IsHeldAt, IsHeld, own_place};
ghost use Rattle.cal_events.specs.declared.component.EventComponent.{EventComponent};

use crate::component::EventComponent;
use crate::event::Event;
use crate::event_times::{EventTimes, FIRST_SECOND};
use crate::instance::{HORIZON, Instance};
use crate::instants::Instants;
use crate::recurrence::{EventName, Recurrence};
use crate::rule_days::RuleDays;
use crate::when::When;
use cal_days::Day;
use cal_rules::Rule;
use cal_zones::{Clock, Zone};
use ical_values::LocalTime;

/// Where an instance is among those of its event.
#[derive(Clone, Copy)]
pub(crate) struct InstancePlace {
    pub(crate) start: i64,
    pub(crate) slot: i64,
}

impl InstancePlace {
    /// Whether it comes before another.
    pub(crate) fn is_before(self, other: InstancePlace) -> bool
        ensures { IsTrue result ↔ IsBefore self other }
    {
        if self.start == other.start {
            return self.slot < other.slot;
        }
        self.start < other.start
    }
}

/// A bound of the places that are still to come.
#[derive(Clone, Copy)]
pub(crate) struct Bound {
    pub(crate) start: i64,
    /// Of that start only greater slots are to come; all, where it is None.
    pub(crate) slot: Option<i64>,
}

impl Bound {
    /// Whether an instance of that start and that slot is to come.
    pub(crate) fn admits(self, start: i64, slot: i64) -> bool
        ensures { IsTrue result ↔ IsAfter self start slot }
    {
        if self.start == start {
            return self.admits_slot(slot);
        }
        self.start < start
    }

    /// The first start that is to come where an instance's slot is its start.
    fn first_own_start(self) -> i64
        ensures { (t : ℤ) → t <ℤ horizon → IsAfter self t t ↔ (result ≤ℤ t) }
    {
        if self.admits(self.start, self.start) {
            return self.start;
        }
        self.start.saturating_add(1)
    }

    /// Whether an instance of its start and of that slot is.
    fn admits_slot(self, slot: i64) -> bool
        ensures { IsTrue result ↔ IsPastSlot self.slot slot }
    {
        match self.slot {
            Some(last) => last < slot,
            None => true,
        }
    }
}

/// The instances of an event that are still to come.
#[derive(Drop)]
pub struct Instances<'a> {
    event: &'a Event,
    /// Those that it admits are.
    after: Bound,
    /// On none of the other days of the rule is one to come.
    days: RuleDays<'a>,
    /// Those of DTSTART's zone.
    clock: Clock,
    ghost passed: { HasPassed event.now.recurrence after days },
    ghost reads: { HasClock event.now.recurrence clock },
}

impl<'a> Instances<'a> {
    ghost use Rattle.cal_events.specs.Left.{IsLeft};

    /// Those that start at an instant or later.
    pub(crate) fn from(event: &'a Event, from: i64) -> Instances<'a>
        ensures left { (b : SaidInstance) → IsLeft result b ↔ IsInstance (said_meeting event.now) b × (from ≤ℤ b.start) }
        ensures of { said_meeting result.event.now ≡ said_meeting event.now }
    {
        let after = Bound {
            start: from,
            slot: None,
        };
        Instances {
            event,
            after,
            days: days_from(event, from),
            clock: clock_of(event),
        }
    }
}

impl<'a> Iterator for Instances<'a> {
    ghost use Rattle.std.specs.Iterator.{endless};
    ghost use Rattle.cal_events.specs.Left.{GivesFirst};

    type Item = Instance<'a>;

    ghost next_gives = { GivesFirst };

    ghost remaining = { λ _. endless };

    fn next(&mut self) -> Option<Instance<'a>> {
        let place = first_place(self.event, self.after, &mut self.days, &mut self.clock)?;
        self.after = Bound {
            start: place.start,
            slot: Some(place.slot),
        };
        Some(instance_at(self.event, place))
    }
}

/// Whether an instant that is given is a start, and is to come.
fn is_wanted(recurrence: &Recurrence, after: Bound, instant: i64) -> bool
    ensures { IsTrue result ↔ IsWanted (recurring recurrence.now) [] after instant }
{
    if !after.admits(instant, instant) {
        return false;
    }
    is_start(instant, &recurrence.exceptions)
}

/// Whether an instant that is given is a start: it is in the dates that an event may name, and isn't excepted.
pub(crate) fn is_start(instant: i64, exceptions: &Instants) -> bool
    ensures { IsTrue result ↔ (IsInEventDates instant × (Contains exceptions.now instant → ⊥)) }
{
    if !is_in_event_dates(instant) {
        return false;
    }
    !exceptions.has(instant)
}

/// Whether an instant is in the dates that an event may name: in UTC from 1969-12-31 on, and before 10000-01-01T00:00:00Z.
pub fn is_in_event_dates(instant: i64) -> bool
    ensures is { result ≡ is_in_dates instant }
    ensures in_dates { IsTrue result ↔ IsInEventDates instant }
{
    instant < HORIZON && instant >= FIRST_SECOND
}

/// The first start after a bound that is added.
fn first_added(recurrence: &Recurrence, after: Bound) -> Option<i64>
    ensures { IsLeast (λ t. Contains recurrence.now.additions t × IsWanted (recurring recurrence.now) [] after t) result }
{
    recurrence.additions.first_from(after.first_own_start())
}

/// The lesser of two instants, where there are any.
fn lesser(a: Option<i64>, b: Option<i64>) -> Option<i64>
    ensures { result ≡ lesser a b }
{
    match (a, b) {
        (None, _) => b,
        (Some(_), None) => a,
        (Some(x), Some(y)) if y < x => b,
        (Some(_), Some(_)) => a,
    }
}

/// The first start after a bound that DTSTART or the rule gives.
fn first_given(
    recurrence: &Recurrence,
    after: Bound,
    days: &mut RuleDays<'_>,
    clock: &mut Clock,
) -> Option<i64>
    requires walked { AreWalked (recurring recurrence.now) [] after days.old }
    requires reads { IsOfClock (recurring recurrence.now) clock.old }
    ensures first { IsLeast (λ t. IsGiven (recurring recurrence.now).times (recurring recurrence.now).rule t × IsWanted (recurring recurrence.now) [] after t) result }
    ensures walked { AreWalked (recurring recurrence.now) [] after days.new }
    ensures reads { IsOfClock (recurring recurrence.now) clock.new }
{
    match &recurrence.rule {
        Some(rule) => first_on_rule(recurrence, rule, after, days, clock),
        None => {
            let start = recurrence.times.instant.instant();
            wanted_at(recurrence, after, start)
        }
    }
}

/// An instant that is given, if it is a start and is to come.
fn wanted_at(recurrence: &Recurrence, after: Bound, instant: i64) -> Option<i64>
    ensures { IsLeast (λ t. (t ≡ instant) × IsWanted (recurring recurrence.now) [] after t) result }
{
    if is_wanted(recurrence, after, instant) {
        return Some(instant);
    }
    None
}

/// The first start after a bound that the rule gives.
fn first_on_rule(
    recurrence: &Recurrence,
    _rule: &Rule,
    after: Bound,
    days: &mut RuleDays<'_>,
    clock: &mut Clock,
) -> Option<i64>
    requires rule { recurrence.now.rule ≡ Some _rule.now }
    requires walked { AreWalked (recurring recurrence.now) [] after days.old }
    requires reads { IsOfClock (recurring recurrence.now) clock.old }
    ensures first { IsLeast (λ t. IsGiven (recurring recurrence.now).times (recurring recurrence.now).rule t × IsWanted (recurring recurrence.now) [] after t) result }
    ensures walked { AreWalked (recurring recurrence.now) [] after days.new }
    ensures reads { IsOfClock (recurring recurrence.now) clock.new }
{
    let (_, second) = recurrence.times.start.local().day_and_second();
    pass_given(after, days);
    while let Some(found) = days.next() {
        let start = start_by(clock, found, second);
        if is_wanted(recurrence, after, start) {
            days.put_back(found, start);
            return Some(start);
        }
    }
    None
}

/// Passes the day that was put back, unless its start is still to come.
fn pass_given(after: Bound, days: &mut RuleDays<'_>)
    ensures { StayWalked after days.old days.new }
{
    if let Some(day) = days.first {
        if !after.admits(days.start, days.start) {
            days.pass(day);
        }
    }
}

/// The instant that a second of a day means on the clocks of a time's zone.
pub(crate) fn start_on(time: &When, day: Day, second: u32) -> i64
    requires day { day ≤ℤ pos 2_932_896 }
    requires second { second < 86_400 }
    ensures meaning { Means (clock_of (zone_said time.now)) (local_time (day_index day) second) result }
    ensures range { IsNearEpoch result }
{
    let local = LocalTime::of_day(day, second).unwrap();
    time.clock().resolve(local)
}

/// The instant that a second of a day means on clocks.
fn start_by(clock: &mut Clock, day: Day, second: u32) -> i64
    requires day { day ≤ℤ pos 2_932_896 }
    requires second { second < 86_400 }
    ensures meaning { Means (zone_of clock.old.zone) (local_time (day_index day) second) result }
    ensures range { IsNearEpoch result }
    ensures zone { clock.new.zone ≡ clock.old.zone }
{
    let local = LocalTime::of_day(day, second).unwrap();
    clock.resolve(local)
}

/// The clocks of the zone of DTSTART.
fn clock_of(event: &Event) -> Clock
    ensures { HasClock event.now.recurrence result }
{
    match &event.recurrence {
        Some(recurrence) => Clock::of(recurrence.times.start.clock()),
        None => Clock::of(Zone::utc()),
    }
}

/// The place of the first override that is to come.
fn first_moved(event: &Event, after: Bound) -> Option<InstancePlace>
    ensures { IsSoonest (λ p. (o : EventComponent) × Contains event.now.overrides.items o × IsMovedTo o after p) result }
{
    event.places.first(after)
}

/// The one of two places that comes first, where there are any.
fn sooner(a: Option<InstancePlace>, b: Option<InstancePlace>) -> Option<InstancePlace>
    ensures { IsSooner a b result }
{
    match (a, b) {
        (None, _) => b,
        (Some(_), None) => a,
        (Some(x), Some(y)) if y.is_before(x) => b,
        (Some(_), Some(_)) => a,
    }
}

/// The override that is at a place.
fn override_at<'a>(event: &'a Event, place: InstancePlace) -> Option<&'a EventComponent>
    ensures found { IfSome result (λ o. Contains event.now.overrides.items o.now × IsAtPlace o.now place) }
    ensures none { IfNone result ((o : EventComponent) → Contains event.now.overrides.items o → IsAtPlace o place → ⊥) }
{
    let which = event.places.which(place)?;
    Some(&event.overrides[which])
}

/// The days of the rule that may start at an instant or later.
fn days_from(event: &Event, from: i64) -> RuleDays<'_>
    ensures { HasPassed event.now.recurrence (record { start = from; slot = None }) result }
{
    match &event.recurrence {
        Some(recurrence) => days_of(&recurrence.times, &recurrence.rule, from),
        None => RuleDays::none(),
    }
}

/// Those of a rule, if there is one, at DTSTART's second of the day.
pub(crate) fn days_of<'a>(times: &EventTimes, given: &'a Option<Rule>, from: i64) -> RuleDays<'a>
    ensures { (master : SaidComponent) (overrides : List SaidComponent) → master.times ≡ times_of times.now → master.rule ≡ given.now
        → AreWalked master overrides (record { start = from; slot = None }) result }
{
    match given {
        Some(rule) => RuleDays::of(rule, first_day(times, rule, from)),
        None => RuleDays::none(),
    }
}

/// A day before which no day of a rule starts at an instant or later. Where the clocks show more than the least offset it starts even earlier.
fn first_day(times: &EventTimes, rule: &Rule, from: i64) -> Day
    ensures { (master : SaidComponent) (overrides : List SaidComponent) → master.times ≡ times_of times.now → master.rule ≡ Some rule.now
        → NoneBefore master overrides (record { start = from; slot = None }) (day_index result) }
{
    let (least, _) = times.start.clock().offsets();
    match LocalTime::of_seconds(from.saturating_add(least as i64)) {
        Some(local) => local.day_and_second().0,
        None => rule.start(),
    }
}

/// The first place that is to come.
fn first_place(
    event: &Event,
    after: Bound,
    days: &mut RuleDays<'_>,
    clock: &mut Clock,
) -> Option<InstancePlace>
    requires passed { HasPassed event.now.recurrence after days.old }
    requires reads { HasClock event.now.recurrence clock.old }
    ensures first { IsSoonest (IsHeld event.now.recurrence event.now.overrides.items after) result }
    ensures passed { HasPassed event.now.recurrence after days.new }
    ensures reads { HasClock event.now.recurrence clock.new }
{
    let moved = first_moved(event, after);
    match &event.recurrence {
        Some(recurrence) => {
            let start = first_start(recurrence, after, days, clock);
            sooner(own_place(start), moved)
        }
        None => moved,
    }
}

/// The first start that is to come.
fn first_start(
    recurrence: &Recurrence,
    after: Bound,
    days: &mut RuleDays<'_>,
    clock: &mut Clock,
) -> Option<i64>
    requires walked { AreWalked (recurring recurrence.now) [] after days.old }
    requires reads { IsOfClock (recurring recurrence.now) clock.old }
    ensures first { IsLeast (λ t. IsStart (recurring recurrence.now) [] t × IsAfter after t t) result }
    ensures walked { AreWalked (recurring recurrence.now) [] after days.new }
    ensures reads { IsOfClock (recurring recurrence.now) clock.new }
{
    let given = first_given(recurrence, after, days, clock);
    let added = first_added(recurrence, after);
    lesser(given, added)
}

/// The place of the instance at a start: its slot is that start.
fn own_place(start: Option<i64>) -> Option<InstancePlace>
    ensures { result ≡ option_map own_place start }
{
    match start {
        Some(start) => Some(InstancePlace { start, slot: start }),
        None => None,
    }
}

/// The instance at a place.
fn instance_at<'a>(event: &'a Event, place: InstancePlace) -> Instance<'a>
    requires { IsHeldAt event.now.recurrence event.now.overrides.items place }
    ensures instance { IsInstance (said_meeting event.now) (instance_of result) }
    ensures start { result.start ≡ place.start }
    ensures slot { result.key.slot ≡ place.slot }
{
    match (override_at(event, place), &event.recurrence) {
        (Some(component), _) => instance_with(&event.name, &component.times, place),
        (None, Some(recurrence)) => instance_with(&event.name, &recurrence.times, place),
        (None, None) => unreachable!(),
    }
}

/// The instance at a place, of an event of that name that lasts so.
fn instance_with<'a>(name: &'a EventName, times: &EventTimes, place: InstancePlace) -> Instance<'a>
    requires { IsClockSeconds place.start }
    ensures key { key_of result.key ≡ key_in (name_of name.now) place.slot }
    ensures start { result.start ≡ place.start }
    ensures ends { EndsAt (times_of times.now) place.start result.end }
{
    Instance {
        key: name.key(place.slot),
        start: place.start,
        end: times.end_from(place.start),
    }
}
