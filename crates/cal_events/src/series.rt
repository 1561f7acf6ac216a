//! A series: a master by its rule alone (RFC 5545 3.8.5.3). What RDATE adds belongs to none.
ghost use Rattle.std.specs.Prelude.{◌≡◌, ◌↔◌, ◌^◌, ◌≤ℤ◌, ◌<ℤ◌, pos, true, false, Contains, Some, is_some, map, option_map, filter, IfOk, MatchOption};
ghost use Rattle.ical_values.specs.Octets.{text_octets};
ghost use Rattle.profile.specs.checker.Instances.{Instance as SaidInstance};
ghost use Rattle.profile.specs.events.Starts.{IsInstance, IsFirstOverlap, IsFirstSharer, IsWidth};
ghost use Rattle.profile.specs.events.Spans.{IsLeastPast, IsWidthOf, HasNoPeriodOf, IsLeastPeriodOf, IsSaidSeries};
ghost use Rattle.profile.specs.events.Confirmed.{IsByItsRule, has_series};
ghost use Rattle.profile.specs.events.EventComponents.{EventComponent as Said, meeting_said};
ghost use Rattle.profile.specs.events.ZonedTimes.{clock_of};
ghost use Rattle.cal_zones.specs.Kinds.{zone_of};
ghost use Rattle.cal_events.specs.Clocks.{IsSteady};
ghost use Rattle.cal_events.specs.Calendar.{key_of, owned_key_of, instance_of};
ghost use Rattle.cal_events.specs.Draft.{AreInOrder};
ghost use Rattle.cal_events.specs.Component.{component_of, times_of, zone_said};
ghost use Rattle.cal_events.specs.Left.{IsLeft};
ghost use Rattle.cal_events.specs.Past.{IsKeptPast};
ghost use Rattle.cal_events.specs.Event.{said_meeting};
ghost use Rattle.cal_events.specs.Ruled.{IsRuled, IsOfRule, IsRuledBeside, AreSlotsOf, cmp_to, is_key_of};
ghost use Rattle.cal_events.specs.Said.{AreSaidWith};

use crate::component::EventComponent;
use crate::draft::is_series;
use crate::event::Event;
use crate::event_times::EventTimes;
use crate::instance::{Instance, InstanceKey, OwnedKey};
use crate::instances::Instances;
use crate::instants::copied;
use crate::recurrence::{EventName, Recurrence};
use crate::regular::regular_from;
use crate::sweep::Span;
use cal_rules::{Rule, common_multiple, shifts_are_multiples};
use cal_zones::Zone;
use std::alloc::{AllocError, Global};
use std::cmp::Ordering;
use std::rc::Rc;

/// A series: a master with RRULE, by its rule alone. In a calendar it is one that the room has accepted, and what overrides of its meeting
/// replace isn't one of its starts.
///
/// Its copies share what it was made of, so one costs no more than a count.
#[derive(Drop)]
pub struct Series {
    event: Rc<Event>,
    /// The least instant after all that it doesn't do again.
    from: i64,
    ghost ruled: { IsRuled event.value },
    ghost said: { ∥ IsSaidSeries (said_meeting event.value) ∥₁ },
    ghost past: { IsKeptPast (said_meeting event.value) from },
}

impl Series {
    ghost use Rattle.cal_events.specs.Series.{series_said, IsMasterOf, IsSeriesWithout};
    ghost use Rattle.cal_events.specs.Recurrence.{name_of, organiser_of, master_of};
    ghost use Rattle.cal_events.specs.Seconds.{IsSecondOf};

    /// The series of a master, where overrides replace these instances, in order. It fails only when out of memory.
    pub(crate) fn of(
        alloc: Global,
        master: EventComponent,
        overrides: &[InstanceKey<'_>],
    ) -> Result<Series, AllocError>
        requires rule { is_some master.rule ≡ true }
        requires sorted { AreInOrder overrides.now }
        ensures { IfOk result (λ series. IsRuledBeside (map key_of overrides.now) (component_of master) (series_said series)) }
    {
        let mut exceptions = replaced(alloc, &master, overrides)?;
        exceptions.extend_from_slice(&master.exceptions)?;
        let EventComponent {
            uid,
            organiser,
            times,
            rule,
            ..
        } = master;
        Series::by_rule(alloc, EventName { organiser, uid }, times, rule, exceptions)
    }

    /// The series of a master by itself, whatever other VEVENTs are for. It fails only when out of memory.
    fn by_itself(alloc: Global, master: &EventComponent) -> Result<Series, AllocError>
        requires { is_some master.now.rule ≡ true }
        ensures { IfOk result (λ series. IsByItsRule (component_of master.now) (Contains master.now.exceptions.items) (series_said series)) }
    {
        let name = master.name()?;
        let exceptions = copied(alloc, &master.exceptions)?;
        let rule = master.rule.clone()?;
        Series::by_rule(alloc, name, master.times, rule, exceptions)
    }

    /// The series of that name that starts and lasts so, by a rule, except at these instants. It fails only when out of memory.
    fn by_rule(
        alloc: Global,
        name: EventName,
        times: EventTimes,
        rule: Option<Rule>,
        exceptions: Vec<i64>,
    ) -> Result<Series, AllocError>
        requires steady { IsSteady (clock_of (zone_said times.start)) }
        requires rule { is_some rule ≡ true }
        requires said { ∥ AreSaidWith (times_of times) rule ∥₁ }
        ensures { (master : Said) → IsOfRule (organiser_of name) (text_octets name.uid) times rule master
            → IfOk result (λ series. IsByItsRule master (Contains exceptions.items) (series_said series)) }
    {
        let recurrence = Recurrence::of(alloc, times, rule, &[], exceptions)?;
        let from = regular_from(&recurrence);
        let event = Rc::new(alloc, Event::recurring(alloc, name, recurrence))?;
        Ok(Series { event, from })
    }

    /// The series of its master by the rule, except at these instants alone. It fails only when out of memory.
    fn except(&self, alloc: Global, exceptions: Vec<i64>) -> Result<Series, AllocError>
        ensures { (master : Said) → IsMasterOf (series_said self.now) master → IfOk result (λ series. IsByItsRule master (Contains exceptions.items) (series_said series)) }
    {
        let recurrence = self.recurrence();
        let name = self.event.name.copy()?;
        let rule = recurrence.rule.clone()?;
        Series::by_rule(alloc, name, recurrence.times, rule, exceptions)
    }

    /// The same series once more: what it was made of is shared. It fails only where more share it than a count tells.
    pub fn copy(&self) -> Result<Series, AllocError>
        ensures { IfOk result (λ copy. series_said copy ≡ series_said self.now) }
    {
        let event = self.event.clone()?;
        Ok(Series {
            event,
            from: self.from,
        })
    }

    /// The series without the instances at these starts, as if EXDATE named them. In time n log n; where there is no start it is the same series
    /// once more. It fails only when out of memory.
    pub fn without(&self, alloc: Global, starts: &[i64]) -> Result<Series, AllocError>
        ensures { IfOk result (λ left. IsSeriesWithout (series_said self.now) starts.now (series_said left)) }
    {
        if starts.is_empty() {
            return self.copy();
        }
        let mut exceptions = copied(alloc, self.recurrence().exceptions.sorted())?;
        exceptions.extend_from_slice(starts)?;
        self.except(alloc, exceptions)
    }

    /// Its starts at an instant or later, in seconds from 1970-01-01T00:00:00Z, with their ends: ascending, each once. Takes no memory, and
    /// looks at nothing that comes before.
    pub fn starts(&self, from: i64) -> Instances<'_>
        ensures left { (b : SaidInstance) → IsLeft result b ↔ IsInstance (series_said self.now) b × (from ≤ℤ b.start) }
        ensures of { said_meeting result.event.now ≡ series_said self.now }
    {
        self.event.instances(from)
    }

    /// The first of its instances that shares an instant with a span; None where none does. It begins to look where one that starts earlier
    /// would be over.
    pub fn first_overlap(&self, span: Span) -> Option<Instance<'_>>
        ensures { IsFirstOverlap (series_said self.now) span.start span.end (option_map instance_of result) }
    {
        self.event.first_overlap(span)
    }

    /// The first that shares one before the horizon: the first that can clash with what lasts as long as the span.
    pub fn first_sharer(&self, span: Span) -> Option<Instance<'_>>
        ensures { IsFirstSharer (series_said self.now) span.start span.end (option_map instance_of result) }
    {
        self.first_overlap(span.before_horizon())
    }

    /// The rule by which it recurs.
    pub fn rule(&self) -> &Rule
        ensures { (master : Said) → IsMasterOf (series_said self.now) master → master.rule ≡ Some result.now }
    {
        match &self.recurrence().rule {
            Some(rule) => rule,
            None => unreachable!(),
        }
    }

    /// The zone of its starts.
    pub fn zone(&self) -> Zone
        ensures { (master : Said) → IsMasterOf (series_said self.now) master → zone_of result ≡ clock_of master.times.zone }
    {
        self.recurrence().times.start.clock()
    }

    /// The second of its day at which it starts, by the clocks of its zone.
    pub fn second(&self) -> u32
        ensures { IsSecondOf (series_said self.now) result }
    {
        let (_, second) = self.recurrence().times.start.local().day_and_second();
        second
    }

    /// No instance of it lasts longer, in exact seconds: its length with days of 86,400 seconds, and where it has days the difference of its
    /// zone's offsets.
    pub fn width(&self) -> i64
        ensures width { (master : Said) → IsMasterOf (series_said self.now) master → IsWidth master.times result }
        ensures of { IsWidthOf (series_said self.now) result }
        ensures range { (pos 0 ≤ℤ result) × (result <ℤ pos (2 ^ 50)) }
    {
        self.recurrence().times.width()
    }

    /// The least instant after all that it doesn't do again: after DTSTART, its exceptions, and the first onsets of its zone by half a day; and
    /// after the last start of a rule that ends.
    pub fn regular_from(&self) -> i64
        ensures { IsLeastPast (series_said self.now) result }
    {
        // Only for the proof: they are past.
        let _ = self.zone().first_onsets();
        self.from
    }

    /// After how many days it does the same again, from that instant on: after so many does its rule, and so do the clocks of its zone. None where
    /// they are more than 2,932,897. Of a rule that ends there is nothing to do again.
    pub fn period_days(&self) -> Option<u64>
        ensures { MatchOption result (HasNoPeriodOf (series_said self.now)) (IsLeastPeriodOf (series_said self.now)) }
    {
        // Only for the proof: the periods of a rule are the multiples of the least one.
        shifts_are_multiples();
        let Some(rule_days) = self.rule().period_days() else {
            return None;
        };
        common_multiple(rule_days, self.zone().period_days())
    }

    /// The key of its instance at a start, owned. It fails only when out of memory.
    pub fn key(&self, alloc: Global, start: i64) -> Result<OwnedKey, AllocError>
        ensures { IfOk result (λ key. (b : SaidInstance) → IsInstance (series_said self.now) b → b.start ≡ start → owned_key_of key ≡ b.key) }
    {
        self.event.name.owned_key(alloc, start)
    }

    fn recurrence(&self) -> &Recurrence
        ensures is { self.now.event.value.recurrence ≡ Some result.now }
        ensures master { IsMasterOf (series_said self.now) (master_of self.now.event.value.name result.now) }
        ensures ruled { is_some result.now.rule ≡ true }
    {
        match &self.event.recurrence {
            Some(recurrence) => recurrence,
            None => unreachable!(),
        }
    }
}

impl EventComponent {
    ghost use Rattle.cal_events.specs.Series.{series_said, IsSeriesOf};

    /// The series of an event by itself: what its RRULE gives, except for what EXDATE names, and whatever other VEVENTs are for. None where it
    /// has no RRULE, or is for one instance. It fails only when out of memory.
    pub fn series(&self, alloc: Global) -> Result<Option<Series>, AllocError>
        ensures { IfOk result (λ found. MatchOption found (has_series (component_of self.now) ≡ false) (λ series. IsSeriesOf (component_of self.now) (series_said series))) }
    {
        if !is_series(self) {
            return Ok(None);
        }
        Ok(Some(Series::by_itself(alloc, self)?))
    }
}

/// The instants that overrides of a master's meeting replace. It fails only when out of memory.
fn replaced(
    alloc: Global,
    master: &EventComponent,
    overrides: &[InstanceKey<'_>],
) -> Result<Vec<i64>, AllocError>
    requires { AreInOrder overrides.now }
    ensures { IfOk result (λ slots. AreSlotsOf (map key_of overrides.now) (meeting_said (component_of master.now)) slots.items) }
{
    let mut slots = Vec::new(alloc);
    for key in own_keys(overrides, master.organiser_text(), master.uid.as_str()) {
        slots.push(key.slot)?;
    }
    Ok(slots)
}

/// Those of the keys, in order, that are of one meeting. They are looked for by binary search.
fn own_keys<'a>(keys: &'a [InstanceKey<'a>], organiser: &str, uid: &str) -> &'a [InstanceKey<'a>]
    requires sorted { AreInOrder keys.now }
    ensures { result.now ≡ filter (is_key_of (organiser.now, uid.now)) keys.now }
{
    let first = keys.partition_point(|key| cmp_meeting(key, organiser, uid).is_lt());
    let rest = &keys[first..];
    let count = rest.partition_point(|key| cmp_meeting(key, organiser, uid).is_eq());
    &rest[..count]
}

/// The meeting of a key beside another, by organiser and UID as octets.
fn cmp_meeting(key: &InstanceKey<'_>, organiser: &str, uid: &str) -> Ordering
    ensures { result ≡ cmp_to (organiser.now, uid.now) key.now }
{
    key.organiser.cmp(organiser).then(key.uid.cmp(uid))
}
