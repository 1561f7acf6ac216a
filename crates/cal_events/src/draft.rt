//! A calendar while its VEVENTs are read, one after another.
ghost use Rattle.ical_tree.specs.Own.{own_lines, own_numbered};
ghost use Rattle.std.specs.Prelude.{ℕ, List, [], ◌∷◌, ◌++◌, ◌≡◌, ◌≢◌, ◌<◌, ◌≤◌, map, filter, length, AllPairs, is_some, ◌&&◌, true, IfOk, IfErr, OnOk};
ghost use Rattle.ical_lines.specs.Fault.{RefusesOnly, RefusesBy, RefusesWhere};
ghost use Rattle.ical_values.specs.Octets.{address_octets};
ghost use Rattle.ical_tree.specs.Tree.{component_lines, component_numbered, events_in, tree_of};
ghost use Rattle.profile.specs.faults.Faults.{is_between, is_calendar_fault};
ghost use Rattle.profile.specs.checker.Calendars.{CalendarFault, CalendarTextFault};
ghost use Rattle.profile.specs.events.EventComponents.{EventComponent as SaidComponent};
ghost use Rattle.profile.specs.events.Events.{is_master};
ghost use Rattle.profile.specs.events.Starts.{EndsAt};
ghost use Rattle.profile.specs.text.Values.{IsClockSeconds};
ghost use Rattle.profile.specs.events.Confirmed.{is_kept, AreConfirmed, MastersDiffer, OverridesDiffer};
ghost use Rattle.cal_events.specs.Begins.{BetweenBlame, IsLater};
ghost use Rattle.cal_events.specs.Blame.{CalendarBlame};
ghost use Rattle.cal_events.specs.Component.{component_of};
ghost use Rattle.cal_events.specs.Calendar.{key_of, AreWithin};
ghost use Rattle.cal_events.specs.Draft.{AreOwnAt, IsDraft, IsDraftOf, IsDraftIn, IsSaid, AreSorted, AreInOrder, master_keys, override_keys, is_shown_in, AreSinglesShown, IsTwoOf};
ghost use Rattle.cal_events.specs.Masters.{AreMasters, AreSeriesOf, AreRuled};
ghost use Rattle.cal_events.specs.declared.calendar.PlacedSingle.{PlacedSingle};

use crate::calendar::{Calendar, PlacedSingle};
use crate::component::{EventComponent, PartStat};
use crate::entries::Entries;
use crate::instance::InstanceKey;
use crate::naming::Naming;
use crate::neighbours::has_equal_neighbours;
use crate::reading::{read_placed, read_room_zone};
use crate::series::Series;
use crate::single_starts::single_starts;
use crate::zones::ZonesOfObject;
use ical_lines::{Fault, Limits, Refusal, Unfolded};
use ical_tree::{Component, Object, Properties};
use ical_values::Address;
use std::alloc::{AllocError, Global};

/// The VEVENTs so far, and what would be confirmed of them if no override hid a start.
#[derive(Drop)]
pub(crate) struct Draft {
    entries: Entries,
    /// Of each VEVENT the number of its BEGIN.
    begins: Vec<usize>,
    singles: Vec<PlacedSingle>,
    series: Vec<EventComponent>,
    pub(crate) naming: Naming,
}

impl Draft {
    /// Without VEVENTs.
    pub(crate) fn new(alloc: Global) -> Draft
        ensures draft { (room : List ℕ) → IsDraft room [] result }
        ensures begun { result.begins.items ≡ [] }
    {
        Draft {
            entries: Entries::new(alloc),
            begins: Vec::new(alloc),
            singles: Vec::new(alloc),
            series: Vec::new(alloc),
            naming: Naming::none(),
        }
    }

    /// That of the calendar that the octets spell. Their text and their tree are freed when it is made.
    /// Refused: 1 to 5 and 20 to 24 for the object, and as by `of_object`.
    pub(crate) fn read(alloc: Global, bytes: &[u8], room: &Address) -> Result<Draft, Fault>
        ensures spells { IfOk result (IsDraftIn (address_octets room.now) bytes.now) }
        ensures refuses { IfErr result (RefusesOnly is_calendar_fault) }
        ensures fault { IfErr result (RefusesBy (CalendarTextFault bytes.now)) }
    {
        let text = Unfolded::read(alloc, bytes, Limits::Open)?;
        let object = Object::read(alloc, &text, Limits::Open)?;
        Draft::of_object(alloc, &object.calendar, &object.own, room)
    }

    /// That of an object that was read, of which these are the own lines.
    /// Refused: 44 for the zone of the room; as by `EventComponent::read` for a VEVENT.
    pub(crate) fn of_object(
        alloc: Global,
        object: &Component,
        own: &Properties<'_>,
        room: &Address,
    ) -> Result<Draft, Fault>
        requires { own_lines own.now ≡ component_lines object.now }
        ensures says { IfOk result (IsDraftOf (address_octets room.now) (tree_of object.now)) }
        ensures refuses { IfErr result (RefusesOnly is_calendar_fault) }
        ensures fault { IfErr result (RefusesBy (CalendarFault (tree_of object.now))) }
        ensures begun { IfOk result (λ draft. draft.begins.items ≡ map (λ event. event.begun) (events_in object.now)) }
        ensures at { own_numbered own.now ≡ component_numbered object.now → IfErr result (RefusesWhere (CalendarBlame object.now)) }
    {
        let zone = read_room_zone(alloc, own)?;
        // Only for the proof: its words mean it.
        zone.words_mean();
        let zones = ZonesOfObject::of(alloc, object)?;
        let mut draft = Draft::new(alloc);
        for component in object.children() {
            if component.is_named("VEVENT") {
                let event = read_placed(alloc, &zones, component, None, &zone)?;
                draft.add(alloc, event, room)?;
            }
        }
        Ok(draft)
    }

    /// Takes the next VEVENT, for a room. After an error it may have been taken in part.
    pub(crate) fn add(
        &mut self,
        alloc: Global,
        event: EventComponent,
        room: &Address,
    ) -> Result<(), AllocError>
        requires { IsSaid (component_of event) }
        ensures draft { (events : List SaidComponent) → IsDraft (address_octets room.now) events self.old → OnOk result (IsDraft (address_octets room.now) (events ++ component_of event ∷ []) self.new) }
        ensures begun { OnOk result (self.new.begins.items ≡ self.old.begins.items ++ event.begun ∷ []) }
    {
        let place = self.entries.len();
        self.entries.push(alloc, &event)?;
        self.begins.push(event.begun)?;
        // Only for the proof: no more are counted than there are.
        let _ = self.entries.len();
        self.naming = self.naming.with(&event, room);
        if !is_kept(&event, room) {
            return Ok(());
        }
        add_singles(alloc, &mut self.singles, place, &event)?;
        if is_series(&event) {
            self.series.push(event)?;
        }
        Ok(())
    }

    /// The calendar of these VEVENTs.
    /// Refused: 53 for two masters of one meeting, 54 for two overrides of one instance. In time n log n, and where it is refused log n as often.
    pub(crate) fn into_calendar(self, alloc: Global) -> Result<Calendar, Fault>
        requires { (room : List ℕ) × (events : List SaidComponent) × IsDraft room events self }
        ensures masters { (room : List ℕ) (events : List SaidComponent) → IsDraft room events self → IfOk result (λ _. MastersDiffer events × OverridesDiffer events) }
        ensures are { (room : List ℕ) (events : List SaidComponent) → IsDraft room events self → IfOk result (AreConfirmed room events) }
        ensures refuses { IfErr result (RefusesOnly (is_between 53 54)) }
        ensures fault { (room : List ℕ) (events : List SaidComponent) → IsDraft room events self → IfErr result (RefusesBy (IsTwoOf events)) }
        ensures at { IfErr result (RefusesWhere (BetweenBlame self.begins.items)) }
    {
        let Draft {
            entries,
            begins,
            singles,
            series,
            ..
        } = self;
        if has_equal_neighbours(&keys_of_masters(alloc, &entries)?) {
            let line = begin_of_twin(alloc, &entries, &begins, true)?;
            return Err(Fault::Refused(Refusal::TWO_MASTERS.at(line)));
        }
        let (singles, series) = shown(alloc, &entries, &begins, singles, series)?;
        Ok(Calendar {
            entries,
            singles,
            series,
        })
    }
}

/// The singles that no override hides, and the series of the masters without the starts that one does.
/// Refused: 54 for two overrides of one instance.
fn shown(
    alloc: Global,
    entries: &Entries,
    begins: &[usize],
    singles: Vec<PlacedSingle>,
    masters: Vec<EventComponent>,
) -> Result<(Vec<PlacedSingle>, Vec<Series>), Fault>
    requires begins { length begins.now ≡ length entries.now }
    requires within { AreWithin entries.now singles.items }
    requires masters { AreMasters masters.items }
    ensures differ { IfOk result (λ _. AllPairs ◌≢◌ (override_keys entries.now)) }
    ensures shown { IfOk result (λ left. AreSinglesShown entries.now singles.items left.0.items) }
    ensures ruled { IfOk result (λ left. AreRuled entries.now masters.items left.1.items) }
    ensures fault { IfErr result (RefusesBy (λ n. (n ≡ 54) × (AllPairs ◌≢◌ (override_keys entries.now) → ⊥))) }
    ensures at { IfErr result (RefusesWhere (BetweenBlame begins.now)) }
{
    let overrides = keys_of_overrides(alloc, entries)?;
    if has_equal_neighbours(&overrides) {
        let line = begin_of_twin(alloc, entries, begins, false)?;
        return Err(Fault::Refused(Refusal::TWO_OVERRIDES.at(line)));
    }
    let singles = without_hidden(alloc, entries, singles, &overrides)?;
    let series = series_of(alloc, masters, &overrides)?;
    Ok((singles, series))
}

/// The number of the BEGIN of the first master of the meeting of an earlier one, or of the first override for the instance of an earlier one, where
/// there is one. It fails only when out of memory.
fn begin_of_twin(
    alloc: Global,
    entries: &Entries,
    begins: &[usize],
    masters: bool,
) -> Result<usize, AllocError>
    requires two { 1 < length entries.now }
    requires begins { length begins.now ≡ length entries.now }
    ensures { IfOk result (IsLater begins.now) }
{
    // No two of the first so many are twins, and two of the first so many.
    let mut apart: usize = 1;
    let mut twins = begins.len();
    while apart + 1 < twins {
        let middle = apart + (twins - apart) / 2;
        if have_twins(alloc, entries, middle, masters)? {
            twins = middle;
        } else {
            apart = middle;
        }
    }
    Ok(begins[twins - 1])
}

/// Whether two of the first so many masters are of one meeting, or two of the first so many overrides for one instance.
/// No clause says so: it is asked of refused ones alone.
fn have_twins(
    alloc: Global,
    entries: &Entries,
    count: usize,
    masters: bool,
) -> Result<bool, AllocError>
    requires { count ≤ length entries.now }
{
    let mut keys = Vec::new(alloc);
    for place in 0..count {
        let recurrence = entries.recurrence(place);
        if recurrence.is_none() == masters {
            keys.push(entries.key_at(place, recurrence.unwrap_or(0)))?;
        }
    }
    keys.sort_unstable();
    Ok(has_equal_neighbours(&keys))
}

/// The series of the masters, where overrides replace these instances, in order. It fails only when out of memory.
fn series_of(
    alloc: Global,
    masters: Vec<EventComponent>,
    overrides: &[InstanceKey<'_>],
) -> Result<Vec<Series>, AllocError>
    requires masters { AreMasters masters.items }
    requires sorted { AreInOrder overrides.now }
    ensures { IfOk result (λ series. AreSeriesOf (map key_of overrides.now) masters.items series.items) }
{
    let mut series = Vec::new(alloc);
    for master in masters {
        series.push(Series::of(alloc, master, overrides)?)?;
    }
    Ok(series)
}

/// Those that none of the overrides hides. It fails only when out of memory.
fn without_hidden(
    alloc: Global,
    entries: &Entries,
    singles: Vec<PlacedSingle>,
    overrides: &[InstanceKey<'_>],
) -> Result<Vec<PlacedSingle>, AllocError>
    requires within { AreWithin entries.now singles.items }
    requires sorted { AreInOrder overrides.now }
    ensures { IfOk result (λ left. left.items ≡ filter (is_shown_in entries.now (map key_of overrides.now)) singles.items) }
{
    if overrides.is_empty() {
        return Ok(singles);
    }
    let mut left = Vec::new(alloc);
    for single in &singles {
        if is_shown(entries, overrides, *single) {
            left.push(*single)?;
        }
    }
    Ok(left)
}

/// Whether the room has accepted an event that isn't cancelled.
fn is_kept(event: &EventComponent, room: &Address) -> bool
    ensures { result ≡ is_kept (address_octets room.now) (component_of event.now) }
{
    match event.status_of(room) {
        Some(PartStat::Accepted) => !event.cancelled,
        _ => false,
    }
}

/// Whether it is a master with RRULE.
pub(crate) fn is_series(event: &EventComponent) -> bool
    ensures { result ≡ is_master (component_of event.now) && is_some event.now.rule }
{
    event.recurrence.is_none() && event.rule.is_some()
}

/// Appends the singles of an event, which is at that place, by start.
fn add_singles(
    alloc: Global,
    singles: &mut Vec<PlacedSingle>,
    entry: usize,
    event: &EventComponent,
) -> Result<(), AllocError>
    requires { IsSaid (component_of event.now) }
    ensures { (room : List ℕ) → is_kept room (component_of event.now) ≡ true
        → OnOk result ((own : List PlacedSingle) × (singles.new.items ≡ singles.old.items ++ own) × AreOwnAt room entry (component_of event.now) own) }
{
    match event.recurrence {
        Some(slot) => {
            let start = event.times.instant.instant();
            singles.push(single_at(entry, event, slot, start))?;
        }
        None => {
            let starts = single_starts(alloc, event)?;
            for start in &starts {
                singles.push(single_at(entry, event, *start, *start))?;
            }
        }
    }
    Ok(())
}

/// The instance of an event at a start, with that slot.
fn single_at(entry: usize, event: &EventComponent, slot: i64, start: i64) -> PlacedSingle
    requires { IsClockSeconds start }
    ensures place { (result.entry ≡ entry) × (result.slot ≡ slot) × (result.start ≡ start) }
    ensures ends { EndsAt (component_of event.now).times start result.end }
{
    PlacedSingle {
        entry,
        slot,
        start,
        end: event.times.end_from(start),
    }
}

/// The keys of the masters, with slot 0, in order.
pub(crate) fn keys_of_masters(
    alloc: Global,
    entries: &Entries,
) -> Result<Vec<InstanceKey<'_>>, AllocError>
    ensures { IfOk result (λ keys. AreSorted (master_keys entries.now) keys.items) }
{
    let mut keys = Vec::new(alloc);
    for place in 0..entries.len() {
        if entries.recurrence(place).is_none() {
            keys.push(entries.key_at(place, 0))?;
        }
    }
    keys.sort_unstable();
    Ok(keys)
}

/// The keys of the instances that overrides replace, in order.
pub(crate) fn keys_of_overrides(
    alloc: Global,
    entries: &Entries,
) -> Result<Vec<InstanceKey<'_>>, AllocError>
    ensures { IfOk result (λ keys. AreSorted (override_keys entries.now) keys.items) }
{
    let mut keys = Vec::new(alloc);
    for place in 0..entries.len() {
        if let Some(slot) = entries.recurrence(place) {
            keys.push(entries.key_at(place, slot))?;
        }
    }
    keys.sort_unstable();
    Ok(keys)
}

/// Whether a single is an override's, or no override replaces its start.
fn is_shown(entries: &Entries, overrides: &[InstanceKey<'_>], single: PlacedSingle) -> bool
    requires within { single.entry < length entries.now }
    requires sorted { AreInOrder overrides.now }
    ensures { result ≡ is_shown_in entries.now (map key_of overrides.now) single }
{
    let key = entries.key_at(single.entry, single.slot);
    entries.recurrence(single.entry).is_some() || overrides.binary_search(&key).is_err()
}
