//! The VEVENTs of one meeting (RFC 5545 3.8.4.4, RFC 5546 3.2): of one UID and one ORGANIZER, and each of another slot of it.

ghost use Rattle.std.specs.Prelude.{◌≡◌, ◌≢◌, ◌<◌, ◌≤◌, ◌||◌, AllPairs, Contains, MatchBool, MatchOption, None, Some, is_none, length, map, filter, option_map, IfOk, IfErr, IfSome, OnOk};
ghost use Rattle.std.specs.Option.{option_to_list};
ghost use Rattle.std.specs.List.{list_all};
ghost use Rattle.ical_lines.specs.Fault.{RefusesOnly, RefusesBy, RefusesWhere};
ghost use Rattle.ical_tree.specs.Tree.{events_in, tree_of, zones_in};
ghost use Rattle.profile.specs.events.EventBlame.{EventsBlame};
ghost use Rattle.cal_events.specs.Begins.{begins_of, BetweenBlame, IsLater};
ghost use Rattle.profile.specs.events.Events.{as_added, is_same_meeting, is_master, is_override, taken_by, AreOfOne, InstancesDiffer, TimesDiffer, OverridesApart, SaysEvent, EventFault};
ghost use Rattle.profile.specs.rooms.Messages.{instants_in};
ghost use Rattle.cal_events.specs.Component.{component_of, form_of, method_read, time_of, vevents_of};
ghost use Rattle.cal_events.specs.OneMeeting.{is_components_fault};
ghost use Rattle.cal_zones.specs.RoomZones.{room_of};
ghost use Rattle.cal_events.specs.MeetingComponents.{instants_said, times_named, NameInstances, AreOfObject, AreOfObjectIn, IsNotOne, SharesSlot};

use crate::component::EventComponent;
use crate::instants::has_twins;
use crate::method::Method;
use crate::reading::read_events;
use crate::time::Time;
use crate::when::Form;
use cal_zones::RoomZone;
use ical_lines::{Fault, Refusal};
use ical_tree::Component;
use std::alloc::{AllocError, Global};

/// The VEVENTs of one meeting, divided.
#[derive(Drop)]
pub(crate) struct MeetingComponents {
    /// The one without RECURRENCE-ID, None where there is none.
    pub master: Option<EventComponent>,
    /// Those with one, each for another instance, in the order of the text.
    pub overrides: Vec<EventComponent>,
    /// The instances that they are for, in their order.
    pub(crate) instants: Vec<i64>,
}

impl MeetingComponents {
    ghost use Rattle.cal_events.specs.OneMeeting.{meeting_of, is_components_fault};

    /// The VEVENTs of an object whose METHOD is ignored, in a room of this zone.
    /// Refused: as by `read_meeting`.
    pub(crate) fn read(
        alloc: Global,
        object: &Component,
        room: &RoomZone,
    ) -> Result<MeetingComponents, Fault>
        ensures says { IfOk result (λ meeting. SaysEvent (room_of room.now) (tree_of object.now) None (meeting_of meeting)) }
        ensures instants { IfOk result (λ meeting. map Some meeting.instants.items ≡ instants_said (map component_of meeting.overrides.items)) }
        ensures refuses { IfErr result (RefusesOnly is_components_fault) }
        ensures fault { IfErr result (RefusesBy (EventFault (room_of room.now) (tree_of object.now) None)) }
        ensures at { IfErr result (RefusesWhere (EventsBlame None (zones_in object.now) (events_in object.now))) }
    {
        let components = read_meeting_in(alloc, object, None, room)?;
        let divided = MeetingComponents::of(alloc, components)?;
        Ok(divided)
    }

    /// These, divided by RECURRENCE-ID, which one of them at most may lack. It fails only when out of memory.
    fn of(alloc: Global, components: Vec<EventComponent>) -> Result<MeetingComponents, AllocError>
        requires masters { length (filter is_master (map component_of components.items)) ≤ 1 }
        ensures master { IfOk result (λ d. filter is_master (map component_of components.items) ≡ option_to_list (option_map component_of d.master)) }
        ensures overrides { IfOk result (λ d. filter is_override (map component_of components.items) ≡ map component_of d.overrides.items) }
        ensures instants { IfOk result (λ d. map Some d.instants.items ≡ instants_said (map component_of d.overrides.items)) }
    {
        let mut masters = Vec::new(alloc);
        let mut overrides = Vec::new(alloc);
        let mut instants = Vec::new(alloc);
        for component in components {
            if let Some(instant) = component.recurrence {
                instants.push(instant)?;
                overrides.push(component)?;
            } else {
                masters.push(component)?;
            }
        }
        let master = masters.pop();
        Ok(MeetingComponents {
            master,
            overrides,
            instants,
        })
    }
}

/// The VEVENTs of an object, which are of one meeting, in the order of the text, as this METHOD takes them: those of an ADD as the instances
/// of their own starts. None is an object whose METHOD is ignored. In time n log n, and where it is refused for 54 log n as often.
/// Refused: as by `EventComponent::read` for one of them; 66 where there is none; 62 for two UIDs or two ORGANIZERs; 53 for two without
/// RECURRENCE-ID; 54 for two of the same instance, in a message for two that name it by the same time.
pub fn read_meeting(
    alloc: Global,
    object: &Component,
    method: Option<Method>,
) -> Result<Vec<EventComponent>, Fault>
    ensures says { IfOk result (λ events. AreOfObject (tree_of object.now) (method_read method) (vevents_of object.now) (map component_of events.items)) }
    ensures refuses { IfErr result (RefusesOnly is_components_fault) }
    ensures fault { IfErr result (RefusesBy (EventFault None (tree_of object.now) (method_read method))) }
    ensures at { IfErr result (RefusesWhere (EventsBlame (method_read method) (zones_in object.now) (events_in object.now))) }
    ensures begun { IfOk result (λ events. begins_of events.items ≡ map (λ event. event.begun) (events_in object.now)) }
{
    let utc = RoomZone::utc();
    read_meeting_in(alloc, object, method, &utc)
}

/// The VEVENTs of one meeting, as a room of this zone has them.
fn read_meeting_in(
    alloc: Global,
    object: &Component,
    method: Option<Method>,
    room: &RoomZone,
) -> Result<Vec<EventComponent>, Fault>
    ensures says { IfOk result (λ events. AreOfObjectIn (room_of room.now) (tree_of object.now) (method_read method) (vevents_of object.now) (map component_of events.items)) }
    ensures refuses { IfErr result (RefusesOnly is_components_fault) }
    ensures fault { IfErr result (RefusesBy (EventFault (room_of room.now) (tree_of object.now) (method_read method))) }
    ensures at { IfErr result (RefusesWhere (EventsBlame (method_read method) (zones_in object.now) (events_in object.now))) }
    ensures begun { IfOk result (λ events. begins_of events.items ≡ map (λ event. event.begun) (events_in object.now)) }
{
    let components = read_events(alloc, object, method, room)?;
    judge_meeting(&components)?;
    let taken = taken_for(alloc, method, components)?;
    judge_slots(alloc, &taken, method)?;
    Ok(taken)
}

/// Components as the method of a message takes them. It fails only when out of memory.
fn taken_for(
    alloc: Global,
    method: Option<Method>,
    components: Vec<EventComponent>,
) -> Result<Vec<EventComponent>, AllocError>
    ensures are { IfOk result (λ taken. map component_of taken.items ≡ taken_by (method_read method) (map component_of components.items)) }
    ensures begun { IfOk result (λ taken. begins_of taken.items ≡ begins_of components.items) }
{
    match method {
        Some(Method::Add) => all_added(alloc, components),
        _ => Ok(components),
    }
}

/// Components as an ADD takes them. It fails only when out of memory.
fn all_added(
    alloc: Global,
    components: Vec<EventComponent>,
) -> Result<Vec<EventComponent>, AllocError>
    ensures are { IfOk result (λ added. map component_of added.items ≡ map as_added (map component_of components.items)) }
    ensures begun { IfOk result (λ added. begins_of added.items ≡ begins_of components.items) }
{
    let mut added = Vec::new(alloc);
    for component in components {
        let mut instance = component;
        add(&mut instance);
        added.push(instance)?;
    }
    Ok(added)
}

/// Takes a component as an ADD does: as the instance of its own start, whatever RECURRENCE-ID says (RFC 5546 3.2.4).
fn add(component: &mut EventComponent)
    ensures added { component_of component.new ≡ as_added (component_of component.old) }
    ensures begun { component.new.begun ≡ component.old.begun }
{
    let times = component.times;
    let instant = times.instant.instant();
    component.recurrence = Some(instant);
    component.written.recurrence = Some(Time {
        form: times.start.form(),
        instant,
    });
}

/// Refuses components that aren't those of one meeting.
/// Refused: 66 where there is none, 62 for two UIDs or two ORGANIZERs.
fn judge_meeting(components: &[EventComponent]) -> Result<(), Refusal>
    ensures some { OnOk result (0 < length (map component_of components.now)) }
    ensures one { OnOk result (AreOfOne (map component_of components.now)) }
    ensures fault { IfErr result (λ e. IsNotOne (map component_of components.now) e.number) }
    ensures at { IfErr result (λ e. BetweenBlame (begins_of components.now) e.number e.line) }
{
    let Some((first, others)) = components.split_first() else {
        return Err(Refusal::NO_EVENT);
    };
    match of_another_meeting(first, others) {
        Some(line) => Err(Refusal::TWO_MEETINGS.at(line)),
        None => Ok(()),
    }
}

/// The number of the BEGIN of the first of the others that isn't of the same meeting, None where all are.
fn of_another_meeting(first: &EventComponent, others: &[EventComponent]) -> Option<usize>
    ensures none { is_none result ≡ list_all (λ other. is_same_meeting (component_of first.now) (component_of other)) others.now }
    ensures at { IfSome result (Contains (begins_of others.now)) }
{
    for other in others {
        if !is_same_meeting(first, other) {
            return Some(other.begun);
        }
    }
    None
}

/// Whether both are of one UID and one ORGANIZER.
fn is_same_meeting(a: &EventComponent, b: &EventComponent) -> bool
    ensures { result ≡ is_same_meeting (component_of a.now) (component_of b.now) }
{
    a.uid.as_str() == b.uid.as_str() && a.organiser_text() == b.organiser_text()
}

/// Refuses components of which two are of one slot of their meeting, as this METHOD takes them. In time n log n, and where two are of the same
/// instance, log n as often.
/// Refused: 53 for two without RECURRENCE-ID, 54 for two of the same instance.
fn judge_slots(
    alloc: Global,
    components: &[EventComponent],
    method: Option<Method>,
) -> Result<(), Fault>
    requires named { NameInstances (map component_of components.now) }
    ensures masters { OnOk result (length (filter is_master (map component_of components.now)) ≤ 1) }
    ensures differ { OnOk result (OverridesApart (method_read method) (filter is_override (map component_of components.now))) }
    ensures fault { IfErr result (RefusesBy (SharesSlot (method_read method) (map component_of components.now))) }
    ensures at { IfErr result (RefusesWhere (BetweenBlame (begins_of components.now))) }
{
    if let Some(line) = second_master(components) {
        return Err(Fault::Refused(Refusal::TWO_MASTERS.at(line)));
    }
    if share_slot(alloc, components, method)? {
        let line = shared_again(alloc, components, method)?;
        return Err(Fault::Refused(Refusal::TWO_OVERRIDES.at(line)));
    }
    Ok(())
}

/// The number of the BEGIN of the second that lacks RECURRENCE-ID, None where one lacks it at most.
fn second_master(components: &[EventComponent]) -> Option<usize>
    ensures one { MatchOption result (length (filter is_master (map component_of components.now)) ≤ 1)
        (λ _. 1 < length (filter is_master (map component_of components.now))) }
    ensures at { IfSome result (IsLater (begins_of components.now)) }
{
    let mut masters: usize = 0;
    for component in components {
        if component.recurrence.is_none() {
            if masters == 1 {
                return Some(component.begun);
            }
            masters += 1;
        }
    }
    None
}

/// The number of the BEGIN of the first that is for the same instance as one before it, where two are for the same.
/// It fails only when out of memory.
fn shared_again(
    alloc: Global,
    components: &[EventComponent],
    method: Option<Method>,
) -> Result<usize, AllocError>
    requires named { NameInstances (map component_of components.now) }
    requires shared { OverridesApart (method_read method) (filter is_override (map component_of components.now)) → ⊥ }
    ensures { IfOk result (IsLater (begins_of components.now)) }
{
    // No two of the first so many are, and two of the first so many.
    let mut apart: usize = 1;
    let mut shared = components.len();
    while apart + 1 < shared {
        let middle = apart + (shared - apart) / 2;
        if share_slot(alloc, &components[..middle], method)? {
            shared = middle;
        } else {
            apart = middle;
        }
    }
    Ok(components[shared - 1].begun)
}

/// Whether two are for the same instance: where METHOD is ignored by the instants, in a message by the times as they are written. It fails only
/// when out of memory.
fn share_slot(
    alloc: Global,
    components: &[EventComponent],
    method: Option<Method>,
) -> Result<bool, AllocError>
    requires named { NameInstances (map component_of components.now) }
    ensures { IfOk result (λ shares. MatchBool shares (OverridesApart (method_read method) (filter is_override (map component_of components.now)) → ⊥)
        (OverridesApart (method_read method) (filter is_override (map component_of components.now)))) }
{
    match method {
        None => share_instant(alloc, components),
        Some(_) => share_time(alloc, components),
    }
}

/// Whether two are for the same instant.
fn share_instant(alloc: Global, components: &[EventComponent]) -> Result<bool, AllocError>
    ensures { IfOk result (λ shares. MatchBool shares (InstancesDiffer (filter is_override (map component_of components.now)) → ⊥)
        (InstancesDiffer (filter is_override (map component_of components.now)))) }
{
    let mut instants = Vec::new(alloc);
    for component in components {
        if let Some(instant) = component.recurrence {
            instants.push(instant)?;
        }
    }
    Ok(has_twins(instants))
}

/// Whether two name the same time, of one form and one instant.
fn share_time(alloc: Global, components: &[EventComponent]) -> Result<bool, AllocError>
    requires named { NameInstances (map component_of components.now) }
    ensures { IfOk result (λ shares. MatchBool shares (TimesDiffer (filter is_override (map component_of components.now)) → ⊥)
        (TimesDiffer (filter is_override (map component_of components.now)))) }
{
    let times = times_named(alloc, components)?;
    let fixed = share_form(alloc, &times, Form::Fixed)?;
    let floating = share_form(alloc, &times, Form::Floating)?;
    let whole_days = share_form(alloc, &times, Form::WholeDay)?;
    Ok(any_of(fixed, floating, whole_days))
}

fn any_of(a: bool, b: bool, c: bool) -> bool
    ensures { result ≡ (a || b || c) }
{
    a || b || c
}

/// The times that they name by RECURRENCE-ID.
fn times_named(alloc: Global, components: &[EventComponent]) -> Result<Vec<Time>, AllocError>
    ensures { IfOk result (λ times. map time_of times.items ≡ times_named (map component_of components.now)) }
{
    let mut times = Vec::new(alloc);
    for component in components {
        if let Some(time) = component.written.recurrence {
            times.push(time)?;
        }
    }
    Ok(times)
}

/// Whether two of the times of this form have one instant.
fn share_form(alloc: Global, times: &[Time], form: Form) -> Result<bool, AllocError>
    ensures { IfOk result (λ shares. MatchBool shares (AllPairs ◌≢◌ (instants_in (form_of form) (map time_of times.now)) → ⊥)
        (AllPairs ◌≢◌ (instants_in (form_of form) (map time_of times.now)))) }
{
    let mut instants = Vec::new(alloc);
    for time in times {
        if time.form == form {
            instants.push(time.instant)?;
        }
    }
    Ok(has_twins(instants))
}
