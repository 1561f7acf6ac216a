//! When a meeting takes place, but for what overrides say: by a rule, at what is added, and not at what is excepted (RFC 5545 3.8.5.3, 3.8.5.2,
//! 3.8.5.1).

ghost use Rattle.std.specs.Prelude.{◌≡◌, ◌↔◌, ◌<ℤ◌, ℤ, [], AllPairs, unwrap_or, Contains, IfOk};
ghost use Rattle.ical_values.specs.Octets.{address_octets, text_octets};
ghost use Rattle.profile.specs.events.ZonedTimes.{clock_of};
ghost use Rattle.cal_events.specs.Calendar.{key_of, key_in, owned_key_of};
ghost use Rattle.cal_events.specs.Clocks.{IsSteady};
ghost use Rattle.cal_events.specs.Component.{component_of};
ghost use Rattle.cal_events.specs.Instants.{AreStarts, AreStartsOf};
ghost use Rattle.cal_events.specs.Times.{zone_said};

use crate::component::EventComponent;
use crate::entries::address_of;
use crate::event_times::EventTimes;
use crate::instance::{InstanceKey, OwnedKey};
use crate::instances::is_start;
use crate::instants::{Instants, copied};
use cal_rules::Rule;
use ical_values::{Address, Text};
use std::alloc::{AllocError, Global};

/// Whose a meeting is.
#[derive(Drop)]
pub(crate) struct EventName {
    /// None where ORGANIZER is missing.
    pub(crate) organiser: Option<Address>,
    pub(crate) uid: Text,
}

/// When a meeting takes place, but for what overrides say.
#[derive(Drop)]
pub(crate) struct Recurrence {
    /// When it first starts, and how long it lasts.
    pub(crate) times: EventTimes,
    /// The rule by which it recurs. None where it starts once, beside what is added.
    pub(crate) rule: Option<Rule>,
    /// The starts that are added, none of which is excepted.
    pub(crate) additions: Instants,
    /// The instants at which it doesn't start: those that EXDATE names, and those that overrides replace.
    pub(crate) exceptions: Instants,
    ghost steady: { IsSteady (clock_of (zone_said times.start)) },
    ghost added: { AreStarts additions exceptions },
    ghost ascending: { AllPairs ◌<ℤ◌ exceptions },
}

impl EventName {
    ghost use Rattle.cal_events.specs.Recurrence.{name_of, organiser_of};

    /// The organiser's address; the empty text where there is none.
    pub(crate) fn organiser_text(&self) -> &str
        ensures { result.now ≡ unwrap_or (organiser_of self.now) [] }
    {
        match &self.organiser {
            Some(organiser) => organiser.as_str(),
            None => "",
        }
    }

    /// The key of the meeting's instance at a slot.
    pub(crate) fn key(&self, slot: i64) -> InstanceKey<'_>
        ensures { key_of result ≡ key_in (name_of self.now) slot }
    {
        InstanceKey {
            organiser: self.organiser_text(),
            uid: self.uid.as_str(),
            slot,
        }
    }

    /// The key of the meeting's instance at a slot, with its own texts. It fails only when out of memory.
    pub(crate) fn owned_key(&self, alloc: Global, slot: i64) -> Result<OwnedKey, AllocError>
        ensures { IfOk result (λ key. owned_key_of key ≡ key_in (name_of self.now) slot) }
    {
        Ok(OwnedKey {
            organiser: address_of(alloc, &self.organiser)?,
            uid: self.uid.clone()?,
            slot,
        })
    }

    /// The name with its own texts. It fails only when out of memory.
    pub(crate) fn copy(&self) -> Result<EventName, AllocError>
        ensures organiser { IfOk result (λ copy. organiser_of copy ≡ organiser_of self.now) }
        ensures uid { IfOk result (λ copy. text_octets copy.uid ≡ text_octets self.now.uid) }
    {
        Ok(EventName {
            organiser: self.organiser.clone()?,
            uid: self.uid.clone()?,
        })
    }
}

impl Recurrence {
    /// That of these times and this rule, with those of the additions that are starts. It fails only when out of memory.
    pub(crate) fn of(
        alloc: Global,
        times: EventTimes,
        rule: Option<Rule>,
        additions: &[i64],
        exceptions: Vec<i64>,
    ) -> Result<Recurrence, AllocError>
        requires { IsSteady (clock_of (zone_said times.start)) }
        ensures times { IfOk result (λ made. made.times ≡ times) }
        ensures rule { IfOk result (λ made. made.rule ≡ rule) }
        ensures exceptions { IfOk result (λ made. (t : ℤ) → Contains made.exceptions t ↔ Contains exceptions.items t) }
        ensures additions { IfOk result (λ made. AreStartsOf additions.now made.exceptions made.additions) }
    {
        let exceptions = Instants::of(exceptions);
        let additions = starts_of(alloc, additions, &exceptions)?;
        Ok(Recurrence {
            times,
            rule,
            additions,
            exceptions,
        })
    }
}

impl EventComponent {
    ghost use Rattle.cal_events.specs.Recurrence.{organiser_of, IsRecurrenceWithout};

    /// Whose meeting it is of. It fails only when out of memory.
    pub(crate) fn name(&self) -> Result<EventName, AllocError>
        ensures organiser { IfOk result (λ name. organiser_of name ≡ (component_of self.now).organiser) }
        ensures uid { IfOk result (λ name. text_octets name.uid ≡ (component_of self.now).uid) }
    {
        Ok(EventName {
            organiser: self.organiser.clone()?,
            uid: self.uid.clone()?,
        })
    }

    /// Whose meeting a master is of, and when that takes place, without these instants, as if EXDATE named them. It fails only when out of memory.
    pub(crate) fn without(
        self,
        alloc: Global,
        instants: Vec<i64>,
    ) -> Result<(EventName, Recurrence), AllocError>
        ensures organiser { IfOk result (λ made. organiser_of made.0 ≡ (component_of self).organiser) }
        ensures uid { IfOk result (λ made. text_octets made.0.uid ≡ (component_of self).uid) }
        ensures recurrence { IfOk result (λ made. IsRecurrenceWithout (component_of self) instants.items made.1) }
    {
        let mut exceptions = instants;
        exceptions.extend_from_slice(&self.exceptions)?;
        let EventComponent {
            uid,
            organiser,
            times,
            rule,
            additions,
            ..
        } = self;
        let name = EventName { organiser, uid };
        let recurrence = Recurrence::of(alloc, times, rule, &additions, exceptions)?;
        Ok((name, recurrence))
    }
}

/// Those of the instants that are starts.
fn starts_of(alloc: Global, instants: &[i64], exceptions: &Instants) -> Result<Instants, AllocError>
    ensures { IfOk result (AreStartsOf instants.now exceptions.now) }
{
    let mut starts = Vec::new(alloc);
    for instant in instants {
        if !is_start(*instant, exceptions) {
            continue;
        }
        starts.push(*instant)?;
    }
    Ok(Instants::of(starts))
}
