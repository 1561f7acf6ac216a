//! The VEVENTs of a calendar: whose they are, and which instances they are for.

ghost use Rattle.std.specs.Prelude.{◌≡◌, ◌++◌, ◌∷◌, ◌<◌, ◌-◌, ℕ, List, [], length, map, option_map, unwrap_or, IsTrue, IfOk, OnOk};
ghost use Rattle.ical_values.specs.Octets.{address_octets};
ghost use Rattle.cal_events.specs.Calendar.{key_of, key_in, owned_key_of};
ghost use Rattle.cal_events.specs.Component.{component_of};
ghost use Rattle.cal_events.specs.Names.{meeting_at, recurrence_at, name_said, IsThere};

use crate::component::EventComponent;
use crate::instance::{InstanceKey, OwnedKey};
use crate::texts::Texts;
use ical_values::{Address, Text};
use std::alloc::{AllocError, Global};
use std::marker::Model;

/// A VEVENT, without its UID.
#[derive(Clone, Copy)]
struct ComponentName {
    /// Which of the organisers it has.
    organiser: usize,
    /// RECURRENCE-ID, in seconds from 1970-01-01T00:00:00Z.
    recurrence: Option<i64>,
}

/// The VEVENTs of a calendar, in the order of the text: of each the organiser, the UID, and which instance it is for.
#[derive(Drop)]
pub(crate) struct Entries {
    /// The organisers, once for VEVENTs of one that follow each other. The empty address where ORGANIZER is missing.
    organisers: Vec<Address>,
    uids: Texts,
    entries: Vec<ComponentName>,
}

impl Model for Entries {
    ghost use Rattle.std.specs.Prelude.{◌≡◌, ◌<◌, List, All, length, map};
    ghost use Rattle.ical_values.specs.Octets.{address_octets};
    ghost use Rattle.cal_events.specs.Entries.{Name, names_of};

    ghost Value = { List Name };

    ghost view = { λ e. names_of (map address_octets e.organisers.items) e.uids e.entries.items };

    ghost invariant = { λ e. (length e.uids ≡ length e.entries.items)
        × All (λ x. x.organiser < length e.organisers.items) e.entries.items };
}

impl Entries {
    /// Without VEVENTs.
    pub(crate) fn new(alloc: Global) -> Entries
        ensures { result ≡ [] }
    {
        Entries {
            organisers: Vec::new(alloc),
            uids: Texts::new(alloc),
            entries: Vec::new(alloc),
        }
    }

    /// How many there are.
    pub(crate) fn len(&self) -> usize
        ensures { result ≡ length self.now }
    {
        self.entries.len()
    }

    /// Adds a VEVENT at the end. Where memory is refused none is added.
    pub(crate) fn push(&mut self, alloc: Global, event: &EventComponent) -> Result<(), AllocError>
        ensures { OnOk result (self.new ≡ self.old ++ name_said (component_of event.now) ∷ []) }
    {
        let organiser = place_of(alloc, &mut self.organisers, event)?;
        self.entries.push(ComponentName {
            organiser,
            recurrence: event.recurrence,
        })?;
        match self.uids.push(event.uid.as_str()) {
            Ok(()) => Ok(()),
            Err(error) => {
                self.entries.pop();
                Err(error)
            }
        }
    }

    /// The key of the meeting's instance at a slot, of the VEVENT at a place.
    pub(crate) fn key_at(&self, place: usize, slot: i64) -> InstanceKey<'_>
        requires { place < length self.now }
        ensures { key_of result ≡ key_in (meeting_at self.now place) slot }
    {
        InstanceKey {
            organiser: self.organisers[self.entries[place].organiser].as_str(),
            uid: self.uids.at(place),
            slot,
        }
    }

    /// The key of the meeting's instance at a slot, with texts of its own.
    pub(crate) fn owned_key_at(&self, place: usize, slot: i64) -> Result<OwnedKey, AllocError>
        requires { place < length self.now }
        ensures { IfOk result (λ key. owned_key_of key ≡ key_in (meeting_at self.now place) slot) }
    {
        let alloc = *self.entries.allocator();
        Ok(OwnedKey {
            organiser: self.organisers[self.entries[place].organiser].clone()?,
            uid: Text::of(alloc, self.uids.at(place))?,
            slot,
        })
    }

    /// The instance that the VEVENT at a place is for.
    pub(crate) fn recurrence(&self, place: usize) -> Option<i64>
        requires { place < length self.now }
        ensures { result ≡ recurrence_at self.now place }
    {
        self.entries[place].recurrence
    }
}

/// The place of an event's organiser, which is added where the last one is another.
fn place_of(
    alloc: Global,
    organisers: &mut Vec<Address>,
    event: &EventComponent,
) -> Result<usize, AllocError>
    ensures keeps { (more : List (List ℕ)) × (map address_octets organisers.new.items ≡ map address_octets organisers.old.items ++ more) }
    ensures place { IfOk result (λ k. IsThere (map address_octets organisers.new.items) k (unwrap_or (component_of event.now).organiser [])) }
{
    let count = organisers.len();
    if is_last(organisers, event.organiser_text()) {
        return Ok(count - 1);
    }
    organisers.push(address_of(alloc, &event.organiser)?)?;
    Ok(count)
}

/// Whether the last of the addresses is this one.
fn is_last(addresses: &[Address], text: &str) -> bool
    ensures { IsTrue result → (0 < length addresses.now) × IsThere (map address_octets addresses.now) (length addresses.now - 1) text.now }
{
    match addresses.last() {
        Some(address) => address.as_str() == text,
        None => false,
    }
}

/// An organiser's address; the empty one where there is none.
pub(crate) fn address_of(alloc: Global, organiser: &Option<Address>) -> Result<Address, AllocError>
    ensures { IfOk result (λ address. address_octets address ≡ unwrap_or (option_map address_octets organiser.now) []) }
{
    match organiser {
        Some(organiser) => organiser.clone(),
        None => Ok(Address::empty(alloc)),
    }
}
