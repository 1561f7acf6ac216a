//! The attendees of a meeting: each once, in order of first appearance, and whether the server sends it messages.

ghost use Rattle.std.specs.Prelude.{◌≡◌, ◌&&◌, not, ◌++◌, ◌∷◌, [], ℕ, List, map, IfOk, OnOk};
ghost use Rattle.ical_values.specs.Octets.{address_octets};
ghost use Rattle.profile.specs.events.EventComponents as events;
ghost use Rattle.cal_events.specs.Component.{attendee_of};
ghost use Rattle.organiser_books.specs.Attending.{gone_among, lists_of, is_no_organiser, is_reached, is_sent, is_told, sent_among, AreAttending, AreNoted, AreSentTo, AreUntold};

use cal_events::Attendee;
use ical_values::Address;
use indexmap::IndexMap;
use itip_messages::MessageComponent;
use std::alloc::{AllocError, Global};

/// The attendees of a meeting.
pub(crate) type Attending = IndexMap<Address, Attendance>;

/// What is known of an attendee.
#[derive(Clone, Copy, Drop)]
pub(crate) struct Attendance {
    /// Whether the server sends it messages: one of the components leaves it to the server (RFC 6638 7.1).
    pub scheduled: bool,
    /// The place of the last component that names it. Of several lines of one address in a component the first counts.
    pub component: usize,
    /// Whether it was sent a message, be it the REQUEST or a CANCEL.
    pub told: bool,
}

/// The attendees of these components, each line looked at once.
pub(crate) fn attending(
    alloc: Global,
    components: &[MessageComponent],
) -> Result<Attending, AllocError>
    ensures attending { IfOk result (λ attending. AreAttending (lists_of components.now) attending.entries) }
    ensures untold { IfOk result (λ attending. AreUntold attending.entries) }
{
    let mut attending = IndexMap::new(alloc);
    for (place, component) in components.iter().enumerate() {
        note_all(&mut attending, place, component.attendees().lines())?;
    }
    Ok(attending)
}

/// Notes the lines of the component in this place.
fn note_all(attending: &mut Attending, place: usize, lines: &[Attendee]) -> Result<(), AllocError>
    ensures { OnOk result ((done : List (List events.Attendee)) → AreNoted done place [] attending.old.entries
        → AreNoted done place (map attendee_of lines.now) attending.new.entries) }
{
    for attendee in lines {
        note(attending, place, attendee)?;
    }
    Ok(())
}

/// Notes one more line of that component.
fn note(attending: &mut Attending, place: usize, attendee: &Attendee) -> Result<(), AllocError>
    ensures { OnOk result ((done : List (List events.Attendee)) (own : List events.Attendee) → AreNoted done place own attending.old.entries
        → AreNoted done place (own ++ attendee_of attendee.now ∷ []) attending.new.entries) }
{
    if let Some(known) = attending.get_mut(&attendee.address) {
        *known = known.with(place, attendee.scheduled);
        return Ok(());
    }
    let address = attendee.address.clone()?;
    let attendance = Attendance {
        scheduled: attendee.scheduled,
        component: place,
        told: false,
    };
    attending.insert(address, attendance)?;
    Ok(())
}

impl Attendance {
    ghost use Rattle.organiser_books.specs.Attending.{noted_too};

    /// With one more line of the component in this place.
    fn with(&self, place: usize, scheduled: bool) -> Attendance
        ensures { result ≡ noted_too self.now place scheduled }
    {
        if self.component == place {
            return *self;
        }
        Attendance {
            scheduled: self.scheduled || scheduled,
            component: place,
            told: self.told,
        }
    }
}

/// Notes that these were sent a message, those of them that are attendees.
pub(crate) fn tell(attending: &mut Attending, to: &[Address])
    ensures { AreSentTo (map address_octets to.now) attending.old.entries attending.new.entries }
{
    for address in to {
        tell_one(attending, address);
    }
}

/// Notes that this one was sent a message, if it is an attendee.
fn tell_one(attending: &mut Attending, address: &Address)
    ensures { AreSentTo (address_octets address.now ∷ []) attending.old.entries attending.new.entries }
{
    if let Some(attendance) = attending.get_mut(address) {
        attendance.told = true;
    }
}

/// Whether this one is an attendee who was sent a message.
pub(crate) fn is_told(attending: &Attending, address: &Address) -> bool
    ensures { result ≡ is_told (address_octets address.now) attending.now.entries }
{
    match attending.get(address) {
        Some(attendance) => attendance.told,
        None => false,
    }
}

/// Whether the server sends messages to this address.
fn is_sent(attending: &Attending, address: &Address) -> bool
    ensures { result ≡ is_sent (address_octets address.now) attending.now.entries }
{
    match attending.get(address) {
        Some(attendance) => attendance.scheduled,
        None => false,
    }
}

/// Those whom the server of this organiser sends messages: never the organiser (RFC 6638 3.2.1).
pub(crate) fn sent(
    alloc: Global,
    organiser: &Address,
    attending: &Attending,
) -> Result<Vec<Address>, AllocError>
    ensures { IfOk result (λ sent. (lists : List (List events.Attendee)) → AreAttending lists attending.now.entries
        → map address_octets sent.items ≡ sent_among (address_octets organiser.now) lists) }
{
    let mut sent = Vec::new(alloc);
    for (address, attendance) in attending {
        if is_sent_to(organiser, address, attendance) {
            sent.push(address.clone()?)?;
        }
    }
    Ok(sent)
}

/// Of the attendees of the last store those whom the server of this organiser sent messages, and whom this one doesn't reach any more.
pub(crate) fn gone(
    alloc: Global,
    organiser: &Address,
    last: &Attending,
    now: &Attending,
    called_off: bool,
) -> Result<Vec<Address>, AllocError>
    ensures { IfOk result (λ gone. (before lists : List (List events.Attendee)) → AreAttending before last.now.entries → AreAttending lists now.now.entries
        → map address_octets gone.items ≡ gone_among called_off (address_octets organiser.now) before lists) }
{
    let mut gone = Vec::new(alloc);
    for (address, attendance) in last {
        if is_gone(organiser, address, attendance, now, called_off) {
            gone.push(address.clone()?)?;
        }
    }
    Ok(gone)
}

/// Whether the server of this organiser sends messages to an attendee.
fn is_sent_to(organiser: &Address, address: &Address, attendance: &Attendance) -> bool
    ensures { result ≡ (attendance.now.scheduled && is_no_organiser (address_octets organiser.now) address.now) }
{
    attendance.scheduled && address != organiser
}

/// Whether the server sent messages to this attendee of the last store, and a store that has these attendees doesn't reach it.
fn is_gone(
    organiser: &Address,
    address: &Address,
    attendance: &Attendance,
    now: &Attending,
    called_off: bool,
) -> bool
    ensures { result ≡ ((attendance.now.scheduled && is_no_organiser (address_octets organiser.now) address.now)
        && not (is_reached called_off (address_octets address.now) now.now.entries)) }
{
    is_sent_to(organiser, address, attendance) && !is_reached(now, address, called_off)
}

/// Whether a store reaches this address: where it calls the meeting off, whom the server sends messages; else whom a component names. One who is
/// still named and left to a client gets no CANCEL, for the client speaks to him.
fn is_reached(now: &Attending, address: &Address, called_off: bool) -> bool
    ensures { result ≡ is_reached called_off (address_octets address.now) now.now.entries }
{
    if called_off {
        return is_sent(now, address);
    }
    now.contains_key(address)
}
