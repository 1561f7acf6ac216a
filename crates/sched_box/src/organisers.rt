//! The organisers of a box: what comes to one goes to the one whose address it names.

ghost use Rattle.std.specs.Prelude.{◌≡◌, ◌<◌, ◌∷◌, [], false, length, get_or, map, Contains, IfOk, IfErr, IfSome, IfNone};
ghost use Rattle.std.specs.List.{list_any};
ghost use Rattle.std.specs.Str.{bytes_eq};
ghost use Rattle.ical_lines.specs.Fault.{RefusesBy};
ghost use Rattle.ical_values.specs.Octets.{address_octets};
ghost use Rattle.ical_values.specs.Refused.{IfRefused};
ghost use Rattle.cal_events.specs.Component.{method_said};
ghost use Rattle.profile.specs.events.Messages.{is_to_rooms};
ghost use Rattle.profile.specs.organisers.Organisers.{empty_organiser};
ghost use Rattle.profile.specs.rooms.Kept.{each_once};
ghost use Rattle.organiser_books.specs.Representation.{Keeps, address_of};
ghost use Rattle.sched_box.specs.Answering.{octets_each};
ghost use Rattle.sched_box.specs.Asked.{directory_addresses};
ghost use Rattle.sched_box.specs.Organising.{AreKeptBy, KeepBooks, KeepsBook, OrganiserRefuses, OrganiserTakes, OrganisersRefuse, OrganisersTake, nothing_kept, organiser_addresses};

use crate::directory::Directory;
use cal_events::Method;
use ical_lines::{Fault, Refusal};
use ical_values::{Address, Stamp};
use itip_messages::Message;
use organiser_books::{Organiser, Outgoing};
use std::alloc::{AllocError, Global};

/// The organisers that a box hosts, each with its meetings.
#[derive(Drop)]
pub(crate) struct Organisers {
    organisers: Vec<Organiser>,
    directory: Directory,
    ghost listed: { directory_addresses directory ≡ organiser_addresses organisers.items },
}

impl Organisers {
    /// An organiser that has stored nothing for each address, in order; an address that is given twice counts once.
    pub(crate) fn new(alloc: Global, addresses: &[Address]) -> Result<Organisers, AllocError>
        ensures kept { IfOk result (λ organisers. AreKeptBy organisers.organisers.items (map nothing_kept (each_once (map address_octets addresses.now)))) }
    {
        let directory = Directory::of(alloc, addresses)?;
        let organisers = organisers_of(alloc, directory.addresses())?;
        Ok(Organisers {
            organisers,
            directory,
        })
    }

    /// The organiser of an address, if it is hosted.
    pub(crate) fn at(&self, address: &Address) -> Option<&Organiser>
        ensures found { IfSome result (λ organiser. Contains self.now.organisers.items organiser.now) }
        ensures address { IfSome result (λ organiser. address_of organiser.now ≡ address_octets address.now) }
        ensures none { IfNone result (list_any (bytes_eq (address_octets address.now)) (organiser_addresses self.now.organisers.items) ≡ false) }
    {
        let place = self.directory.place_of(address)?;
        Some(&self.organisers[place])
    }

    /// Hands an object to the organiser that it names: what that sends.
    /// Refused, and then nothing has changed: 70 where it isn't hosted, and as by the organiser.
    pub(crate) fn take(
        &mut self,
        alloc: Global,
        object: &Message,
        now: Stamp,
    ) -> Result<Vec<Vec<u8>>, Fault>
        requires for_organiser { is_to_rooms (method_said object.now.method) ≡ false }
        ensures takes { IfOk result (λ sent. OrganisersTake now object.now self.old.organisers.items self.new.organisers.items (octets_each sent.items)) }
        ensures fault { IfErr result (RefusesBy (OrganisersRefuse object.now self.old.organisers.items)) }
        ensures keeps { IfErr result (IfRefused (KeepBooks self.old.organisers.items self.new.organisers.items)) }
    {
        let Some(place) = self.directory.place_of(object.organiser()) else {
            return Err(Fault::Refused(Refusal::NOT_HOSTED));
        };
        take_at(alloc, &mut self.organisers, place, object, now)
    }
}

/// An organiser that has stored nothing for each address, in order.
fn organisers_of(alloc: Global, addresses: &[Address]) -> Result<Vec<Organiser>, AllocError>
    ensures addresses { IfOk result (λ organisers. organiser_addresses organisers.items ≡ map address_octets addresses.now) }
    ensures kept { IfOk result (λ organisers. AreKeptBy organisers.items (map nothing_kept (map address_octets addresses.now))) }
{
    let mut organisers = Vec::new(alloc);
    for address in addresses {
        let organiser = organiser_of(alloc, address)?;
        organisers.push(organiser)?;
    }
    Ok(organisers)
}

/// An organiser of this address that has stored nothing.
fn organiser_of(alloc: Global, address: &Address) -> Result<Organiser, AllocError>
    ensures address { IfOk result (λ organiser. address_of organiser ≡ address_octets address.now) }
    ensures empty { IfOk result (λ organiser. Keeps organiser empty_organiser) }
{
    Ok(Organiser::new(alloc, address.clone()?))
}

/// Hands an object to the organiser in its place.
fn take_at(
    alloc: Global,
    organisers: &mut Vec<Organiser>,
    place: usize,
    object: &Message,
    now: Stamp,
) -> Result<Vec<Vec<u8>>, Fault>
    requires for_organiser { is_to_rooms (method_said object.now.method) ≡ false }
    requires within { place < length organisers.old.items }
    requires named { get_or (organiser_addresses organisers.old.items) place [] ≡ address_octets object.now.organiser }
    ensures takes { IfOk result (λ sent. OrganisersTake now object.now organisers.old.items organisers.new.items (octets_each sent.items)) }
    ensures fault { IfErr result (RefusesBy (OrganisersRefuse object.now organisers.old.items)) }
    ensures keeps { IfErr result (IfRefused (KeepBooks organisers.old.items organisers.new.items)) }
    ensures addresses { organiser_addresses organisers.new.items ≡ organiser_addresses organisers.old.items }
{
    take_object(alloc, &mut organisers[place], object, now)
}

/// Hands an object to an organiser: the objects that it sends or answers, in its order.
fn take_object(
    alloc: Global,
    organiser: &mut Organiser,
    object: &Message,
    now: Stamp,
) -> Result<Vec<Vec<u8>>, Fault>
    requires { is_to_rooms (method_said object.now.method) ≡ false }
    ensures takes { IfOk result (λ sent. OrganiserTakes now object.now organiser.old organiser.new (octets_each sent.items)) }
    ensures fault { IfErr result (RefusesBy (OrganiserRefuses object.now organiser.old)) }
    ensures keeps { IfErr result (IfRefused (KeepsBook organiser.old organiser.new)) }
    ensures address { address_of organiser.new ≡ address_of organiser.old }
{
    match object.method() {
        Method::Store => {
            let sent = organiser.store(object, now)?;
            Ok(objects_of(alloc, sent)?)
        }
        Method::Reply => {
            organiser.take_reply(object)?;
            Ok(Vec::new(alloc))
        }
        Method::Refresh => {
            let octets = organiser.take_refresh(object)?;
            Ok(only(alloc, octets)?)
        }
        // a message to rooms isn't handed to an organiser
        Method::Request | Method::Add | Method::Cancel => unreachable!(),
    }
}

/// What an organiser sends, in its order.
fn objects_of(alloc: Global, sent: Vec<Outgoing>) -> Result<Vec<Vec<u8>>, AllocError>
    ensures { IfOk result (λ objects. octets_each objects.items ≡ map (λ one. one.octets.items) sent.items) }
{
    let mut objects = Vec::new(alloc);
    for one in sent {
        objects.push(one.octets)?;
    }
    Ok(objects)
}

/// One object alone.
fn only(alloc: Global, octets: Vec<u8>) -> Result<Vec<Vec<u8>>, AllocError>
    ensures { IfOk result (λ objects. octets_each objects.items ≡ octets.items ∷ []) }
{
    let mut objects = Vec::new(alloc);
    objects.push(octets)?;
    Ok(objects)
}
