//! What a box keeps, in one value: it takes one object after another, and answers each.

ghost use Rattle.std.specs.Prelude.{◌≡◌, ◌++◌, List, ℕ, IfOk, IfErr, OnOk};
ghost use Rattle.std.specs.List.{flat_map};
ghost use Rattle.ical_lines.specs.Fault.{RefusesBy};
ghost use Rattle.itip_messages.specs.Message.{IsSpelled};
ghost use Rattle.profile.specs.streams.Streams.{ObjectFault, refused_line};
ghost use Rattle.sched_box.specs.Objects.{kept_of};

use crate::config::Config;
use crate::fault::ServeFault;
use crate::journal::Fate;
use crate::objects::KEPT;
use crate::organisers::Organisers;
use crate::rooms::Rooms;
use ical_lines::{Fault, Refusal};
use ical_values::{Address, Stamp};
use itip_messages::Message;
use itoa::Buffer;
use organiser_books::Organiser;
use room_books::Room;
use std::alloc::{AllocError, Global};

/// The rooms and the organisers that a box hosts, each with all that it took.
#[derive(Drop)]
pub(crate) struct Books {
    alloc: Global,
    rooms: Rooms,
    organisers: Organisers,
}

impl Books {
    ghost use Rattle.std.specs.Prelude.{◌≡◌, ◌++◌, ℕ, List, Contains, IfOk, IfErr, IfSome, IsNone};
    ghost use Rattle.ical_lines.specs.Fault.{RefusesBy};
    ghost use Rattle.ical_values.specs.Octets.{address_octets};
    ghost use Rattle.ical_values.specs.Refused.{IfRefused};
    ghost use Rattle.profile.specs.streams.Streams.{Box, new_box};
    ghost use Rattle.sched_box.specs.Books.{AnswersKeptAs, AreBooksOf, KeepAll, RefusesKept, TakesKept, hosted_rooms};
    ghost use Rattle.sched_box.specs.Config.{config_hosts, config_rooms};
    ghost use Rattle.sched_box.specs.Journal.{fate_said};
    ghost use Rattle.sched_box.specs.Organising.{organiser_addresses};
    ghost use Rattle.organiser_books.specs.Representation.{address_of};

    /// Empty books for each room and each organiser, in the order of the configuration.
    pub(crate) fn new(alloc: Global, config: &Config) -> Result<Books, AllocError>
        ensures addresses { IfOk result (λ books. hosted_rooms books ≡ config_rooms config.now) }
        ensures kept { IfOk result (λ books. AreBooksOf books (new_box (config_hosts config.now))) }
    {
        let rooms = Rooms::new(alloc, config.rooms())?;
        let organisers = Organisers::new(alloc, config.organisers())?;
        Ok(Books {
            alloc,
            rooms,
            organisers,
        })
    }

    /// The room of an address, if the box hosts it.
    pub(crate) fn room_at(&self, address: &Address) -> Option<&Room>
        ensures found { IfSome result (λ room. Contains self.now.rooms.rooms.items room.now) }
        ensures address { IfSome result (λ room. address_octets room.now.address ≡ address_octets address.now) }
        ensures none { IsNone result → Contains (hosted_rooms self.now) (address_octets address.now) → ⊥ }
    {
        self.rooms.at(address)
    }

    /// The organiser of an address, if the box hosts it.
    pub(crate) fn organiser_at(&self, address: &Address) -> Option<&Organiser>
        ensures found { IfSome result (λ organiser. Contains self.now.organisers.organisers.items organiser.now) }
        ensures address { IfSome result (λ organiser. address_of organiser.now ≡ address_octets address.now) }
        ensures none { IsNone result → Contains (organiser_addresses self.now.organisers.organisers.items) (address_octets address.now) → ⊥ }
    {
        self.organisers.at(address)
    }

    /// Takes one object, its number in the stream from 1, and appends the answers to it. Gives what became of it.
    pub(crate) fn take(
        &mut self,
        octets: &[u8],
        number: u64,
        now: Stamp,
        answers: &mut Vec<u8>,
    ) -> Result<Fate, ServeFault>
        ensures answers { IfOk result (λ fate. (more : List ℕ) × (answers.new.items ≡ answers.old.items ++ more)
            × AnswersKeptAs now number octets.now self.old self.new more (fate_said fate)) }
        ensures addresses { IfOk result (λ _. hosted_rooms self.new ≡ hosted_rooms self.old) }
        ensures memory { IfErr result (λ fault. fault ≡ ServeFault.Memory) }
    {
        match self.answer(octets, now, answers) {
            Ok(fate) => Ok(fate),
            Err(Fault::Refused(refusal)) => {
                write_refusal(number, refusal, answers)?;
                Ok(Fate::Refused(refusal))
            }
            Err(Fault::Memory) => Err(ServeFault::Memory),
        }
    }

    /// Hands one object to the rooms or to the organiser, and appends what is answered. Gives what became of it.
    /// Refused, and then nothing has changed: as by `read_kept` and `Organisers::take`.
    fn answer(&mut self, octets: &[u8], now: Stamp, answers: &mut Vec<u8>) -> Result<Fate, Fault>
        ensures takes { IfOk result (λ fate. (more : List ℕ) × (answers.new.items ≡ answers.old.items ++ more)
            × TakesKept now octets.now self.old self.new more (fate_said fate)) }
        ensures fault { IfErr result (RefusesBy (RefusesKept octets.now self.old)) }
        ensures keeps { IfErr result (IfRefused (KeepAll self.old self.new × (answers.new.items ≡ answers.old.items))) }
        ensures addresses { hosted_rooms self.new ≡ hosted_rooms self.old }
    {
        let message = read_kept(self.alloc, octets)?;
        if message.method().is_to_rooms() {
            let effects = self.rooms.take(self.alloc, &message, now, answers)?;
            return Ok(effects.fate(message.method().is_cancel()));
        }
        let sent = self.organisers.take(self.alloc, &message, now)?;
        append_each(&sent, answers)?;
        Ok(Fate::Taken)
    }
}

/// The message that an object is, of which at most 1,048,577 octets were kept.
/// Refused: 6 where this many were kept, and as by `Message::read`.
fn read_kept(alloc: Global, octets: &[u8]) -> Result<Message, Fault>
    ensures spells { IfOk result (λ message. (object : List ℕ) → octets.now ≡ kept_of object → IsSpelled object message) }
    ensures fault { IfErr result (λ fault. (object : List ℕ) → octets.now ≡ kept_of object → RefusesBy (λ n. ObjectFault n object) fault) }
{
    if octets.len() >= KEPT {
        return Err(Fault::Refused(Refusal::TOO_LONG));
    }
    Message::read(alloc, octets)
}

/// Appends these objects, in order.
fn append_each(objects: &[Vec<u8>], answers: &mut Vec<u8>) -> Result<(), AllocError>
    ensures { OnOk result (answers.new.items ≡ answers.old.items ++ flat_map (λ object. object.items) objects.now) }
{
    for object in objects {
        answers.extend_from_slice(object.as_slice())?;
    }
    Ok(())
}

/// The line that is written for a refused object: `REFUSED;OBJECT=k:n`.
fn write_refusal(number: u64, refusal: Refusal, answers: &mut Vec<u8>) -> Result<(), AllocError>
    ensures { OnOk result (answers.new.items ≡ answers.old.items ++ refused_line number refusal.number) }
{
    let mut digits = Buffer::new();
    answers.extend_from_slice(b"REFUSED;OBJECT=")?;
    answers.extend_from_slice(digits.format(number).as_bytes())?;
    answers.extend_from_slice(b":")?;
    answers.extend_from_slice(digits.format(refusal.number).as_bytes())?;
    answers.extend_from_slice(b"\r\n")?;
    Ok(())
}
