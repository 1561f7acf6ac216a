//! What an organiser keeps of a meeting: its last store, and what its attendees answered to it.

ghost use Rattle.std.specs.Prelude.{◌≡◌, ◌++◌, ◌<◌, ◌≤◌, ℕ, ◌+◌, false, List, is_some, nat_lt, map, option_map, length, OnOk, OnErr, IfErr};
ghost use Rattle.std.specs.List.{flat_map, list_any};
ghost use Rattle.indexmap.specs.IndexMap.{spare};
ghost use Rattle.ical_lines.specs.Fault.{RefusesBy};
ghost use Rattle.ical_values.specs.Octets.{address_octets};
ghost use Rattle.profile.specs.organisers.Organisers.{Heard, Stored};
ghost use Rattle.cal_events.specs.Component.{participation_of};
ghost use Rattle.itip_order.specs.Parts.{revision_of, slot_of};
ghost use Rattle.organiser_books.specs.Attending.{attendance_of, is_told};
ghost use Rattle.organiser_books.specs.Representation.{answer_in, answered, heard_said, is_ahead, is_strange, is_unknown, AreSeen, IsReplyFault};

use crate::answers::{AnswerKey, AttendeeAnswer, AttendeeAnswers, put};
use crate::attending::{Attending, is_told};
use cal_events::PartStat;
use ical_lines::{Fault, Refusal};
use ical_values::Address;
use itip_messages::MessageComponent;
use itip_order::{Revision, Slot};
use std::alloc::AllocError;

/// A meeting of an organiser.
#[derive(Drop)]
pub(crate) struct StoredMeeting {
    /// SEQUENCE and DTSTAMP of what was sent.
    pub revision: Revision,
    /// Its VEVENTs in the order of the text.
    pub components: Vec<MessageComponent>,
    pub attending: Attending,
    /// The octets that were made of it: its REQUEST, or its CANCEL where it was called off.
    pub object: Vec<u8>,
    /// What was answered to this SEQUENCE.
    pub answers: AttendeeAnswers,
}

impl StoredMeeting {
    /// Whether this is one of its attendees.
    pub fn has_attendee(&self, address: &Address) -> bool
        ensures { result ≡ is_some (attendance_of (address_octets address.now) self.now.attending.entries) }
    {
        self.attending.contains_key(address)
    }

    /// Whether the last store sent this attendee a message.
    pub fn is_told(&self, address: &Address) -> bool
        ensures { result ≡ is_told (address_octets address.now) self.now.attending.entries }
    {
        is_told(&self.attending, address)
    }

    /// What an attendee answered for a slot.
    pub fn answered(&self, slot: Slot, attendee: &Address) -> PartStat
        ensures { participation_of result ≡ answered (answer_in self.now (slot_of slot) (address_octets attendee.now)) }
    {
        let Some(place) = self.attending.get_index_of(attendee) else {
            return PartStat::NeedsAction;
        };
        match self.answers.get(&AnswerKey::at(place, slot)) {
            Some(answer) => answer.status,
            None => PartStat::NeedsAction,
        }
    }

    /// Whether one of the components answers a SEQUENCE that wasn't sent yet.
    fn is_ahead(&self, components: &[MessageComponent]) -> bool
        ensures { result ≡ is_ahead self.now components.now }
    {
        components.iter().any(|component| component.revision().sequence > self.revision.sequence)
    }

    /// Whether one who isn't an attendee speaks in one of the components.
    pub fn is_strange(&self, components: &[MessageComponent]) -> bool
        ensures { result ≡ is_strange self.now components.now }
    {
        components
            .iter()
            .any(|component| self.is_unknown(component))
    }

    /// Whether one who isn't an attendee speaks in the component.
    fn is_unknown(&self, component: &MessageComponent) -> bool
        ensures { result ≡ is_unknown self.now component.now.attendees }
    {
        match component.attendees().lines().first() {
            Some(attendee) => !self.has_attendee(&attendee.address),
            None => false,
        }
    }

    /// Takes the components of a REPLY, all of them or none. Refused: 71 for a SEQUENCE that wasn't sent yet, 73 for one who isn't an
    /// attendee.
    pub fn take_reply(&mut self, components: &[MessageComponent]) -> Result<(), Fault>
        ensures revision { self.new.revision ≡ self.old.revision }
        ensures components { self.new.components ≡ self.old.components }
        ensures attending { self.new.attending ≡ self.old.attending }
        ensures object { self.new.object ≡ self.old.object }
        ensures sent { OnOk result (is_ahead self.old components.now ≡ false) }
        ensures known { OnOk result (is_strange self.old components.now ≡ false) }
        ensures seen { OnOk result ((stored : Stored) (replies : List Heard) → revision_of self.old.revision ≡ stored.revision → AreSeen self.old stored replies
            → AreSeen self.new stored (replies ++ flat_map (heard_said stored.uid) components.now)) }
        ensures refuses { IfErr result (RefusesBy (IsReplyFault self.old components.now)) }
        ensures err { OnErr result (self.new.answers.entries ≡ self.old.answers.entries) }
    {
        if self.is_ahead(components) {
            return Err(Fault::Refused(Refusal::NOT_SENT));
        }
        if self.is_strange(components) {
            return Err(Fault::Refused(Refusal::NOT_AN_ATTENDEE));
        }
        self.hear_all(components)?;
        Ok(())
    }

    /// Takes what these components answer, all of it or, where memory is refused, nothing.
    fn hear_all(&mut self, components: &[MessageComponent]) -> Result<(), AllocError>
        ensures revision { self.new.revision ≡ self.old.revision }
        ensures components { self.new.components ≡ self.old.components }
        ensures attending { self.new.attending ≡ self.old.attending }
        ensures object { self.new.object ≡ self.old.object }
        ensures seen { OnOk result ((stored : Stored) (replies : List Heard) → revision_of self.old.revision ≡ stored.revision → AreSeen self.old stored replies
            → is_strange self.old components.now ≡ false
            → AreSeen self.new stored (replies ++ flat_map (heard_said stored.uid) components.now)) }
        ensures err { OnErr result (self.new.answers.entries ≡ self.old.answers.entries) }
    {
        self.answers.reserve(components.len())?;
        for component in components {
            self.hear(component);
        }
        Ok(())
    }

    /// Takes what a component answers. An answer to an older store says nothing of the last. There is room for one more.
    fn hear(&mut self, component: &MessageComponent)
        requires { 0 < spare self.old.answers }
        ensures revision { self.new.revision ≡ self.old.revision }
        ensures components { self.new.components ≡ self.old.components }
        ensures attending { self.new.attending ≡ self.old.attending }
        ensures object { self.new.object ≡ self.old.object }
        ensures seen { (stored : Stored) (replies : List Heard) → revision_of self.old.revision ≡ stored.revision → AreSeen self.old stored replies
            → is_unknown self.old component.now.attendees ≡ false
            → AreSeen self.new stored (replies ++ heard_said stored.uid component.now) }
        ensures spare { spare self.old.answers ≤ spare self.new.answers + 1 }
    {
        let revision = component.revision();
        if revision.sequence != self.revision.sequence {
            return;
        }
        let Some(attendee) = component.attendees().lines().first() else {
            return;
        };
        let Some(place) = self.attending.get_index_of(&attendee.address) else {
            return;
        };
        let answer = AttendeeAnswer {
            stamp: revision.stamp,
            status: attendee.status,
        };
        put(
            &mut self.answers,
            AnswerKey::at(place, component.slot()),
            answer,
        );
    }
}
