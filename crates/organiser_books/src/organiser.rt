//! An organiser's meetings: the last store of each, what was made of it, and what its attendees answered to it.

ghost use Rattle.std.specs.Prelude.{◌≡◌, ◌++◌, ℕ, List, map, option_map, IfOk, IfErr, OnOk, OnErr};
ghost use Rattle.std.specs.Cmp.Lexicographic.{slice_cmp};
ghost use Rattle.std.specs.List.{AllZip};
ghost use Rattle.std.specs.List.Sorted.{IsPermutation, IsSortedByKey};
ghost use Rattle.std.specs.Ordering.{nat_cmp};
ghost use Rattle.indexmap.specs.IndexMap.{get};
ghost use Rattle.ical_lines.specs.Fault.{RefusesOnly, RefusesBy};
ghost use Rattle.ical_values.specs.Octets.{address_octets, text_octets};
ghost use Rattle.profile.specs.events.EventComponents as events;
ghost use Rattle.profile.specs.events.EventComponents.{Attendee, EventComponent};
ghost use Rattle.profile.specs.events.Messages as profile;
ghost use Rattle.profile.specs.organisers.Organisers.{OrganiserBook, empty_organiser, after_reply, IsSeen, IsShown, IsStore, ShowsMeetings};
ghost use Rattle.cal_events.specs.Component.{participation_of, method_said};
ghost use Rattle.itip_order.specs.Parts.{slot_of};
ghost use Rattle.itip_messages.specs.Message.{SaysComponent, RepresentsMessage};
ghost use Rattle.organiser_books.specs.Representation.{Keeps, address_of, same_text};
ghost use Rattle.organiser_books.specs.Showing.{AreUids, ShowsLast, octets_at};
ghost use Rattle.organiser_books.specs.Attending.{gone_among, is_told, lists_of, AreAttending};
ghost use Rattle.organiser_books.specs.Storing.{LastAttends, SendsObject, calls_off, is_told_by};
ghost use Rattle.organiser_books.specs.Calls.{AnswersRefresh, CallFault, MayTake, is_call_fault, sent_of};

use crate::attending::{Attending, attending, gone, sent, tell};
use crate::meeting::StoredMeeting;
use crate::outgoing::Outgoing;
use crate::sending::{Sending, calls_off, send};
use crate::sequence::sequence_after;
use crate::shown::Shown;
use cal_events::{Method, PartStat};
use ical_lines::{Fault, Refusal};
use ical_values::{Address, Stamp, Text};
use indexmap::IndexMap;
use itip_messages::{MeetingText, Message, MessageComponent, write_meeting};
use itip_order::{Revision, Slot};
use std::alloc::{AllocError, Global};

/// An organiser with its meetings.
#[derive(Drop)]
pub struct Organiser {
    alloc: Global,
    address: Address,
    /// The last store of each meeting, by its UID.
    meetings: StoredMeetings,
}

/// What is made of an object that is stored.
#[derive(Drop)]
struct Composed {
    attending: Attending,
    object: Vec<u8>,
    sent: Vec<Outgoing>,
}

/// The meetings of an organiser.
pub(crate) type StoredMeetings = IndexMap<Text, StoredMeeting>;

impl Organiser {
    /// One that has stored nothing.
    pub fn new(alloc: Global, address: Address) -> Organiser
        ensures empty { Keeps result empty_organiser }
        ensures address { address_of result ≡ address_octets address }
    {
        Organiser {
            alloc,
            address,
            meetings: IndexMap::new(alloc),
        }
    }

    /// The organiser's own address, in lower case.
    pub fn address(&self) -> &Address
        ensures { address_octets result.now ≡ address_of self.now }
    {
        &self.address
    }

    /// Stores a meeting at a moment: its attendees are sent a REQUEST, and those of the last store whom no VEVENT names any more a CANCEL.
    /// Where it is cancelled all of both are sent a CANCEL, also those whom the server no longer sends messages. What they answered to the
    /// last store counts no longer (RFC 6638 3.2.1, 3.2.8).
    /// Refused, and then nothing has changed: 60 for an object that isn't a store, 70 for one of another organiser, 72 where no greater
    /// SEQUENCE is left.
    pub fn store(&mut self, object: &Message, now: Stamp) -> Result<Vec<Outgoing>, Fault>
        // From each book that it keeps it makes a step of the organiser machine.
        ensures steps { IfOk result (λ sent. (said : profile.Message) → RepresentsMessage object.now said → (book : OrganiserBook) → Keeps self.old book
            → MayTake events.Store (address_of self.old) said book
            × ((after : OrganiserBook) × IsStore now said book (map sent_of sent.items) after × Keeps self.new after)) }
        ensures refuses { IfErr result (RefusesOnly is_call_fault) }
        ensures fault { IfErr result (RefusesBy (λ n. (said : profile.Message) → RepresentsMessage object.now said → (book : OrganiserBook) → Keeps self.old book
            → CallFault events.Store (address_of self.old) said book n)) }
        ensures address { address_of self.new ≡ address_of self.old }
        ensures err { OnErr result ((book : OrganiserBook) → Keeps self.old book → Keeps self.new book) }
    {
        self.expect(object, Method::Store)?;
        let Some(sequence) = sequence_after(self.meetings.get(object.uid()), object.components())
        else {
            return Err(Fault::Refused(Refusal::SEQUENCE_SPENT));
        };
        let revision = Revision {
            sequence,
            stamp: now,
        };
        let Composed {
            attending,
            object: octets,
            sent,
        } = self.made(object, &revision)?;
        let uid = object.uid().clone()?;
        let components = copies_of(self.alloc, object.components())?;
        let meeting = StoredMeeting {
            revision,
            components,
            attending,
            object: octets,
            answers: IndexMap::new(self.alloc),
        };
        self.meetings.insert(uid, meeting)?;
        Ok(sent)
    }

    /// Takes an attendee's REPLY (RFC 5546 3.2.3). One to an older store says nothing of the last.
    /// Refused, and then nothing has changed: 60 for an object that isn't a REPLY, 70 for one to another organiser, 71 for a meeting that isn't
    /// known or a SEQUENCE that wasn't sent yet, 73 for one who isn't an attendee of the last store.
    pub fn take_reply(&mut self, object: &Message) -> Result<(), Fault>
        ensures steps { IfOk result (λ _. (said : profile.Message) → RepresentsMessage object.now said → (book : OrganiserBook) → Keeps self.old book
            → MayTake events.Reply (address_of self.old) said book × Keeps self.new (after_reply said book)) }
        ensures refuses { IfErr result (RefusesOnly is_call_fault) }
        ensures fault { IfErr result (RefusesBy (λ n. (said : profile.Message) → RepresentsMessage object.now said → (book : OrganiserBook) → Keeps self.old book
            → CallFault events.Reply (address_of self.old) said book n)) }
        ensures address { address_of self.new ≡ address_of self.old }
        ensures err { OnErr result ((book : OrganiserBook) → Keeps self.old book → Keeps self.new book) }
    {
        self.expect(object, Method::Reply)?;
        let Some(meeting) = self.meetings.get_mut(object.uid()) else {
            return Err(Fault::Refused(Refusal::NOT_SENT));
        };
        meeting.take_reply(object.components())?;
        Ok(())
    }

    /// Answers an attendee's REFRESH (RFC 5546 3.2.6): with the octets that were made of the last store, also where they were sent to nobody.
    /// Refused: 60 for an object that isn't a REFRESH, 70 for one to another organiser, 71 for a meeting that isn't known, 73 for one who isn't
    /// an attendee of the last store.
    pub fn take_refresh(&self, object: &Message) -> Result<Vec<u8>, Fault>
        ensures steps { IfOk result (λ octets. (said : profile.Message) → RepresentsMessage object.now said → (book : OrganiserBook) → Keeps self.now book
            → MayTake events.Refresh (address_of self.now) said book × AnswersRefresh said book octets.items) }
        ensures refuses { IfErr result (RefusesOnly is_call_fault) }
        ensures fault { IfErr result (RefusesBy (λ n. (said : profile.Message) → RepresentsMessage object.now said → (book : OrganiserBook) → Keeps self.now book
            → CallFault events.Refresh (address_of self.now) said book n)) }
    {
        self.expect(object, Method::Refresh)?;
        let Some(meeting) = self.meetings.get(object.uid()) else {
            return Err(Fault::Refused(Refusal::NOT_SENT));
        };
        if meeting.is_strange(object.components()) {
            return Err(Fault::Refused(Refusal::NOT_AN_ATTENDEE));
        }
        Ok(meeting.object.clone()?)
    }

    /// What is seen of an attendee's answers to the last store, for a slot of the meeting; None for a meeting that isn't known and for one
    /// who isn't an attendee of it (RFC 6638 4.2).
    pub fn seen(&self, uid: &Text, slot: Slot, attendee: &Address) -> Option<PartStat>
        ensures { (book : OrganiserBook) → Keeps self.now book
            → IsSeen book (text_octets uid.now) (slot_of slot) (address_octets attendee.now) (option_map participation_of result) }
    {
        let meeting = self.meetings.get(uid)?;
        if !meeting.has_attendee(attendee) {
            return None;
        }
        Some(meeting.answered(slot, attendee))
    }

    /// The meeting of this UID as it was last sent, without METHOD, each attendee with what is seen of it and SCHEDULE-STATUS=1.1 where it
    /// was sent a message (RFC 6638 3.2.9); None for one that isn't known.
    pub fn text(&self, uid: &Text) -> Result<Option<Vec<u8>>, AllocError>
        ensures { IfOk result (λ text. (book : OrganiserBook) → Keeps self.now book
            → IsShown (address_of self.now) book (text_octets uid.now) (option_map (λ octets. octets.items) text)) }
    {
        let Some(meeting) = self.meetings.get(uid) else {
            return Ok(None);
        };
        let text = MeetingText {
            uid,
            organiser: &self.address,
            revision: meeting.revision,
            components: &meeting.components,
        };
        let mut octets = Vec::new(self.alloc);
        let shown = Shown { meeting };
        write_meeting(None, &text, &shown, &mut octets)?;
        Ok(Some(octets))
    }

    /// The texts of all meetings, each as `text` shows it, one after another by the octets of their UIDs. It sorts the UIDs, and else grows with what
    /// it writes. Fails only when out of memory.
    pub fn texts(&self) -> Result<Vec<u8>, AllocError>
        ensures { IfOk result (λ octets. (book : OrganiserBook) → Keeps self.now book → ShowsMeetings (address_of self.now) book octets.items) }
    {
        let mut octets = Vec::new(self.alloc);
        let uids = self.uids()?;
        for uid in &uids {
            self.append_text(*uid, &mut octets)?;
        }
        Ok(octets)
    }

    /// The UIDs of all meetings, by their octets. Fails only when out of memory.
    fn uids(&self) -> Result<Vec<&Text>, AllocError>
        ensures { IfOk result (λ uids. AreUids self.now uids.items) }
    {
        let mut uids = Vec::new(self.alloc);
        for uid in self.meetings.keys() {
            uids.push(uid)?;
        }
        sort(&mut uids);
        Ok(uids)
    }

    /// Appends the text of a meeting that is known.
    fn append_text(&self, uid: &Text, octets: &mut Vec<u8>) -> Result<(), AllocError>
        ensures { OnOk result ((more : List ℕ) × ShowsLast self.now (text_octets uid.now) more × (octets.new.items ≡ octets.old.items ++ more)) }
    {
        let Some(text) = self.text(uid)? else {
            return Ok(());
        };
        octets.extend_from_slice(text.as_slice())?;
        Ok(())
    }

    /// Refused: 60 for an object that asks for something else, 70 for one of another organiser.
    fn expect(&self, object: &Message, method: Method) -> Result<(), Fault>
        ensures kind { OnOk result (method_said object.now.method ≡ method_said method) }
        ensures own { OnOk result (address_octets object.now.organiser ≡ address_of self.now) }
        ensures refuses { IfErr result (RefusesOnly is_call_fault) }
        ensures fault { IfErr result (RefusesBy (λ n. (said : profile.Message) → RepresentsMessage object.now said → (book : OrganiserBook)
            → CallFault (method_said method) (address_of self.now) said book n)) }
    {
        if object.method() != method {
            return Err(Fault::Refused(Refusal::BAD_METHOD));
        }
        if *object.organiser() != self.address {
            return Err(Fault::Refused(Refusal::NOT_HOSTED));
        }
        Ok(())
    }

    /// What is made of an object that is stored with this revision.
    fn made(&self, object: &Message, revision: &Revision) -> Result<Composed, AllocError>
        ensures attending { IfOk result (λ made. AreAttending (lists_of object.now.components.items) made.attending.entries) }
        ensures told { IfOk result (λ made. (before : List (List Attendee)) → LastAttends before (get same_text self.now.meetings object.now.uid)
            → (address : List ℕ) → is_told address made.attending.entries ≡ is_told_by (calls_off object.now.components.items) (address_of self.now) before (lists_of object.now.components.items) address) }
        ensures sends { IfOk result (λ made. (events : List EventComponent) (before : List (List Attendee)) → AllZip SaysComponent events object.now.components.items
            → LastAttends before (get same_text self.now.meetings object.now.uid)
            → SendsObject (address_of self.now) object.now revision.now events before made.object.items (map sent_of made.sent.items)) }
    {
        let mut attending = attending(self.alloc, object.components())?;
        let to = sent(self.alloc, &self.address, &attending)?;
        let called_off = calls_off(object.components());
        let gone = self.gone(object.uid(), &attending, called_off)?;
        tell(&mut attending, &to);
        tell(&mut attending, &gone);
        let text = MeetingText {
            uid: object.uid(),
            organiser: object.organiser(),
            revision: *revision,
            components: object.components(),
        };
        let Sending { object, sent } = send(self.alloc, &text, called_off, to, gone)?;
        Ok(Composed {
            attending,
            object,
            sent,
        })
    }

    /// Of those whom the server sent messages by the last store of this UID those who get a CANCEL of this one and no REQUEST.
    fn gone(
        &self,
        uid: &Text,
        now: &Attending,
        called_off: bool,
    ) -> Result<Vec<Address>, AllocError>
        ensures { IfOk result (λ gone. (before lists : List (List Attendee)) → LastAttends before (get same_text self.now.meetings uid.now) → AreAttending lists now.now.entries
            → map address_octets gone.items ≡ gone_among called_off (address_of self.now) before lists) }
    {
        let Some(last) = self.meetings.get(uid) else {
            return Ok(Vec::new(self.alloc));
        };
        gone(self.alloc, &self.address, &last.attending, now, called_off)
    }
}

/// Puts UIDs in order, by their octets.
fn sort(uids: &mut Vec<&Text>)
    ensures same { IsPermutation uids.old.items uids.new.items }
    ensures rises { IsSortedByKey octets_at (slice_cmp nat_cmp) uids.new.items }
{
    uids.sort_unstable_by(|a, b| a.as_str().cmp(b.as_str()));
}

/// Copies of what these components say, in their order. It fails only when out of memory.
fn copies_of(
    alloc: Global,
    components: &[MessageComponent],
) -> Result<Vec<MessageComponent>, AllocError>
    ensures { IfOk result (λ copies. (said : List EventComponent) → AllZip SaysComponent said components.now → AllZip SaysComponent said copies.items) }
{
    let mut copies = Vec::new(alloc);
    for component in components {
        copies.push(component.without_instances(alloc)?)?;
    }
    Ok(copies)
}
