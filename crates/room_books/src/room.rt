//! A room takes messages one after another. A message is taken whole or not at all: everything is computed
//! beside the room, and put into it by the last step.

ghost use Rattle.std.specs.Prelude.{◌≡◌, ◌≢◌, ◌⊎◌, ◌<◌, ◌≤◌, ◌+◌, ◌++◌, ℕ, List, [], Contains, length, map, IfOk, OnOk, OnErr, IsTrue, true, is_some, option_copied, if◌then◌else◌};
ghost use Rattle.std.specs.Vec.{vec_len, vec_capacity};
ghost use Rattle.std.specs.Map.{lookup};
ghost use Rattle.indexmap.specs.IndexMap.{insert_index, IsUnchanged};
ghost use Rattle.ical_values.specs.Octets.{address_octets};
ghost use Rattle.cal_zones.specs.RoomZones.{room_of, words_of};
ghost use Rattle.itip_order.specs.Parts.{part_of};
ghost use Rattle.itip_order.specs.Registers.{RepresentsHistory};
ghost use Rattle.profile.specs.rooms.Revisions as revisions;
ghost use Rattle.profile.specs.checker.Instances.{IsClear};
ghost use Rattle.itip_messages.specs.Message.{RepresentsMessage};
ghost use Rattle.profile.specs.events.Messages as profile;
ghost use Rattle.profile.specs.rooms.Messages.{is_add};
ghost use Rattle.profile.specs.streams.Streams.{AreClaims, IsDelivered, IsReached};
ghost use Rattle.profile.specs.Headline.{AcceptedWhereClear, DeclineNamesClash, KeptTextsPass};
ghost use Rattle.profile.specs.checker.Calendars.{CertificateHolds};
ghost use Rattle.profile.specs.rooms.Rooms as rooms;
ghost use Rattle.profile.specs.rooms.Rooms.{Book, empty_book, is_accept, is_decision};
ghost use Rattle.profile.specs.rooms.Kept.{IsKeptCalendar, IsKeptCertificate, Refreshes, Replies};
ghost use Rattle.room_books.specs.Gone.{IsPartedInto, Shifts};
ghost use Rattle.room_books.specs.Meeting.{same_key, all_confirmed, all_singles, outcome_of, confirmed_at, singles_by, others, AreAllApart, all_recurring, all_series, beside, in_room, series_at, series_by, AreFewer, AreRecurring, IsClearIn, MayJoin};
ghost use Rattle.cal_events.specs.declared.instance.Single.{Single};
ghost use Rattle.room_books.specs.Texts.{IsKeptBy, KeepsReached, SpellsConfirmed};
ghost use Rattle.room_books.specs.Timeline.{IsTimelineOf};
ghost use Rattle.room_books.specs.Taking.{answers_by, answers_then, claims_said, frees_then, held_after, kept_then, kind_view, parts_said, refresh_octets, reply_octets, HasHistory, IsMadeOf, AreAnswersDecided, IsKindIn, MayJoinAll, SaysFreed};
ghost use Rattle.room_books.specs.Slots.{AreAnswersBySlot};
ghost use Rattle.room_books.specs.declared.answer.Kind.{Kind};
ghost use Rattle.room_books.specs.Room.{is_of_meeting, HaveReached, Represents, StepsWith, AreFitting, IsMeetingAfter, IsOwn, Meets, IsPutIn, IsRenewed, TellsFreed};

use crate::answer::{Answer, Kind};
use crate::change::{Change, Views, held_with, parts_of};
use crate::claim::Claim;
use crate::claims::claims_of;
use crate::confirming::{count_series, singles_of};
use crate::decide::{Deciding, Meetings, candidates, decided, keys_differ};
use crate::kept::{Changes, Meeting};
use crate::laws::{kept_texts_pass, kept_texts_spell, one_kept_calendar};
use crate::meeting::{MeetingKey, Outcome, PartAnswer};
use crate::refresh::refresh_to;
use crate::reply::reply_to;
use crate::slots::slots_of;
use crate::texts::{KeptTexts, calendar_of, certificate_octets};
use crate::timeline::Timeline;
use cal_events::{Calendar, Single, one_calendar_text};
use cal_zones::RoomZone;
use ical_lines::Fault;
use ical_values::{Address, Stamp};
use indexmap::IndexMap;
use itip_messages::Message;
use itip_order::{Held, Together};
use std::alloc::{AllocError, Global};

/// A room with all that it ever took.
#[derive(Drop)]
pub struct Room {
    pub(crate) alloc: Global,
    address: Address,
    zone: RoomZone,
    pub(crate) meetings: Meetings,
    pub(crate) timeline: Timeline,
    /// The places of the meetings that have series confirmed.
    pub(crate) recurring: Vec<usize>,
    /// How many series are confirmed.
    pub(crate) series: usize,
    ghost timed: { IsTimelineOf (confirmed_at meetings.entries) timeline.busy.items },
    ghost counted: { timeline.confirmed ≡ length (all_confirmed meetings.entries) },
    ghost clear: { IsClear (Contains (all_confirmed meetings.entries)) },
    ghost apart: { AreAllApart meetings.entries },
    ghost recurs: { AreRecurring (series_at meetings.entries) recurring.items },
    ghost series_counted: { series ≡ length (all_recurring meetings.entries) },
    ghost series_few: { series ≤ 64 },
    ghost series_clear: { IsClearIn (in_room meetings.entries) },
    // some messages led from the empty room here
    ghost reached: { ∥ HaveReached (address_octets address) (room_of zone) meetings.entries ∥₁ },
}

/// What is decided of a message: what it does to the answers of its meeting, and which instances the meeting no longer confirms, and which
/// it confirms now and didn't before.
#[derive(Drop)]
struct Decided {
    changes: Changes,
    gone: Vec<Single>,
    added: Vec<Single>,
    /// None where none of its parts gets an answer now.
    outcome: Option<Outcome>,
    /// Whether none of them does, and an instance that was confirmed isn't any more.
    frees: bool,
}

impl Room {
    /// A room of this zone that has taken nothing.
    pub fn new(alloc: Global, address: Address, zone: RoomZone) -> Room
        ensures empty { Represents result.meetings.entries empty_book }
        ensures address { result.address ≡ address }
        ensures zone { result.zone ≡ zone }
    {
        Room {
            alloc,
            address,
            zone,
            meetings: IndexMap::new(alloc),
            timeline: Timeline::new(alloc),
            recurring: Vec::new(alloc),
            series: 0,
        }
    }

    /// The allocator that the room keeps.
    pub fn alloc(&self) -> Global {
        self.alloc
    }

    /// The room's own address, in lower case: an ATTENDEE of this address is the room (RFC 5545 3.8.4.1).
    pub fn address(&self) -> &Address
        ensures { result.now ≡ self.now.address }
    {
        &self.address
    }

    /// The room's zone: on its clocks the days and the times without zone of its meetings are read.
    pub fn zone(&self) -> RoomZone
        ensures { result ≡ self.now.zone }
    {
        self.zone
    }

    /// The meetings, in order of first arrival.
    pub fn meetings(&self) -> &Meetings
        ensures { result.now ≡ self.now.meetings }
    {
        &self.meetings
    }

    /// Takes a message at a moment, and answers it: with a reply where one of its parts is to take place and is in the view; and with a
    /// refresh where an ADD brought something new of a meeting of which nothing of the whole was ever taken (RFC 5546 3.2.6). Where it decides
    /// nothing it tells whether an instance that was confirmed isn't any more. One that is for an organiser isn't addressed to a room, and changes
    /// nothing.
    /// Where memory is refused nothing has changed.
    pub fn take(&mut self, message: &Message, now: Stamp) -> Result<Answer, AllocError>
        // From each book that the room represents, it is accepted exactly where something is asked and the room stays clear and within its limits.
        ensures accepted { IfOk result (λ answer. (said : profile.Message) → RepresentsMessage message.now said → (book : Book) → Represents self.old.meetings.entries book
            → (claims : List rooms.Claim) × AreClaims (address_octets self.old.address) (room_of self.old.zone) said claims × AcceptedWhereClear book claims now (kind_view answer.kind)) }
        // Where it is declined for a clash, two instances of what would be confirmed are named, and an instant in both.
        ensures declined { IfOk result (λ answer. (said : profile.Message) → RepresentsMessage message.now said → (book : Book) → Represents self.old.meetings.entries book
            → (claims : List rooms.Claim) × AreClaims (address_octets self.old.address) (room_of self.old.zone) said claims × DeclineNamesClash book claims now (kind_view answer.kind)) }
        // From each book that the room represents, it makes a step of the room machine, with the claims of the message.
        ensures steps { IfOk result (λ answer. (said : profile.Message) → RepresentsMessage message.now said → (book : Book) → Represents self.old.meetings.entries book
            → (claims : List rooms.Claim) × AreClaims (address_octets self.old.address) (room_of self.old.zone) said claims
            × StepsWith (address_octets self.old.address) self.new.meetings.entries book claims now (kind_view answer.kind) (reply_octets answer) (is_add said.method) (refresh_octets answer)) }
        // Of the books that it represents before and after, it tells exactly where nothing is decided whether one instance isn't confirmed any more.
        ensures frees { IfOk result (λ answer. (before after : Book) → Represents self.old.meetings.entries before → Represents self.new.meetings.entries after
            → TellsFreed (kind_view answer.kind) answer.frees before after) }
        ensures address { self.new.address ≡ self.old.address }
        ensures zone { self.new.zone ≡ self.old.zone }
        ensures err { OnErr result (IsUnchanged self.old.meetings self.new.meetings) }
    {
        let claims = claims_of(self.alloc, message, &self.address, &self.zone)?;
        let Some(first) = claims.first() else {
            // Only for the proof: no two meetings have one name.
            keys_differ(&self.meetings);
            return Ok(Answer::silent(Kind::NotAddressed));
        };
        let key = MeetingKey::of(&first.part.organiser, &first.part.uid)?;
        let adds = message.method().is_add();
        let answer = self.take_claims(key, &claims, adds, now)?;
        Ok(answer)
    }

    /// The calendar and the certificate that the room keeps. Whatever messages it took, in any order and repeated, they pass the checker.
    pub fn kept(&self) -> Result<KeptTexts, AllocError>
        ensures passes { IfOk result (λ texts. KeptTextsPass (address_octets self.now.address) texts.calendar.items texts.certificate.items) }
        // Some messages led to a book that the room represents, and the calendar spells exactly what it confirms;
        ensures spells { IfOk result (λ texts. ∥ KeepsReached (address_octets self.now.address) (room_of self.now.zone) self.now.meetings.entries texts.calendar.items ∥₁) }
        // and it does so for each such book.
        ensures spells_each { IfOk result (λ texts. (book : Book) → IsReached (address_octets self.now.address) (room_of self.now.zone) book → Represents self.now.meetings.entries book
            → SpellsConfirmed (address_octets self.now.address) book texts.calendar.items) }
        ensures calendar { IfOk result (λ texts. (book : Book) → Represents self.now.meetings.entries book → IsKeptCalendar (address_octets self.now.address) (words_of self.now.zone) book texts.calendar.items) }
        ensures certificate { IfOk result (λ texts. IsKeptCertificate (address_octets self.now.address) texts.calendar.items texts.certificate.items) }
    {
        // Only for the proof: what these laws say.
        kept_texts_spell();
        kept_texts_pass();
        self.zone.words_mean();
        let calendar = self.calendar_text()?;
        let certificate = self.certificate_for(&calendar)?;
        Ok(KeptTexts {
            calendar,
            certificate,
        })
    }

    /// The kept calendar: each accepted part in the view, and what hides instances of an accepted whole, the meetings in order of first arrival.
    pub fn calendar_text(&self) -> Result<Vec<u8>, AllocError>
        ensures kept { IfOk result (λ text. (book : Book) → Represents self.now.meetings.entries book → IsKeptCalendar (address_octets self.now.address) (words_of self.now.zone) book text.items) }
        // Where messages led to the book, each certificate that is made for what it spells holds for it.
        ensures passes { IfOk result (λ text. (book : Book) → IsReached (address_octets self.now.address) (room_of self.now.zone) book → Represents self.now.meetings.entries book
            → (certificate : List ℕ) → IsKeptCertificate (address_octets self.now.address) text.items certificate → CertificateHolds (address_octets self.now.address) text.items certificate) }
    {
        // Only for the proof: what these laws say.
        kept_texts_pass();
        self.zone.words_mean();
        let text = calendar_of(self.alloc, &self.meetings, &self.address, &self.zone)?;
        Ok(text)
    }

    /// The certificate that holds for the kept calendar: for the octets that `calendar_text` gives, as there are no others.
    pub fn certificate_text(&self) -> Result<Vec<u8>, AllocError>
        ensures kept { IfOk result (λ text. (calendar : List ℕ) × IsKeptBy (address_octets self.now.address) (words_of self.now.zone) self.now.meetings.entries calendar
            × IsKeptCertificate (address_octets self.now.address) calendar text.items) }
        ensures made { IfOk result (λ text. (calendar : List ℕ) → IsKeptBy (address_octets self.now.address) (words_of self.now.zone) self.now.meetings.entries calendar
            → IsKeptCertificate (address_octets self.now.address) calendar text.items) }
        ensures passes { IfOk result (λ text. (calendar : List ℕ) → IsKeptBy (address_octets self.now.address) (words_of self.now.zone) self.now.meetings.entries calendar
            → KeptTextsPass (address_octets self.now.address) calendar text.items) }
    {
        // Only for the proof: there is one kept calendar.
        one_kept_calendar();
        let texts = self.kept()?;
        let KeptTexts {
            calendar: _,
            certificate,
        } = texts;
        Ok(certificate)
    }

    /// The certificate of the kept calendar, which is read back: the checker judges its octets. It costs what reading them does, and no look at an
    /// instance.
    fn certificate_for(&self, calendar: &[u8]) -> Result<Vec<u8>, AllocError>
        requires kept { (book : Book) → Represents self.now.meetings.entries book → IsKeptCalendar (address_octets self.now.address) (words_of self.now.zone) book calendar.now }
        ensures { IfOk result (λ text. IsKeptCertificate (address_octets self.now.address) calendar.now text.items) }
    {
        // Only for the proof: what these laws say.
        kept_texts_spell();
        one_calendar_text();
        self.zone.words_mean();
        match Calendar::read(self.alloc, calendar, &self.address) {
            Ok(calendar) => certificate_octets(self.alloc, &calendar),
            Err(Fault::Memory) => Err(AllocError),
            // the kept calendar reads back
            Err(Fault::Refused(_)) => unreachable!(),
        }
    }

    /// Takes the claims of a message to this meeting, that adds instances or doesn't.
    // Apart from `take`, which pays for all its locals also where a message isn't addressed to the room.
    #[inline(never)]
    fn take_claims(
        &mut self,
        key: MeetingKey,
        claims: &[Claim],
        adds: bool,
        now: Stamp,
    ) -> Result<Answer, AllocError>
        requires some { 0 < length claims.now }
        requires delivered { ∥ IsDelivered (address_octets self.old.address) (room_of self.old.zone) (record { claims = claims_said claims.now; moment = now })
            × AreFitting key (claims_said claims.now) ∥₁ }
        ensures steps { IfOk result (λ answer. AreFitting key (claims_said claims.now) → (book : Book) → Represents self.old.meetings.entries book
            → StepsWith (address_octets self.old.address) self.new.meetings.entries book (claims_said claims.now) now (kind_view answer.kind) (reply_octets answer) adds (refresh_octets answer)) }
        ensures frees { IfOk result (λ answer. (before after : Book) → Represents self.old.meetings.entries before → Represents self.new.meetings.entries after
            → TellsFreed (kind_view answer.kind) answer.frees before after) }
        ensures address { self.new.address ≡ self.old.address }
        ensures zone { self.new.zone ≡ self.old.zone }
        ensures err { OnErr result (IsUnchanged self.old.meetings self.new.meetings) }
    {
        // Only for the proof: no two meetings have one name.
        keys_differ(&self.meetings);
        let parts = parts_of(self.alloc, claims)?;
        let (decided, answer) = self.answered(&key, claims, &parts, adds, now)?;
        let Decided {
            changes,
            gone,
            added,
            outcome: _,
            frees: _,
        } = decided;
        self.put(key, parts, changes, &gone, &added)?;
        // Only for the proof: nor have any now.
        keys_differ(&self.meetings);
        Ok(answer)
    }

    /// What is decided of these claims of a meeting, with these parts, and the answer to their message, which adds instances or doesn't.
    fn answered(
        &self,
        key: &MeetingKey,
        claims: &[Claim],
        parts: &Held,
        adds: bool,
        now: Stamp,
    ) -> Result<(Decided, Answer), AllocError>
        requires some { 0 < length claims.now }
        requires parts { RepresentsHistory parts.now (parts_said claims.now) }
        ensures shifts { IfOk result (λ done.
            Shifts (singles_by (lookup (same_key key.now) self.now.meetings.entries)) done.0.gone.items done.0.added.items
            (all_singles (answers_then (answers_by (lookup (same_key key.now) self.now.meetings.entries)) done.0.changes))) }
        ensures after { IfOk result (λ done. AreFitting key.now (claims_said claims.now)
            → (book : Book) → Represents self.now.meetings.entries book → (meeting : Meeting)
            → IsMadeOf (held_after (lookup (same_key key.now) self.now.meetings.entries) parts.now) (answers_then (answers_by (lookup (same_key key.now) self.now.meetings.entries)) done.0.changes) meeting
            → IsMeetingAfter book key.now (claims_said claims.now) now (kind_view done.1.kind) meeting) }
        ensures joins { IfOk result (λ done.
            MayJoin (others key.now self.now.meetings.entries) key.now (all_singles (answers_then (answers_by (lookup (same_key key.now) self.now.meetings.entries)) done.0.changes))) }
        ensures recurs { IfOk result (λ done.
            MayJoinAll (beside key.now self.now.meetings.entries) key.now (answers_then (answers_by (lookup (same_key key.now) self.now.meetings.entries)) done.0.changes)) }
        ensures replies { IfOk result (λ done. (own : Book) (meeting : Meeting) → AreFitting key.now (claims_said claims.now)
            → IsOwn key.now own
            → IsMadeOf (held_after (lookup (same_key key.now) self.now.meetings.entries) parts.now) (answers_then (answers_by (lookup (same_key key.now) self.now.meetings.entries)) done.0.changes) meeting
            → Meets own key.now meeting
            → Replies (address_octets self.now.address) own (claims_said claims.now) (reply_octets done.1)) }
        ensures refreshes { IfOk result (λ done. (before after : List revisions.Part)
            → HasHistory (lookup (same_key key.now) self.now.meetings.entries) before
            → RepresentsHistory (held_after (lookup (same_key key.now) self.now.meetings.entries) parts.now) after
            → Refreshes (address_octets self.now.address) adds before after (claims_said claims.now) now (refresh_octets done.1)) }
        ensures frees { IfOk result (λ done. (history : List revisions.Part) → HasHistory (lookup (same_key key.now) self.now.meetings.entries) history
            → SaysFreed (is_decision (kind_view done.1.kind)) done.1.frees
            (singles_by (lookup (same_key key.now) self.now.meetings.entries)) (all_singles (answers_then (answers_by (lookup (same_key key.now) self.now.meetings.entries)) done.0.changes))
            (series_by (lookup (same_key key.now) self.now.meetings.entries)) (all_series (answers_then (answers_by (lookup (same_key key.now) self.now.meetings.entries)) done.0.changes))) }
    {
        let Some(first) = claims.first() else {
            unreachable!()
        };
        let before = self.meetings.get(key);
        let held = held_with(before, parts);
        let slots = slots_of(self.alloc, claims)?;
        let views = Views {
            alloc: self.alloc,
            before,
            after: &held,
            claims,
            part: &first.part,
            slots: &slots,
        };
        let decided = self.settled(key, &views, now)?;
        let kind = views.kind_of(&decided.outcome)?;
        let reply = reply_to(&self.address, &views, &decided.changes)?;
        let refresh = refresh_to(&self.address, &views, adds, now)?;
        let answer = Answer {
            kind,
            reply,
            refresh,
            frees: decided.frees,
        };
        Ok((decided, answer))
    }

    /// The answers that a meeting has; none where nothing of it was ever taken.
    pub(crate) fn answers_before(&self, key: &MeetingKey) -> &[PartAnswer]
        ensures are { result.now ≡ answers_by (lookup (same_key key.now) self.now.meetings.entries) }
        ensures by_slot { AreAnswersBySlot result.now }
    {
        match self.meetings.get(key) {
            Some(meeting) => &meeting.answers,
            None => &[],
        }
    }

    /// What is decided of the claims of a message to this meeting.
    fn settled(
        &self,
        key: &MeetingKey,
        views: &Views<'_>,
        now: Stamp,
    ) -> Result<Decided, AllocError>
        requires some { 0 < length views.now.claims.now }
        requires before { option_copied views.now.before ≡ lookup (same_key key.now) self.now.meetings.entries }
        requires held { (history : List revisions.Part) → HasHistory (lookup (same_key key.now) self.now.meetings.entries) history
            → RepresentsHistory views.now.after.now (history ++ parts_said views.now.claims.now) }
        ensures after { IfOk result (λ decided. is_of_meeting key.now (part_of views.now.part.now) ≡ true
            → AreFitting key.now (claims_said views.now.claims.now)
            → (book : Book) → Represents self.now.meetings.entries book → (meeting : Meeting)
            → IsMadeOf views.now.after.now (answers_then (answers_by (lookup (same_key key.now) self.now.meetings.entries)) decided.changes) meeting
            → (kind : Kind) → IsKindIn (option_copied views.now.before) views.now.after.now views.now.claims.now decided.outcome kind
            → IsMeetingAfter book key.now (claims_said views.now.claims.now) now (kind_view kind) meeting) }
        ensures shifts { IfOk result (λ decided.
            Shifts (singles_by (lookup (same_key key.now) self.now.meetings.entries)) decided.gone.items decided.added.items
            (all_singles (answers_then (answers_by (lookup (same_key key.now) self.now.meetings.entries)) decided.changes))) }
        ensures joins { IfOk result (λ decided.
            MayJoin (others key.now self.now.meetings.entries) key.now (all_singles (answers_then (answers_by (lookup (same_key key.now) self.now.meetings.entries)) decided.changes))) }
        ensures recurs { IfOk result (λ decided.
            MayJoinAll (beside key.now self.now.meetings.entries) key.now (answers_then (answers_by (lookup (same_key key.now) self.now.meetings.entries)) decided.changes)) }
        ensures frees { IfOk result (λ decided. (history : List revisions.Part) → RepresentsHistory views.now.after.now history
            → SaysFreed (is_some decided.outcome) decided.frees
            (singles_by (lookup (same_key key.now) self.now.meetings.entries)) (all_singles (answers_then (answers_by (lookup (same_key key.now) self.now.meetings.entries)) decided.changes))
            (series_by (lookup (same_key key.now) self.now.meetings.entries)) (all_series (answers_then (answers_by (lookup (same_key key.now) self.now.meetings.entries)) decided.changes))) }
    {
        // Only for the proof: no two meetings have one name.
        keys_differ(&self.meetings);
        let change = views.change()?;
        let asked = views.asked()?;
        let decided = self.answers_after(key, views.after, change, &asked, now)?;
        Ok(decided)
    }

    /// The answers that stay, and those to the claims that are asked: one decision for all of them. This is held of the meeting after it.
    fn answers_after(
        &self,
        key: &MeetingKey,
        held: &Together<'_>,
        change: Change,
        asked: &[&Claim],
        now: Stamp,
    ) -> Result<Decided, AllocError>
        requires parted { IsPartedInto (singles_by (lookup (same_key key.now) self.now.meetings.entries)) change.gone.items (all_singles (kept_then (lookup (same_key key.now) self.now.meetings.entries) change.lost.items change.left.items)) }
        requires less { AreFewer (series_by (lookup (same_key key.now) self.now.meetings.entries)) (all_series (kept_then (lookup (same_key key.now) self.now.meetings.entries) change.lost.items change.left.items)) }
        ensures gone { IfOk result (λ decided. decided.gone ≡ change.gone) }
        ensures answered { IfOk result (λ decided. AreAnswersDecided (beside key.now self.now.meetings.entries) key.now held.now now
            (kept_then (lookup (same_key key.now) self.now.meetings.entries) change.lost.items change.left.items) asked.now (answers_then (answers_by (lookup (same_key key.now) self.now.meetings.entries)) decided.changes) decided.outcome) }
        ensures added { IfOk result (λ decided. IsPartedInto (all_singles (answers_then (answers_by (lookup (same_key key.now) self.now.meetings.entries)) decided.changes)) (all_singles (kept_then (lookup (same_key key.now) self.now.meetings.entries) change.lost.items change.left.items)) decided.added.items) }
        ensures joins { IfOk result (λ decided.
            MayJoin (others key.now self.now.meetings.entries) key.now (all_singles (answers_then (answers_by (lookup (same_key key.now) self.now.meetings.entries)) decided.changes))) }
        ensures recurs { IfOk result (λ decided.
            MayJoinAll (beside key.now self.now.meetings.entries) key.now (answers_then (answers_by (lookup (same_key key.now) self.now.meetings.entries)) decided.changes)) }
        ensures frees { IfOk result (λ decided. decided.frees ≡ frees_then decided.outcome change.gone.items change.sheds) }
    {
        // Only for the proof: no two meetings have one name.
        keys_differ(&self.meetings);
        if asked.is_empty() {
            let frees = change.frees();
            let Change {
                lost,
                left,
                gone,
                ..
            } = change;
            return Ok(Decided {
                changes: Changes::of(self.alloc, lost, left)?,
                gone,
                added: Vec::new(self.alloc),
                outcome: None,
                frees,
            });
        }
        let candidates = candidates(self.alloc, held, asked, now)?;
        let singles = singles_of(self.alloc, &candidates)?;
        let deciding = Deciding {
            room: self,
            key,
            lost: &change.lost,
            left: &change.left,
            gone: &change.gone,
        };
        let outcome = deciding.decide(&candidates, &singles)?;
        let mut new = decided(self.alloc, candidates, &outcome)?;
        let added = added_by(self.alloc, &outcome, singles);
        let Change {
            lost,
            left,
            gone,
            ..
        } = change;
        let mut coming = left;
        coming.append(&mut new)?;
        let changes = Changes::of(self.alloc, lost, coming)?;
        Ok(Decided {
            changes,
            gone,
            added,
            outcome: Some(outcome),
            frees: false,
        })
    }

    /// Puts more of a meeting in its place, and changes its answers; takes what is gone out of the timeline, and puts in what is added.
    fn put(
        &mut self,
        key: MeetingKey,
        more: Held,
        changes: Changes,
        gone: &[Single],
        added: &[Single],
    ) -> Result<(), AllocError>
        requires shifts { Shifts (singles_by (lookup (same_key key) self.old.meetings.entries)) gone.now added.now
            (all_singles (answers_then (answers_by (lookup (same_key key) self.old.meetings.entries)) changes)) }
        requires joins { MayJoin (others key self.old.meetings.entries) key (all_singles (answers_then (answers_by (lookup (same_key key) self.old.meetings.entries)) changes)) }
        requires recurs { MayJoinAll (beside key self.old.meetings.entries) key (answers_then (answers_by (lookup (same_key key) self.old.meetings.entries)) changes) }
        requires reaches { (entries : List (MeetingKey × Meeting)) → IsPutIn key more changes self.old.meetings.entries entries
            → ∥ HaveReached (address_octets self.old.address) (room_of self.old.zone) entries ∥₁ }
        ensures put { OnOk result (IsPutIn key more changes self.old.meetings.entries self.new.meetings.entries) }
        ensures address { self.new.address ≡ self.old.address }
        ensures zone { self.new.zone ≡ self.old.zone }
        ensures err { OnErr result (IsUnchanged self.old.meetings self.new.meetings) }
    {
        // Only for the proof: no two meetings have one name.
        keys_differ(&self.meetings);
        self.timeline.reserve(added.len())?;
        self.recurring.reserve(1)?;
        let before = count_series(self.answers_before(&key));
        let place = put_in(self.alloc, &mut self.meetings, key, more, changes)?;
        self.timeline.change(place, gone, added);
        let after = series_in(&self.meetings, place);
        self.series = self.series - before + after;
        mark(&mut self.recurring, place, after > 0);
        Ok(())
    }
}

/// Those of the instances of candidates that are confirmed by what was decided: all or none.
fn added_by(alloc: Global, outcome: &Outcome, singles: Vec<Single>) -> Vec<Single>
    ensures { result.items ≡ (if is_accept (outcome_of outcome.now) then singles.items else []) }
{
    if outcome.is_accept() {
        return singles;
    }
    Vec::new(alloc)
}

/// How many series the meeting in a place has confirmed.
fn series_in(meetings: &Meetings, place: usize) -> usize
    ensures { result ≡ length (series_at meetings.now.entries place) }
{
    match meetings.get_index(place) {
        Some((_, meeting)) => count_series(&meeting.answers),
        None => 0,
    }
}

/// Puts a place among others, or takes it out. There is room for it.
fn mark(places: &mut Vec<usize>, place: usize, is_one: bool)
    requires room { vec_len places.old + 1 ≤ vec_capacity places.old }
    ensures others { (other : ℕ) → other ≢ place → Contains places.old.items other → Contains places.new.items other }
    ensures own { IsTrue is_one → Contains places.new.items place }
    ensures no_more { (other : ℕ) → Contains places.new.items other → Contains places.old.items other ⊎ (IsTrue is_one × (other ≡ place)) }
{
    match places.iter().position(|own| *own == place) {
        Some(at) if !is_one => {
            places.remove(at);
        }
        None if is_one => {
            // there is room for it
            let _ = places.push(place);
        }
        _ => {}
    }
}

/// Puts more of a meeting in its place, after the others where nothing of it was taken, and changes its answers; and returns the place.
fn put_in(
    alloc: Global,
    meetings: &mut Meetings,
    key: MeetingKey,
    more: Held,
    changes: Changes,
) -> Result<usize, AllocError>
    ensures place { IfOk result (λ place. place ≡ insert_index same_key meetings.old key) }
    ensures put { OnOk result (IsPutIn key more changes meetings.old.entries meetings.new.entries) }
    ensures err { OnErr result (IsUnchanged meetings.old meetings.new) }
{
    let Some(place) = meetings.get_index_of(&key) else {
        let meeting = Meeting::new(more, changes);
        let (place, _) = meetings.insert_full(key, meeting)?;
        return Ok(place);
    };
    renew(alloc, meetings, place, more, changes)?;
    Ok(place)
}

/// Takes more parts of the meeting in a place, and changes its answers.
fn renew(
    alloc: Global,
    meetings: &mut Meetings,
    place: usize,
    more: Held,
    changes: Changes,
) -> Result<(), AllocError>
    requires { place < length meetings.old.entries }
    ensures renewed { OnOk result (IsRenewed place more changes meetings.old.entries meetings.new.entries) }
    ensures err { OnErr result (IsUnchanged meetings.old meetings.new) }
{
    let Some(meeting) = meetings.get_index_mut(place) else {
        return Ok(());
    };
    meeting.take(alloc, more, changes)?;
    Ok(())
}
