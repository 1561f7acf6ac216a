//! What octets say as a message, and what a reply or a refresh that was written reads back as.
ghost use Rattle.std.specs.Prelude.{◌≡◌, ◌<◌, ◌^◌, ◌∷◌, [], ℕ, ℤ, false, List, Contains, Option, Some, codes};
ghost use Rattle.std.specs.List.{flat_map};
ghost use Rattle.profile.specs.rooms.Kept.{Refreshes, Replies};
ghost use Rattle.profile.specs.events.EventComponents.{EventComponent};
ghost use Rattle.profile.specs.events.Messages.{Message, SpellsMessage};
ghost use Rattle.profile.specs.rooms.Messages.{Content, IsContent, IsRefreshEvent, IsReplyEvent, Outcome, is_add, object_lines};
ghost use Rattle.profile.specs.rooms.Revisions.{Part};
ghost use Rattle.profile.specs.rooms.Rooms.{Book, Claim, shown};
ghost use Rattle.profile.specs.series.RoomZones.{IsRoomZone};
ghost use Rattle.profile.specs.series.Zones.{Zone};
ghost use Rattle.profile.specs.text.Values.{IsUid};
ghost use Rattle.profile.specs.text.Lines.{is_too_long, written};
ghost use Rattle.profile.specs.streams.Streams.{AreClaims, ObjectFault};
ghost use Rattle.itip_messages.specs.Law.{AreTextAnswers, IsTextAddress, IsTextValue, IsReadAddress, IsAnswer, IsVevent, ReadsAs, SaysAnswer, SaysRefresh, SpellsRefresh, SpellsReply};

use cal_events::one_event;
use ical_tree::one_tree;
use ical_values::local_time::one_local_time;
use ical_values::offset::one_offset;
use ical_values::stamp::one_stamp;

/// Octets say at most one message, to rooms or to an organiser, and none where they have a fault. With the contract of `Message::read`: what
/// is taken is the one message that the octets spell, and what is refused spells none (RFC 5545 3.4, RFC 5546 3.2.2 to 3.2.6, RFC 4791 4.1).
pub fn one_message()
    ensures one { (octets : List ℕ) (a b : Message) → SpellsMessage octets a → SpellsMessage octets b → a ≡ b }
    ensures or_a_fault { (octets : List ℕ) (a : Message) (n : ℕ) → SpellsMessage octets a → ObjectFault n octets → ⊥ }
{
    one_tree();
    one_event();
}

/// An event of a message has one content: one form says when it is. Its start, its length, its rule with what UNTIL means, its further and its
/// excluded instants and its zone are each written in one form (RFC 5545 3.3, 3.6.5).
pub fn one_content()
    ensures { (read : List ℕ) (said : Message) (event : EventComponent) (a b : Content)
        → SpellsMessage read said → Contains said.events event → IsContent a event → IsContent b event → a ≡ b }
{
    one_stamp();
    one_local_time();
    one_offset();
}

/// Whatever a room answers: the octets of its REPLY read as lines, and these spell one VCALENDAR of METHOD REPLY with
/// a VEVENT for each answer, each with the very lines that were written (RFC 5545 3.1, 3.4, RFC 5546 3.2.3). Required are
/// texts that can be in a line: addresses in UTF-8, and a UID that a TEXT value can represent.
pub fn replies_read_back()
    ensures { (room : List ℕ) (events : List (List (List ℕ))) (octets : List ℕ)
        → IsTextAddress room → ((lines : List (List ℕ)) → Contains events lines → IsAnswer room lines)
        → octets ≡ written (object_lines (Some (codes "REPLY")) (flat_map (λ lines. lines) events)) → ReadsAs (codes "REPLY") octets events }
{
    ical_lines::lines_read_back();
}

/// Each VEVENT of a REPLY that a room writes says the answer that was given: the UID, the organiser, SEQUENCE, the moment as DTSTAMP, the
/// instance that is answered, and the room as its one attendee, who has accepted or declined (RFC 5546 3.2.3). Required are
/// a UID and addresses as a message's are read: of the right length, in lower case.
pub fn answers_read_back()
    ensures { (room : List ℕ) (part : Part) (moment : ℤ) (outcome : Outcome) (lines own : List (List ℕ))
        → IsReadAddress room → IsReadAddress part.organiser → IsUid part.uid → part.revision.sequence < 2 ^ 31
        → IsReplyEvent room part moment outcome lines → IsVevent own lines → SaysAnswer room part moment outcome own }
{}

/// Whatever a room asks for: the octets of its REFRESH read as lines, and these spell one VCALENDAR of METHOD REFRESH with one VEVENT, which
/// says the UID and the organiser of the meeting, the moment as DTSTAMP, and the room as its one attendee (RFC 5545 3.4, RFC 5546
/// 3.2.6). Required is what is required for a reply.
pub fn refreshes_read_back()
    ensures reads { (room organiser uid : List ℕ) (moment : ℤ) (lines : List (List ℕ)) (octets : List ℕ)
        → IsTextAddress room → IsTextAddress organiser → IsTextValue uid → IsRefreshEvent room organiser uid moment lines
        → octets ≡ written (object_lines (Some (codes "REFRESH")) lines) → ReadsAs (codes "REFRESH") octets (lines ∷ []) }
    ensures says { (room organiser uid : List ℕ) (moment : ℤ) (lines own : List (List ℕ))
        → IsReadAddress room → IsReadAddress organiser → IsUid uid
        → IsRefreshEvent room organiser uid moment lines → IsVevent own lines → SaysRefresh room organiser uid moment own }
{
    ical_lines::lines_read_back();
}

/// Whatever a room, in any zone that words give, answers to a message that octets spelled, an organiser hears: the octets of the REPLY spell an
/// object of one meeting, with an event for each part that the reply shows, in their order. It says the slot and the SEQUENCE that are answered,
/// the moment as DTSTAMP, and that the room, its one attendee, has accepted or declined; so what is heard in it is exactly the book's answers to
/// these parts (RFC 5546 3.2.3). Required are clashing instances named in UTF-8, as those of messages are, and octets within the limits of a message.
pub fn replies_are_heard()
    ensures { (read : List ℕ) (message : Message) (room words : List ℕ) (zone : Option Zone) (book : Book) (claims : List Claim) (octets : List ℕ)
        → SpellsMessage read message → IsRoomZone words zone → AreClaims room zone message claims → AreTextAnswers book
        → Replies room book claims (Some octets) → is_too_long octets ≡ false → SpellsReply room book (shown book.taken claims) octets }
{
    ical_lines::lines_read_back();
}

/// Whatever a room asks for when such a message comes, an organiser hears: the octets of the REFRESH spell an object that asks for the meeting of
/// the message, at that moment, with the room as its one attendee (RFC 5546 3.2.6). Required are octets within the limits of a message.
pub fn refreshes_are_heard()
    ensures { (read : List ℕ) (message : Message) (room : List ℕ) (zone : Option Zone) (before after : List Part) (claims : List Claim) (moment : ℤ) (octets : List ℕ)
        → SpellsMessage read message → AreClaims room zone message claims
        → Refreshes room (is_add message.method) before after claims moment (Some octets) → is_too_long octets ≡ false
        → SpellsRefresh room claims moment octets }
{
    ical_lines::lines_read_back();
}
