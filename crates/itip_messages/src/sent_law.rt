//! What an organiser writes reads back: the message that its octets spell, and what that says to each room.
ghost use Rattle.std.specs.Prelude.{◌≡◌, ℕ, List, [], ◌∷◌, Contains, Bool, false, None, Option, ◌<◌, ◌^◌};
ghost use Rattle.profile.specs.events.EventComponents.{Attendee, EventComponent, Store};
ghost use Rattle.profile.specs.events.Messages.{Message, SpellsMessage};
ghost use Rattle.profile.specs.organisers.Sent.{IsCancel, IsMeetingText, IsRequest};
ghost use Rattle.profile.specs.organisers.Organisers.{OrganiserBook, ShowsSeen, Stored};
ghost use Rattle.profile.specs.rooms.Messages.{AreParts};
ghost use Rattle.profile.specs.rooms.Revisions.{Revision};
ghost use Rattle.profile.specs.series.Zones.{Zone};
ghost use Rattle.profile.specs.text.Lines.{is_too_long};
ghost use Rattle.itip_messages.specs.SentLaw.{IsSentAddress, IsSentName, SpellsRequest, SpellsShown, SpellsShownCalendar, cancel_message, cancel_part};

/// What an organiser read of a store can be sent: its organiser and its UID, and the addresses of its attendees.
pub fn stored_texts_can_be_sent()
    ensures name { (stored : List ℕ) (said : Message) (revision : Revision)
        → SpellsMessage stored said → said.method ≡ Store → revision.sequence < 2 ^ 31 → IsSentName said.organiser said.uid revision }
    ensures attendees { (stored : List ℕ) (said : Message) (event : EventComponent) (attendee : Attendee)
        → SpellsMessage stored said → said.method ≡ Store → Contains said.events event → Contains event.attendees attendee
        → IsSentAddress attendee.address }
{}

/// Whatever an organiser takes back: the octets of its CANCEL spell a message of that METHOD, whose meeting is one VEVENT for the whole,
/// of this organiser, UID and revision, cancelled where it is called off, with the attendees in their order (RFC 5546 3.2.5). So it says to each
/// of them that the whole meeting is cancelled, and, where there is one, nothing to any other. Required are texts as a message's are read, and
/// octets within the limits of a message.
pub fn cancels_read_back()
    ensures spells { (organiser uid : List ℕ) (revision : Revision) (called_off : Bool) (to : List (List ℕ)) (octets : List ℕ)
        → IsSentName organiser uid revision → ((address : List ℕ) → Contains to address → IsSentAddress address)
        → IsCancel organiser uid revision called_off to octets → is_too_long octets ≡ false
        → SpellsMessage octets (cancel_message organiser uid revision called_off to) }
    ensures tells { (organiser uid : List ℕ) (revision : Revision) (called_off : Bool) (to : List (List ℕ)) (room : List ℕ) (zone : Option Zone)
        → Contains to room → AreParts room zone (cancel_message organiser uid revision called_off to) (cancel_part organiser uid revision ∷ []) }
    ensures others { (organiser uid : List ℕ) (revision : Revision) (called_off : Bool) (first : List ℕ) (more : List (List ℕ)) (room : List ℕ) (zone : Option Zone)
        → (Contains (first ∷ more) room → ⊥) → AreParts room zone (cancel_message organiser uid revision called_off (first ∷ more)) [] }
{
    ical_lines::lines_read_back();
}

/// Whatever meeting an organiser stored: the octets of its REQUEST spell a message of that METHOD (RFC 5546 3.2.2), with a VEVENT for each of
/// the store, in its order, which says the same event in the revision that was sent: whose it is, which instance, when it is and in which zone, whether it
/// is cancelled, and what it is about; each attendee occurs once, and is asked to answer. So it has for each room, in whichever zone, the very parts that the
/// events of the store have in that revision, with the same canonical octets. Required are a SEQUENCE that can be read, and octets within the limits
/// of a message.
pub fn requests_read_back()
    ensures { (stored : List ℕ) (said : Message) (revision : Revision) (octets : List ℕ)
        → SpellsMessage stored said → said.method ≡ Store
        → revision.sequence < 2 ^ 31 → IsRequest said.organiser said.uid revision said.events octets → is_too_long octets ≡ false
        → SpellsRequest said.organiser said.uid revision said.events octets }
{
    ical_lines::lines_read_back();
    cal_zones::zone_reads_back();
}

/// Whatever an organiser shows of a meeting that it stored: its octets spell an event with its instances, as a VCALENDAR without METHOD does. Its
/// VEVENTs are those of the store, in their order, and say the same in the revision that was sent; each attendee occurs once, with the answer
/// that is seen of it. Required is what is required for a REQUEST; of any size they are a calendar with these VEVENTs.
pub fn shown_reads_back()
    ensures event { (read : List ℕ) (said : Message) (book : OrganiserBook) (stored : Stored) (octets : List ℕ)
        → SpellsMessage read said → said.method ≡ Store → stored.events ≡ said.events → stored.revision.sequence < 2 ^ 31
        → IsMeetingText None said.organiser said.uid stored.revision (ShowsSeen book stored) stored.events octets
        → is_too_long octets ≡ false → SpellsShown book stored octets }
    ensures calendar { (read : List ℕ) (said : Message) (book : OrganiserBook) (stored : Stored) (octets : List ℕ)
        → SpellsMessage read said → said.method ≡ Store → stored.events ≡ said.events → stored.revision.sequence < 2 ^ 31
        → IsMeetingText None said.organiser said.uid stored.revision (ShowsSeen book stored) stored.events octets
        → SpellsShownCalendar book stored octets }
{
    ical_lines::lines_read_back();
    cal_zones::zone_reads_back();
}
