//! What holds of each room, whatever it takes: laws, with nothing to do.

ghost use Rattle.std.specs.Prelude.{◌≡◌, ◌↔◌, ℕ, ℤ, List, Option, length, Contains};
ghost use Rattle.profile.specs.checker.Instances.{Instance, IsClear};
ghost use Rattle.profile.specs.events.Confirmed.{Confirmed, IsOneOf};
ghost use Rattle.profile.specs.series.RoomZones.{IsRoomZone};
ghost use Rattle.profile.specs.series.Zones.{Zone};
ghost use Rattle.profile.specs.rooms.Messages.{Outcome};
ghost use Rattle.profile.specs.rooms.Rooms.{PartAnswer, Book, Claim, Delivery, IsStep, Runs, empty_book, kind_of, IsWithinLimits, Confirms, confirmed_series, confirmed_singles};
ghost use Rattle.profile.specs.streams.Streams.{AreInZones, IsDelivered, IsReached, AllAnswers, Box, Hosted, Config, new_box};
ghost use Rattle.profile.specs.rooms.Kept.{IsKeptCalendar, IsKeptCertificate};
ghost use Rattle.profile.specs.checker.Calendars.{CalendarTextFault, CertificateHolds, SpellsCalendar};
ghost use Rattle.profile.specs.checker.Naming.{IsOfOthers, IsOfRoom};
ghost use Rattle.profile.specs.Headline.{AcceptedWhereClear, DeclineNamesClash};
ghost use Rattle.itip_messages.specs.Law.{AreTextAnswers};

use cal_events::{one_calendar_text, one_event};
use ical_tree::one_tree;
use ical_values::stamp::one_stamp;

/// Whatever messages a room took, one after another from the first: no two of its confirmed instances of
/// different keys hold the room in the same second, and its series and its single instances are within their limits.
pub fn runs_stay_clear()
    ensures clear { (deliveries : List Delivery) (book : Book) → Runs empty_book deliveries book → IsClear (Confirms book) }
    ensures few { (deliveries : List Delivery) (book : Book) → Runs empty_book deliveries book → IsWithinLimits book }
{}

/// An answer is final. Whatever a room takes later, the answer stays; and no part is answered twice. So where the same
/// octets are answered again, it is with the answer that they got.
pub fn answers_stay()
    ensures stays { (before after : Book) (deliveries : List Delivery) → Runs before deliveries after
        → (answer : PartAnswer) → Contains before.answers answer → Contains after.answers answer }
    ensures once { (room : List ℕ) (zone : Option Zone) (deliveries : List Delivery) (book : Book)
        → ((taken : Delivery) → Contains deliveries taken → IsDelivered room zone taken) → Runs empty_book deliveries book
        → (a b : PartAnswer) → Contains book.answers a → Contains book.answers b → a.claim.part ≡ b.claim.part → a ≡ b }
{}

/// A new revision is accepted exactly where no two of the instances that would be confirmed with it hold the room in the same second,
/// and the limits are kept; and a decline for a clash names two of them and a second in both.
pub fn accepted_where_clear()
    ensures accepted { (before : Book) (claims : List Claim) (moment : ℤ) (outcome : Outcome) (after : Book) → IsStep before claims moment outcome after
        → AcceptedWhereClear before claims moment (kind_of before.taken after.taken claims outcome) }
    ensures declined { (before : Book) (claims : List Claim) (moment : ℤ) (outcome : Outcome) (after : Book) → IsStep before claims moment outcome after
        → DeclineNamesClash before claims moment (kind_of before.taken after.taken claims outcome) }
{}

/// The instances that a decline names have keys in UTF-8, whatever messages the room took: each organiser and UID in a
/// book comes from octets that were read (RFC 5545 3.1.4).
pub fn answers_name_texts()
    ensures { (room : List ℕ) (zone : Option Zone) (book : Book) → IsReached room zone book → AreTextAnswers book }
{}

/// Whatever messages come, in any order and repeated: the calendar that a room keeps after them spells what it has
/// confirmed, and the certificate that is made for it holds for it. The room is in a zone that words mean, and the calendar names it by them.
pub fn kept_texts_pass()
    ensures { (room words : List ℕ) (zone : Option Zone) (book : Book) (calendar : List ℕ) → IsRoomZone words zone → IsReached room zone book
        → IsKeptCalendar room words book calendar → (certificate : List ℕ) → IsKeptCertificate room calendar certificate → CertificateHolds room calendar certificate }
{
    one_calendar_text();
    ical_lines::lines_read_back();
    cal_zones::zone_reads_back();
}

/// A book to which messages led has one kept calendar: two texts that are that are equal.
pub fn one_kept_calendar()
    ensures { (room words : List ℕ) (zone : Option Zone) (book : Book) (x y : List ℕ) → IsReached room zone book
        → IsKeptCalendar room words book x → IsKeptCalendar room words book y → x ≡ y }
{
    one_stamp();
}

/// The kept calendar of a room spells exactly what the room has confirmed: as many singles, as many series, and the same instances.
pub fn kept_texts_spell()
    ensures { (room words : List ℕ) (zone : Option Zone) (deliveries : List Delivery) (book : Book) (text : List ℕ) → IsRoomZone words zone
        → ((taken : Delivery) → Contains deliveries taken → IsDelivered room zone taken) → Runs empty_book deliveries book
        → IsKeptCalendar room words book text
        → (all : Confirmed) × SpellsCalendar room text all
        × (length all.singles ≡ length (confirmed_singles book)) × (length all.series ≡ length (confirmed_series book))
        × ((booked : Instance) → IsOneOf all booked ↔ Confirms book booked) }
{
    ical_lines::lines_read_back();
    cal_zones::zone_reads_back();
}

/// `agenda` never refuses the kept calendar of a room, and counts nothing in it: an event of it names the room, or there is none; and each event
/// that names the room is accepted or cancelled.
pub fn kept_calendar_is_of_room()
    ensures is { (room words : List ℕ) (zone : Option Zone) (book : Book) (calendar : List ℕ) → IsRoomZone words zone → IsReached room zone book
        → IsKeptCalendar room words book calendar → IsOfRoom room calendar 0 }
    ensures not_others { (room words : List ℕ) (zone : Option Zone) (book : Book) (calendar : List ℕ) → IsRoomZone words zone → IsReached room zone book
        → IsKeptCalendar room words book calendar → IsOfOthers room calendar → ⊥ }
    ensures reads { (room words : List ℕ) (zone : Option Zone) (book : Book) (calendar : List ℕ) → IsRoomZone words zone → IsReached room zone book
        → IsKeptCalendar room words book calendar → (n : ℕ) → CalendarTextFault calendar n → ⊥ }
{
    one_tree();
    one_event();
    one_calendar_text();
    ical_lines::lines_read_back();
    cal_zones::zone_reads_back();
}

/// Whatever objects a stream has, taken or refused, one after another from the first: what each of the rooms keeps after
/// them passes likewise.
pub fn served_texts_pass()
    ensures { (moment : ℤ) (hosts : Config) (first : ℕ) (objects : List (List ℕ)) (after : Box) (answers : List ℕ) (refused : ℕ)
        → AreInZones hosts.rooms → AllAnswers moment first objects (new_box hosts) after answers refused
        → (room : Hosted) → Contains after.rooms room
        → (kept : List ℕ) → IsKeptCalendar room.address room.words room.book kept
        → (certificate : List ℕ) → IsKeptCertificate room.address kept certificate → CertificateHolds room.address kept certificate }
{
    one_calendar_text();
    ical_lines::lines_read_back();
    cal_zones::zone_reads_back();
}
