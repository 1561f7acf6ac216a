//! Every schedule, whatever is lost, repeated, late or out of order.

ghost use Rattle.std.specs.Prelude.{◌≡◌, ℕ, ℤ, List};
ghost use Rattle.profile.specs.events.EventComponents.{Store};
ghost use Rattle.profile.specs.events.Messages.{Message, SpellsMessage};
ghost use Rattle.profile.specs.streams.Schedules.{KeptTextsHold, KeptTextsSpell, SeenIsBooked, ShownIsClear, ShownIsConfirmed};
ghost use Rattle.sched_laws.specs.Shown.{TextsAreCalendars};
ghost use Rattle.profile.specs.streams.Streams.{AreInZones, ZonedRoom};
ghost use Rattle.profile.specs.streams.Worlds.{Delivers, DeliversNothing, OrganiserSends, Plays, Step, StoresNothing, World, new_world};
ghost use Rattle.sched_laws.specs.Law.{Laws};

use cal_events::one_event;
use ical_tree::one_tree;
use itip_messages::{
    cancels_read_back, one_content, one_message, replies_are_heard, requests_read_back,
    shown_reads_back, stored_texts_can_be_sent,
};
use room_books::{answers_name_texts, kept_texts_pass, kept_texts_spell, runs_stay_clear};

/// Whatever organisers store, and whatever of the messages that were sent is delivered, to whom, how often and in which order: where an organiser
/// sees that a room has accepted, the part that the last REQUEST of the meeting has for that room is in its view and accepted (RFC 5546 2.1.4,
/// 3.2.3); what the texts of all meetings confirm for a room, read in its zone, the room has confirmed; so no two instances of these clash; and
/// the calendar of each room spells what it has confirmed, and its certificate holds for it.
pub fn schedules_hold()
    ensures booked { (rooms : List ZonedRoom) (organisers : List (List ℕ)) (steps : List Step) (world : World) → AreInZones rooms → Plays steps (new_world rooms organisers) world → SeenIsBooked world }
    ensures confirmed { (rooms : List ZonedRoom) (organisers : List (List ℕ)) (steps : List Step) (world : World) → AreInZones rooms → Plays steps (new_world rooms organisers) world → ShownIsConfirmed world }
    ensures read { (rooms : List ZonedRoom) (organisers : List (List ℕ)) (steps : List Step) (world : World) → AreInZones rooms → Plays steps (new_world rooms organisers) world → TextsAreCalendars world }
    ensures clear { (rooms : List ZonedRoom) (organisers : List (List ℕ)) (steps : List Step) (world : World) → AreInZones rooms → Plays steps (new_world rooms organisers) world → ShownIsClear world }
    ensures spells { (rooms : List ZonedRoom) (organisers : List (List ℕ)) (steps : List Step) (world : World) → AreInZones rooms → Plays steps (new_world rooms organisers) world → KeptTextsSpell world }
    ensures kept { (rooms : List ZonedRoom) (organisers : List (List ℕ)) (steps : List Step) (world : World) → AreInZones rooms → Plays steps (new_world rooms organisers) world → KeptTextsHold world }
{
    laws_below();
}

/// A step has an effect or none, never both: in a world that a schedule leads to, nothing that a host takes has a reason to change nothing.
pub fn effect_or_none()
    ensures delivered { (rooms : List ZonedRoom) (organisers : List (List ℕ)) (steps : List Step) (world after : World) (octets to : List ℕ) (moment : ℤ) (message : Message)
        → AreInZones rooms → Plays steps (new_world rooms organisers) world → SpellsMessage octets message → Delivers to moment message world after → DeliversNothing octets to world → ⊥ }
    ensures stored { (rooms : List ZonedRoom) (organisers : List (List ℕ)) (steps : List Step) (world after : World) (organiser object : List ℕ) (moment : ℤ) (message : Message)
        → AreInZones rooms → Plays steps (new_world rooms organisers) world → SpellsMessage object message → message.method ≡ Store
        → OrganiserSends organiser moment message world after → StoresNothing organiser object world → ⊥ }
{
    laws_below();
}

/// The laws of the crates below that these rest on.
fn laws_below()
    ensures { Laws }
{
    one_tree();
    one_event();
    one_message();
    one_content();
    stored_texts_can_be_sent();
    requests_read_back();
    cancels_read_back();
    replies_are_heard();
    shown_reads_back();
    runs_stay_clear();
    answers_name_texts();
    kept_texts_spell();
    kept_texts_pass();
}
