//! The zone of its room is named in a calendar that names none: a line X-ROOM-ZONE is put after that of its BEGIN, and all other octets stay as
//! they are.
ghost use Rattle.ical_tree.specs.Own.{own_lines, own_numbered};
ghost use Rattle.cal_events.specs.Blame.{IsZoneLine};
ghost use Rattle.std.specs.Prelude.{ℕ, List, Option, [], ◌≡◌, ◌≤◌, ◌++◌, codes, length, take, drop, IfOk, IfErr};
ghost use Rattle.ical_lines.specs.Fault.{RefusesOnly, RefusesBy};
ghost use Rattle.ical_lines.specs.FirstLine.{EndsFirstLine};
ghost use Rattle.profile.specs.faults.Faults.{is_calendar_fault};
ghost use Rattle.profile.specs.series.Zones.{Zone};
ghost use Rattle.profile.specs.series.RoomZones.{IsRoomZone};
ghost use Rattle.profile.specs.events.Properties.{lines_named};
ghost use Rattle.profile.specs.events.Confirmed.{Confirmed};
ghost use Rattle.profile.specs.checker.Calendars.{IsWithZone, AreAllFixed, SpellsCalendar, CertificateHolds};
ghost use Rattle.cal_zones.specs.RoomZones.{words_of};
ghost use Rattle.cal_events.specs.WithZone.{NamesNoZone, HasZoneLine, WithZoneFault};

use crate::calendar::Calendar;
use cal_zones::RoomZone;
use ical_lines::{Fault, Limits, Refusal, Unfolded, first_line_end};
use ical_tree::{Object, Properties, one_tree};
use std::alloc::{AllocError, Global};

impl Calendar {
    /// The octets of a calendar with the zone of its room, named by a line after that of its BEGIN. Other octets stay as they are.
    /// Refused: 1 to 5 and 20 to 24 for the object; 44 where it names a zone already.
    pub fn with_zone(alloc: Global, bytes: &[u8], room: &RoomZone) -> Result<Vec<u8>, Fault>
        ensures named { IfOk result (λ octets. IsWithZone (words_of room.now) bytes.now octets.items) }
        ensures unnamed { IfOk result (λ _. NamesNoZone bytes.now) }
        ensures refuses { IfErr result (RefusesOnly is_calendar_fault) }
        ensures fault { IfErr result (RefusesBy (WithZoneFault bytes.now)) }
    {
        let end = zone_place(alloc, bytes)?;
        room.words_mean();
        let words = room.words(alloc)?;
        let octets = put_words(alloc, bytes, end, words.as_str())?;
        Ok(octets)
    }
}

/// After how many octets the line goes.
/// Refused: as by `Calendar::with_zone`.
fn zone_place(alloc: Global, bytes: &[u8]) -> Result<usize, Fault>
    ensures place { IfOk result (EndsFirstLine bytes.now) }
    ensures unnamed { IfOk result (λ _. NamesNoZone bytes.now) }
    ensures refuses { IfErr result (RefusesOnly is_calendar_fault) }
    ensures fault { IfErr result (RefusesBy (WithZoneFault bytes.now)) }
{
    one_tree();
    let text = Unfolded::read(alloc, bytes, Limits::Open)?;
    let object = Object::read(alloc, &text, Limits::Open)?;
    judge_unnamed(&object.own)?;
    let Some(end) = first_line_end(bytes) else {
        // An object has two lines or more.
        unreachable!();
    };
    Ok(end)
}

/// Refused with 44 where an own line of a calendar names the zone of its room.
fn judge_unnamed(properties: &Properties<'_>) -> Result<(), Refusal>
    ensures unnamed { IfOk result (λ _. lines_named (codes "X-ROOM-ZONE") (own_lines properties.now) ≡ []) }
    ensures fault { IfErr result (λ e. (e.number ≡ 44) × HasZoneLine (own_lines properties.now)) }
    ensures at { IfErr result (λ e. IsZoneLine (own_numbered properties.now) e.line) }
{
    match properties.optional("X-ROOM-ZONE", Refusal::ROOM_ZONE)? {
        Some(line) => Err(Refusal::ROOM_ZONE.at(line.number())),
        None => Ok(()),
    }
}

/// The octets with the line of these words after so many of them.
fn put_words(alloc: Global, bytes: &[u8], end: usize, words: &str) -> Result<Vec<u8>, AllocError>
    requires { end ≤ length bytes.now }
    ensures { IfOk result (λ octets. octets.items ≡ take end bytes.now ++ (codes "X-ROOM-ZONE:" ++ words.now ++ codes "\r\n") ++ drop end bytes.now) }
{
    let mut octets = Vec::new(alloc);
    octets.extend_from_slice(&bytes[..end])?;
    octets.extend_from_slice(b"X-ROOM-ZONE:")?;
    octets.extend_from_slice(words.as_bytes())?;
    octets.extend_from_slice(b"\r\n")?;
    octets.extend_from_slice(&bytes[end..])?;
    Ok(octets)
}

/// A calendar that names no zone of its room, and whose times are all fixed, says the same once it names one: what is confirmed stays as it is,
/// and so does each certificate.
pub fn zone_named_keeps()
    ensures spells { (words octets with_zone room : List ℕ) (zone : Option Zone) (confirmed : Confirmed)
        → IsRoomZone words zone → IsWithZone words octets with_zone → NamesNoZone octets → AreAllFixed octets
        → SpellsCalendar room octets confirmed → SpellsCalendar room with_zone confirmed }
    ensures holds { (words octets with_zone room text : List ℕ) (zone : Option Zone)
        → IsRoomZone words zone → IsWithZone words octets with_zone → NamesNoZone octets → AreAllFixed octets
        → CertificateHolds room octets text → CertificateHolds room with_zone text }
{}
