//! What zones in general are the same as, and what an object that was made readable says: laws, with nothing to do.

ghost use Rattle.std.specs.Prelude.{◌≡◌, ◌↔◌, ◌⊎◌, ◌<◌, ◌++◌, ◌∷◌, ℕ, ℤ, pos, ◌-ℤ◌, ◌≤ℤ◌, Bool, true, false, List, Option, None, Contains};
ghost use Rattle.std.specs.List.{list_any};
ghost use Rattle.std.specs.Str.{bytes_eq};
ghost use Rattle.profile.specs.text.Trees.{Tree, vevents};
ghost use Rattle.profile.specs.checker.Instances.{Instance};
ghost use Rattle.profile.specs.series.Rules.{Rule, RuleText};
ghost use Rattle.profile.specs.series.Zones.{Zone, Observance, Single, Pair, Means, Shows, local_time};
ghost use Rattle.profile.specs.series.GeneralZones as general;
ghost use Rattle.profile.specs.series.GeneralZoneTexts.{IsRunAt, SaysGeneralZone, GeneralZoneFault};
ghost use Rattle.profile.specs.series.RoomZones.{IsRoomZone};
ghost use Rattle.profile.specs.events.Properties.{Fixed};
ghost use Rattle.profile.specs.events.ZonedTimes.{EventTimes, SaysEventTimes, clock_of};
ghost use Rattle.profile.specs.events.EventRules.{GivesRule};
ghost use Rattle.profile.specs.events.EventComponents.{EventComponent, Method, SaysEventComponent};
ghost use Rattle.profile.specs.events.Placed.{IsPlaced};
ghost use Rattle.profile.specs.events.Starts.{IsRuleStart, IsGiven, IsDaysLater};
ghost use Rattle.profile.specs.doors.OnClocks.{GivesRuleOn, IsRuleStartOn, IsDaysLaterOn, MayStart};
ghost use Rattle.profile.specs.doors.InstancesOnClocks.{IsClockAtDoor, IsClockInRoom, IsInstanceOn};
ghost use Rattle.profile.specs.doors.Uses.{IsLineIn};
ghost use Rattle.profile.specs.doors.Adapting.{EndsBefore, IsAdapted, IsSameFor, TakesPlace};
ghost use Rattle.cal_doors.specs.After.{IsGeneral, AreSameZones};
ghost use Rattle.cal_doors.specs.Laws.{AgreeFrom, SaysTheSame, SaysTheSameUpTo};

use cal_rules::one_rule;
use cal_zones::one_zone;
use ical_values::local_time::one_local_time;
use ical_values::offset::one_offset;

/// The same offset is in force, and local times mean the same, in a zone of one observance or of two and in the zone in general of its runs.
pub fn zones_are_general()
    ensures single { (a : Observance) → IsGeneral (Single a) }
    ensures pair { (a b : Observance) → IsGeneral (Pair a b) }
{}

/// An RDATE at the local time of a DTSTART without RRULE adds no onset: with its run and without it the same offset is in force, and local
/// times mean the same. So it needn't be left out.
pub fn date_at_start_adds_nothing()
    ensures { (o : Observance) (again : general.Run) (before after : List general.Run) → o.rule ≡ None → o.second < 86_400
        → IsRunAt o (local_time o.day o.second) again → Contains (before ++ after) (record { observance = o; end = general.Never })
        → AreSameZones (before ++ again ∷ after) (before ++ after) }
{}

/// A VTIMEZONE says at most one zone in general, and none where it has a fault. With the contract of `GeneralZone::read`: what is read is the one zone that it
/// says, and what is refused says none.
pub fn one_general_zone()
    ensures one { (t : Tree) (a b : List general.Run) → SaysGeneralZone t a → SaysGeneralZone t b → a ≡ b }
    ensures or_a_fault { (t : Tree) (a : List general.Run) (n : ℕ) → SaysGeneralZone t a → GeneralZoneFault t n → ⊥ }
{
    one_rule();
    one_local_time();
    one_offset();
}

/// Each VEVENT of an object that was made readable says the same as before by its times in each zone that isn't told to go on beyond what is stated: each
/// local time that it names there means the same instant, its rule has the same days and the same starts, and nominal days end at the same instant. The
/// rule of one before 1970, which a room refuses, is left aside. In a zone that is told to go on it says the same up to the end of what is stated before
/// 2038-01-19T03:14:07Z, which is in 2036 or later, and always the same as by the zone that goes on there by its last rules.
pub fn adapted_says_the_same()
    ensures exact { (listed : Option Tree) (octets : List ℕ) (going_on : List (List ℕ)) (adapted : List ℕ) (a : IsAdapted listed octets going_on adapted)
        (name : List ℕ) (lines : List (List ℕ)) (line : List ℕ) → Contains (vevents a.before) lines → IsLineIn name lines line
        → list_any (bytes_eq name) going_on ≡ false → SaysTheSame listed a.before a.after name lines }
    ensures further { (listed : Option Tree) (octets : List ℕ) (going_on : List (List ℕ)) (adapted : List ℕ) (a : IsAdapted listed octets going_on adapted)
        (name : List ℕ) (lines : List (List ℕ)) (line : List ℕ) → Contains (vevents a.before) lines → IsLineIn name lines line
        → list_any (bytes_eq name) going_on ≡ true → SaysTheSameUpTo listed a.before a.after name lines }
{}

/// An object that was made readable has the same instances as before: those that its VEVENTs have on the clocks that their names of zones mean at the door,
/// they have on those of the zones that a room reads in it. A zone that is told to go on does so here by its last rules, where its table ends. So it is with
/// a meeting of any of its VEVENTs, which are as they came.
pub fn adapted_has_the_same_instances()
    ensures instances { (listed : Option Tree) (octets : List ℕ) (going_on : List (List ℕ)) (adapted : List ℕ) (a : IsAdapted listed octets going_on adapted)
        (words : List ℕ) (room : Option Zone) → IsRoomZone words room → (events : List (List (List ℕ)))
        → ((lines : List (List ℕ)) → Contains events lines → Contains (vevents a.before) lines) → (instance : Instance)
        → IsInstanceOn (IsClockAtDoor listed a.before going_on) room events instance ↔ IsInstanceOn (IsClockInRoom a.after) room events instance }
    ensures events { (listed : Option Tree) (octets : List ℕ) (going_on : List (List ℕ)) (adapted : List ℕ) (a : IsAdapted listed octets going_on adapted)
        → vevents a.after ≡ vevents a.before }
{
    one_rule();
    one_zone();
    one_general_zone();
}

/// A VTIMEZONE whose table ends in 2036 or later, with no rule that goes on without an end, is told to go on wherever times don't end. And where one VTIMEZONE is told to
/// go on in two objects, the two have the same offsets from the later of their first times on, and each local time means the same.
pub fn tables_go_on_alike()
    ensures told { (zone : List general.Run) (other : Zone) (goes_on : Bool) (first : ℤ) → EndsBefore zone None → IsSameFor zone other goes_on first None → goes_on ≡ true }
    ensures alike { (listed : Option Tree) (object another : Tree) (name named : List ℕ) (one other : Zone)
        (a : TakesPlace listed object name true one) (b : TakesPlace listed another named true other) (from : ℤ)
        → a.meant ≡ b.meant → a.first ≤ℤ from → b.first ≤ℤ from → AgreeFrom one other (from -ℤ pos 86_399) }
{
    one_general_zone();
}

/// On the clocks of a zone that a room reads, a rule, its starts and nominal days are what the room makes of them.
pub fn zones_are_clocks()
    ensures rules { (zone : Zone) (local : ℤ) (text : RuleText) (rule : Rule) → GivesRule zone local text rule ↔ GivesRuleOn (Means zone) local text rule }
    ensures starts { (times : EventTimes) (rule : Rule) (t : ℤ) → IsRuleStart times rule t ↔ IsRuleStartOn (Means (clock_of times.zone)) times.local rule t }
    ensures days { (zone : Zone) (days : ℕ) (t later : ℤ) → IsDaysLater Fixed zone days t later ↔ IsDaysLaterOn (Means zone) (Shows zone) days t later }
{}

/// Each start that a room makes of a VEVENT whose DTSTART is fixed is one that its lines let it have on the clocks of its zone: so nominal days from
/// each of them end at the same instant in an object that was made readable.
pub fn starts_are_known()
    ensures { (words : List ℕ) (room : Option Zone) (object : Tree) (method : Option Method) (lines : List (List ℕ)) (event placed : EventComponent) (t : ℤ)
        → IsRoomZone words room → SaysEventComponent object method lines event → SaysEventTimes object lines event.times → event.times.form ≡ Fixed
        → IsPlaced room event placed → IsGiven placed.times placed.rule t ⊎ Contains placed.additions t
        → MayStart (Means (clock_of event.times.zone)) lines event.times.local t }
{}
