//! What instances are on whatever clocks: a law, with nothing to do.

ghost use Rattle.std.specs.Prelude.{ℕ, List, [], ◌∷◌, Option, false, ◌≡◌, ◌↔◌};
ghost use Rattle.profile.specs.text.Trees.{Tree, vevents};
ghost use Rattle.profile.specs.checker.Instances.{Instance};
ghost use Rattle.profile.specs.series.Zones as zones;
ghost use Rattle.profile.specs.series.RoomZones.{IsRoomZone};
ghost use Rattle.profile.specs.events.Confirmed.{alone};
ghost use Rattle.profile.specs.events.EventComponents.{EventComponent as SaidComponent, Method as SaidMethod, may_lack_start, bars_recurrence};
ghost use Rattle.profile.specs.events.Events.{Event as SaidEvent, SaysEvent};
ghost use Rattle.profile.specs.events.Placed.{SaysPlaced};
ghost use Rattle.profile.specs.events.Starts.{IsInstance};
ghost use Rattle.profile.specs.doors.InstancesOnClocks.{IsClockInRoom, IsInstanceOn};

use crate::when::one_zoned_time;
use cal_rules::one_rule;
use ical_values::duration::one_duration;

/// The instances of a meeting that an object says in a room of a zone that words mean are those that its VEVENTs have on the clocks of the zones that a room
/// reads in it. So it is with an object without METHOD, with one that is stored, and with a REQUEST. And so it is with each VEVENT by itself that says its
/// start.
pub fn instances_are_on_clocks()
    ensures meeting { (words : List ℕ) (room : Option zones.Zone) (object : Tree) (method : Option SaidMethod) (meeting : SaidEvent) (instance : Instance)
        → IsRoomZone words room → may_lack_start method ≡ false → bars_recurrence method ≡ false → SaysEvent room object method meeting
        → IsInstance meeting instance ↔ IsInstanceOn (IsClockInRoom object) room (vevents object) instance }
    ensures alone { (words : List ℕ) (room : Option zones.Zone) (object : Tree) (method : Option SaidMethod) (lines : List (List ℕ)) (event : SaidComponent)
        (instance : Instance) → IsRoomZone words room → may_lack_start method ≡ false → SaysPlaced room object method lines event
        → IsInstance (alone event) instance ↔ IsInstanceOn (IsClockInRoom object) room (lines ∷ []) instance }
{
    one_zoned_time();
    one_duration();
    one_rule();
}
