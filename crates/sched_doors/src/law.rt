//! When the meetings of an object that was made readable take place: a law, with nothing to do.

ghost use Rattle.std.specs.Prelude.{ℕ, List, Option, false, ◌≡◌, ◌↔◌};
ghost use Rattle.profile.specs.text.Trees.{Tree, vevents};
ghost use Rattle.profile.specs.checker.Instances.{Instance};
ghost use Rattle.profile.specs.series.RoomZones.{IsRoomZone};
ghost use Rattle.profile.specs.series.Zones.{Zone};
ghost use Rattle.profile.specs.events.EventComponents.{Method, may_lack_start, bars_recurrence};
ghost use Rattle.profile.specs.events.Events.{Event, SaysEvent};
ghost use Rattle.profile.specs.events.Starts.{IsInstance};
ghost use Rattle.profile.specs.doors.Adapting.{IsAdapted};
ghost use Rattle.profile.specs.doors.InstancesOnClocks.{IsClockAtDoor, IsInstanceOn};

use cal_doors::adapted_has_the_same_instances;
use cal_events::instances_are_on_clocks;

/// A meeting that an object says in a room after it was made readable takes place as it did before: its instances are those that the VEVENTs of the object as it
/// came have on the clocks that their names of zones mean at the door. A zone that is told to go on does so by its last rules, where its table ends. So it is with
/// an object without METHOD, with one that is stored, and with a REQUEST.
pub fn adapted_takes_place_as_before()
    ensures { (listed : Option Tree) (octets : List ℕ) (going_on : List (List ℕ)) (adapted : List ℕ) (a : IsAdapted listed octets going_on adapted)
        (words : List ℕ) (room : Option Zone) (method : Option Method) (meeting : Event) (instance : Instance)
        → IsRoomZone words room → may_lack_start method ≡ false → bars_recurrence method ≡ false → SaysEvent room a.after method meeting
        → IsInstance meeting instance ↔ IsInstanceOn (IsClockAtDoor listed a.before going_on) room (vevents a.before) instance }
{
    adapted_has_the_same_instances();
    instances_are_on_clocks();
}
