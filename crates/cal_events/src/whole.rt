//! What the instances of an event are when they are taken to their end.

ghost use Rattle.std.specs.Prelude.{ℕ, List, Option, Contains, ℤ, ◌≡◌, ◌↔◌, ◌+ℤ◌, ◌-ℤ◌, ◌≤ℤ◌};
ghost use Rattle.profile.specs.checker.Instances.{Instance};
ghost use Rattle.profile.specs.series.Zones as zones;
ghost use Rattle.profile.specs.series.RoomZones.{IsRoomZone};
ghost use Rattle.profile.specs.events.Events.{Event as SaidEvent, SpellsEvent};
ghost use Rattle.profile.specs.events.Spans.{IsSaidSeries, IsWidthOf};
ghost use Rattle.profile.specs.events.Starts.{IsInstance, AreInstancesFrom};
ghost use Rattle.cal_events.specs.Whole.{GivesAll};
ghost use Rattle.cal_events.specs.Left.{IsLeft};
ghost use Rattle.cal_events.specs.Event.{AreAlike, said_meeting};
ghost use Rattle.cal_events.specs.Series.{series_said, AreKnownByStart};
ghost use Rattle.cal_events.specs.declared.instances.Instances.{Instances};
ghost use Rattle.cal_events.specs.declared.series.Series.{Series};

use crate::event::one_instance;
use cal_zones::zones_repeat;

/// `Series::starts` gives all starts of a series at an instant or later, ascending, each once, if it is taken to its end.
pub fn all_starts()
    ensures { (series : Series) (from : ℤ) (instances : Instances) (all : List Instance) → said_meeting instances.event.now ≡ series_said series
        → ((b : Instance) → IsLeft instances b ↔ (IsInstance (series_said series) b × (from ≤ℤ b.start)))
        → GivesAll instances all → AreInstancesFrom (series_said series) from all }
{}

/// The instances of a series are known by their starts.
pub fn known_by_start()
    ensures { (series : Series) → AreKnownByStart (series_said series) }
{}

/// Of each series some VEVENT says the times and the rule.
pub fn series_are_said()
    ensures { (series : Series) → ∥ IsSaidSeries (series_said series) ∥₁ }
{}

/// Whose times and rule some VEVENT says, of that series no instance ends before it starts, and each lasts about as long as its width: no longer,
/// and a third of that at least. Its days are nominal, so they differ from theirs by half a day at most.
pub fn instances_last()
    ensures said { (series : SaidEvent) (width : ℤ) (b : Instance) → IsSaidSeries series → IsWidthOf series width → IsInstance series b
        → (b.start ≤ℤ b.end) × (b.end ≤ℤ (b.start +ℤ width)) }
    ensures said_third { (series : SaidEvent) (width : ℤ) (b : Instance) → IsSaidSeries series → IsWidthOf series width → IsInstance series b
        → width ≤ℤ ((b.end -ℤ b.start) +ℤ ((b.end -ℤ b.start) +ℤ (b.end -ℤ b.start))) }
    ensures series { (series : Series) (width : ℤ) (b : Instance) → IsWidthOf (series_said series) width → IsInstance (series_said series) b
        → (b.start ≤ℤ b.end) × (b.end ≤ℤ (b.start +ℤ width)) }
    ensures series_third { (series : Series) (width : ℤ) (b : Instance) → IsWidthOf (series_said series) width → IsInstance (series_said series) b
        → width ≤ℤ ((b.end -ℤ b.start) +ℤ ((b.end -ℤ b.start) +ℤ (b.end -ℤ b.start))) }
{
    zones_repeat();
}

/// All instances of a series are the elements of some list: they start before year 10000.
pub fn listed_series()
    ensures { (series : Series) → (all : List Instance) × ((b : Instance) → Contains all b ↔ IsInstance (series_said series) b) }
{}

/// Of an event that octets spell in a room of a zone that words mean, `Event::instances` gives all instances that start at an instant or later, by start and then by slot, each
/// once, if it is taken to its end.
pub fn all_instances()
    ensures { (words : List ℕ) (room : Option zones.Zone) (octets : List ℕ) (from : ℤ) (meeting : SaidEvent) (instances : Instances) (all : List Instance)
        → IsRoomZone words room → SpellsEvent room octets meeting → AreAlike (said_meeting instances.event.now) meeting
        → ((b : Instance) → IsLeft instances b ↔ (IsInstance (said_meeting instances.event.now) b × (from ≤ℤ b.start)))
        → GivesAll instances all → AreInstancesFrom meeting from all }
{
    one_instance();
}
