//! What the clocks of a zone do again after each of its periods: a law, with nothing to do.

ghost use Rattle.std.specs.Prelude.{List, ℕ, ℤ, Some};
ghost use Rattle.profile.specs.text.Trees.{Tree};
ghost use Rattle.profile.specs.series.Zones as zones;
ghost use Rattle.profile.specs.series.ZoneTexts.{SaysZone};
ghost use Rattle.profile.specs.series.RoomZones.{IsRoomZone};
ghost use Rattle.profile.specs.events.Spans.{IsPastOnsets, IsZonePeriod};
ghost use Rattle.cal_zones.specs.Kinds.{zone_of};
ghost use Rattle.cal_zones.specs.Repeats.{IsRegular, ZoneRepeats, AreOffsetsOf};
ghost use Rattle.cal_zones.specs.declared.zone.Zone.{Zone};

use cal_rules::base_days_repeat;

/// Each zone that a VTIMEZONE says, one that the words of a room mean, that of UTC, and each `Zone`, does the same again after each of its periods, from an instant on that is more than
/// half a day past the first onset of each observance. Its offsets are half a day apart at most.
pub fn zones_repeat()
    ensures said { (tree : Tree) (z : zones.Zone) → SaysZone tree z → IsRegular z }
    ensures named { (words : List ℕ) (z : zones.Zone) → IsRoomZone words (Some z) → IsRegular z }
    ensures kept { (zone : Zone) → IsRegular (zone_of zone) }
    ensures repeat { (z : zones.Zone) (from : ℤ) (days : ℕ) → IsRegular z → IsPastOnsets z from → IsZonePeriod z days → ZoneRepeats z from days }
    ensures bounds { (z : zones.Zone) → IsRegular z → (least : ℤ) × (greatest : ℤ) × AreOffsetsOf z least greatest }
{
    base_days_repeat();
}
