//! The clocks of a zone, and a span of local times about the last one that they were asked for.

ghost use Rattle.std.specs.Prelude.{FitsSigned};
ghost use Rattle.std.specs.Int.{w64};
ghost use Rattle.profile.specs.text.Values.{IsOffset};
ghost use Rattle.cal_zones.specs.Kinds.{zone_of};
ghost use Rattle.cal_zones.specs.Spans.{IsSpan};

use crate::zone::Zone;
use ical_values::LocalTime;

/// The clocks of a zone. They remember a span of local times up to an onset, in which an instant is the local time less
/// one offset: the days of a series that follow each other are mostly in one.
#[derive(Clone, Copy)]
pub struct Clock {
    zone: Zone,
    /// The first local time of the span, in seconds from 1970-01-01T00:00:00 on the same clock.
    from: i64,
    /// The end of the span, which isn't in it.
    to: i64,
    /// In seconds.
    offset: i32,
    ghost span: { IsSpan (zone_of zone) from to offset },
    ghost range: { IsOffset offset },
    ghost width: { FitsSigned w64 from × FitsSigned w64 to },
}

impl Clock {
    ghost use Rattle.std.specs.Prelude.{◌≡◌, IfSome};
    ghost use Rattle.profile.specs.series.Zones.{Means, IsNearEpoch};

    /// The clocks of that zone, which remember nothing yet.
    pub fn of(zone: Zone) -> Clock
        ensures { result.zone ≡ zone }
    {
        Clock {
            zone,
            from: 0,
            to: 0,
            offset: 0,
        }
    }

    /// Their zone.
    pub fn zone(&self) -> Zone
        ensures { result ≡ self.now.zone }
    {
        self.zone
    }

    /// The instant that a local time means, as `Zone::resolve` has it: the first of two where the clocks show it twice; where
    /// they skip it, what it means with the offset before they were set. In the span that is remembered no onset is computed.
    pub fn resolve(&mut self, local: LocalTime) -> i64
        ensures meaning { Means (zone_of self.old.zone) local result }
        ensures range { IsNearEpoch result }
        ensures zone { self.new.zone ≡ self.old.zone }
    {
        if let Some(instant) = self.remembered(local) {
            return instant;
        }
        *self = Clock::starting(self.zone, local);
        if let Some(instant) = self.remembered(local) {
            return instant;
        }
        // An onset is near.
        self.zone.resolve(local)
    }

    /// The instant that a local time of the span means. None for another.
    fn remembered(&self, local: LocalTime) -> Option<i64>
        ensures meaning { IfSome result (λ instant. Means (zone_of self.now.zone) local instant) }
        ensures range { IfSome result IsNearEpoch }
    {
        let seconds = local.seconds();
        if seconds < self.from || seconds >= self.to {
            return None;
        }
        Some(seconds - self.offset as i64)
    }

    /// The clocks of that zone with the span from a local time on, up to the next onset. It is empty where one is near.
    fn starting(zone: Zone, local: LocalTime) -> Clock
        ensures { result.zone ≡ zone }
    {
        let from = local.seconds();
        let (_, greatest) = zone.ends();
        // No clock of the zone shows it earlier.
        let earliest = from - greatest as i64;
        let offset = zone.offset(earliest);
        let to = zone.quiet_until(earliest).saturating_add(offset as i64);
        Clock {
            zone,
            from,
            to,
            offset,
        }
    }
}
