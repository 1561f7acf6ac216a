//! A zone in general, and the zone of the accepted form that it is from an instant on.

use crate::after::{offset_at, still_after, zone_after};
use crate::between::{ending, going_on, has_begun, has_end, table_end};
use crate::read::read_runs;
use crate::run::Run;
use cal_zones::Zone;
use ical_lines::Fault;
use ical_tree::Component;
use std::alloc::{AllocError, Global};

/// A zone in general: runs of onsets.
#[derive(Drop)]
pub struct GeneralZone {
    pub(crate) runs: Vec<Run>,
}

impl GeneralZone {
    ghost use Rattle.std.specs.Prelude.{◌≡◌, true, false, IfSome, IfNone, IfOk, IfErr};
    ghost use Rattle.ical_lines.specs.Fault.{RefusesBy};
    ghost use Rattle.ical_tree.specs.Tree.{tree_of};
    ghost use Rattle.profile.specs.series.GeneralZoneTexts.{SaysGeneralZone, GeneralZoneFault};
    ghost use Rattle.profile.specs.series.GeneralZones.{IsSameFrom, IsSameBetween};
    ghost use Rattle.profile.specs.doors.Adapting.{EndsBefore, IsTableEnd, ReachesTablesEnd, SetsBack};
    ghost use Rattle.cal_doors.specs.Between.{GoesOnFrom};
    ghost use Rattle.cal_zones.specs.Kinds.{zone_of};
    ghost use Rattle.cal_doors.specs.Runs.{runs_in};
    ghost use Rattle.cal_doors.specs.Found.{general_of};

    /// The zone of those runs.
    pub fn of(runs: Vec<Run>) -> GeneralZone
        ensures { general_of result ≡ runs_in runs.items }
    {
        GeneralZone { runs }
    }

    /// The zone that a VTIMEZONE says: the runs of its parts, in their order (RFC 5545 3.6.5). Refused with 11 where a DTSTART is no local time,
    /// with 13 where an offset is none; else with 40: where there is no part, where DTSTART, TZOFFSETFROM or TZOFFSETTO is missing or occurs
    /// twice, where DTSTART is in UTC or in a zone, where an RDATE isn't of local times, and where RRULE occurs twice, is ended by a date, or isn't of
    /// one day a year and UNTIL doesn't end it within 40 years of DTSTART or it has more than 200 days. Fails also when out of memory.
    pub fn read(alloc: Global, zone: &Component) -> Result<GeneralZone, Fault>
        ensures says { IfOk result (λ z. SaysGeneralZone (tree_of zone.now) (general_of z)) }
        ensures fault { IfErr result (RefusesBy (GeneralZoneFault (tree_of zone.now))) }
    {
        let runs = read_runs(alloc, zone)?;
        Ok(GeneralZone { runs })
    }

    /// The zone of the accepted form that does the same from an instant on: the same offset is in force at each instant, and each local time that no
    /// clock shows before it means the same. None where none is found. It is one offset where each onset after the instant
    /// sets the one that is in force already, a single where one comes, and a pair where all that come are those of two endless rules: STANDARD is then the one
    /// that sets the clocks back.
    pub fn from_instant(&self, instant: i64) -> Option<Zone>
        ensures same { IfSome result (λ zone. IsSameFrom (general_of self.now) (zone_of zone) instant) }
        ensures sides { IfSome result (λ zone. SetsBack (zone_of zone)) }
    {
        let runs = self.runs.as_slice();
        let offset = offset_at(runs, instant)?;
        if let Some(zone) = still_after(runs, instant, offset) {
            return Some(zone);
        }
        let zone = zone_after(runs, instant)?;
        if zone.offset(instant) != offset {
            return None;
        }
        // Only for the proof: one offset is in force in it, and none is a day or more.
        zone.one_meaning();
        let _ = zone.offsets();
        Some(zone)
    }

    /// The zone of the accepted form that does the same from an instant to another, where an onset comes up to the first: the same offset is in
    /// force at each instant between, and each local time means the same that is shown neither before the one nor after the other. None
    /// where none is found: runs that would set nothing more up to the later instant go on after it, or else all end with it.
    pub fn between(&self, alloc: Global, from: i64, to: i64) -> Result<Option<Zone>, AllocError>
        ensures same { IfOk result (λ found. IfSome found (λ zone. IsSameBetween (general_of self.now) (zone_of zone) from to)) }
        ensures sides { IfOk result (λ found. IfSome found (λ zone. SetsBack (zone_of zone))) }
    {
        if let Some(zone) = self.beyond(alloc, from, to)? {
            return Ok(Some(zone));
        }
        self.within(alloc, from, to)
    }

    /// The same zone, where runs that would set nothing more up to the later instant go on after it: then it always does the same from the first
    /// instant on as the zone that goes on so.
    pub(crate) fn beyond(
        &self,
        alloc: Global,
        from: i64,
        to: i64,
    ) -> Result<Option<Zone>, AllocError>
        ensures { IfOk result (λ found. IfSome found (λ zone. GoesOnFrom (general_of self.now) (zone_of zone) from to)) }
    {
        let runs = self.runs.as_slice();
        if !has_begun(runs, from) {
            return Ok(None);
        }
        let longer = GeneralZone::of(going_on(alloc, runs, to)?);
        Ok(longer.from_instant(from))
    }

    /// The same zone, where all runs end with the later instant.
    fn within(&self, alloc: Global, from: i64, to: i64) -> Result<Option<Zone>, AllocError>
        ensures same { IfOk result (λ found. IfSome found (λ zone. IsSameBetween (general_of self.now) (zone_of zone) from to)) }
        ensures sides { IfOk result (λ found. IfSome found (λ zone. SetsBack (zone_of zone))) }
    {
        let runs = self.runs.as_slice();
        if !has_begun(runs, from) {
            return Ok(None);
        }
        let shorter = GeneralZone::of(ending(alloc, runs, to)?);
        Ok(shorter.from_instant(from))
    }

    /// Where its table ends, in seconds from 1970-01-01T00:00:00Z: at the last instant before 2038-01-19T03:14:07Z, the end of times in 32 bits, at which
    /// an onset or the UNTIL of a rule is, if one is in 2036 or later. COUNT is left aside, but that it reaches 2036 isn't known by onsets that
    /// are counted. None where the table doesn't reach 2036 so.
    pub fn table_end(&self) -> Option<i64>
        ensures end { IfSome result (IsTableEnd (general_of self.now)) }
        ensures none { IfNone result (ReachesTablesEnd (general_of self.now) → ⊥) }
    {
        table_end(self.runs.as_slice())
    }

    /// Whether its table ends in 2036 or later, with no rule that goes on without an end, and local times don't that end by the last, if they end.
    pub(crate) fn ends_before(&self, last: Option<i64>) -> bool
        ensures yes { result ≡ true → EndsBefore (general_of self.now) last }
        ensures no { result ≡ false → EndsBefore (general_of self.now) last → ⊥ }
    {
        if last.is_some() {
            return false;
        }
        let Some(to) = self.table_end() else {
            return false;
        };
        has_end(self.runs.as_slice(), to)
    }
}
