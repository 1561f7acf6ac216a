//! Reading a VTIMEZONE in general (RFC 5545 3.6.5).

ghost use Rattle.std.specs.Prelude.{IfOk, IfErr};
ghost use Rattle.ical_lines.specs.Fault.{RefusesBy};
ghost use Rattle.cal_zones.specs.Read.{zone_parts};
ghost use Rattle.profile.specs.series.GeneralZoneTexts.{PartsSayRuns, GeneralPartsFault};
ghost use Rattle.cal_doors.specs.Runs.{runs_in};

use crate::part::{add_part, is_part};
use crate::run::Run;
use ical_lines::{Fault, Refusal};
use ical_tree::Component;
use std::alloc::Global;

/// The runs that the parts of a VTIMEZONE say. Refused with 40 where there is no part, and where one is wrong.
pub(crate) fn read_runs(alloc: Global, zone: &Component) -> Result<Vec<Run>, Fault>
    ensures says { IfOk result (λ runs. PartsSayRuns (zone_parts zone.now) (runs_in runs.items)) }
    ensures fault { IfErr result (RefusesBy (GeneralPartsFault (zone_parts zone.now))) }
{
    let mut runs = Vec::new(alloc);
    let mut has_part = false;
    for child in zone.children() {
        if is_part(child) {
            add_part(alloc, child, &mut runs)?;
            has_part = true;
        }
    }
    if !has_part {
        return Err(Fault::Refused(Refusal::ZONE_SHAPE));
    }
    Ok(runs)
}
