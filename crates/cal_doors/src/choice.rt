//! The zone that takes the place of a VTIMEZONE, for the local times that an object names in it.

ghost use Rattle.std.specs.Prelude.{◌≡◌, IfOk, IfSome};
ghost use Rattle.cal_zones.specs.Kinds.{zone_of};
ghost use Rattle.profile.specs.doors.Adapting.{IsSameFor, SetsBack};
ghost use Rattle.cal_doors.specs.Found.{general_of};
ghost use Rattle.cal_doors.specs.Between.{IsChosenBeyond, LastsAsLong};

use crate::uses::Use;
use crate::zone::GeneralZone;
use cal_zones::Zone;
use std::alloc::{AllocError, Global};

/// How far a clock may show a local time from the instant: less than a day.
const LEAST_OF_DAY: i64 = 86_399;

/// A zone, and whether it goes on beyond what is stated.
#[derive(Clone, Copy)]
pub(crate) struct Choice {
    pub(crate) zone: Zone,
    pub(crate) goes_on: bool,
}

/// The zone that does the same as one in general for these local times: where its table ends in 2036 or later and they don't end, the zone that goes on.
/// None where none is found.
pub(crate) fn choose(
    alloc: Global,
    general: &GeneralZone,
    times: Use,
) -> Result<Option<Choice>, AllocError>
    ensures same { IfOk result (λ found. IfSome found (λ c. IsSameFor (general_of general.now) (zone_of c.zone) c.goes_on times.first times.last)) }
    ensures sides { IfOk result (λ found. IfSome found (λ c. SetsBack (zone_of c.zone))) }
{
    let Some(from) = times.first.checked_sub(LEAST_OF_DAY) else {
        return Ok(None);
    };
    if general.ends_before(times.last) {
        return beyond(alloc, general, from);
    }
    if let Some(zone) = general.from_instant(from) {
        return Ok(Some(Choice {
            zone,
            goes_on: false,
        }));
    }
    if let Some(zone) = as_long(alloc, general, from, times.last)? {
        return Ok(Some(Choice {
            zone,
            goes_on: false,
        }));
    }
    beyond(alloc, general, from)
}

/// The zone that does the same from an instant on, as long as local times go on that end so. None where none is found, and where they don't end.
fn as_long(
    alloc: Global,
    general: &GeneralZone,
    from: i64,
    last: Option<i64>,
) -> Result<Option<Zone>, AllocError>
    ensures same { IfOk result (λ found. IfSome found (λ zone. LastsAsLong (general_of general.now) (zone_of zone) from last)) }
    ensures sides { IfOk result (λ found. IfSome found (λ zone. SetsBack (zone_of zone))) }
{
    let Some(last) = last else {
        return Ok(None);
    };
    let Some(to) = last.checked_add(LEAST_OF_DAY) else {
        return Ok(None);
    };
    general.between(alloc, from, to)
}

/// The zone that does the same from an instant on up to the end of a table that reaches 2036, and goes on. None where none is found.
fn beyond(alloc: Global, general: &GeneralZone, from: i64) -> Result<Option<Choice>, AllocError>
    ensures { IfOk result (λ found. IfSome found (λ c. IsChosenBeyond (general_of general.now) (zone_of c.zone) c.goes_on from)) }
{
    let Some(to) = general.table_end() else {
        return Ok(None);
    };
    match general.beyond(alloc, from, to)? {
        Some(zone) => Ok(Some(Choice {
            zone,
            goes_on: true,
        })),
        None => Ok(None),
    }
}
