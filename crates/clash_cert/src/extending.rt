//! Making where an old certificate is there: what it says of the series that stay is kept.
ghost use Rattle.std.specs.Prelude.{◌↔◌, IfOk};
ghost use Rattle.profile.specs.checker.Instances.{AreClear};
ghost use Rattle.profile.specs.events.Confirmed.{IsOneOf};
ghost use Rattle.clash_cert.specs.Makings.{IsCertificate, IsChosenFor, IsFirstMade, IsMadeFor};
ghost use Rattle.clash_cert.specs.Chosen.{AreKeptFrom, AreKeptClear};

use crate::certificate::Certificate;
use crate::choosing::certificate_from;
use crate::making::{Made, clash_in};
use cal_events::Calendar;
use std::alloc::{AllocError, Global};

/// What `make` gives for a calendar, where an old certificate is there: for each series `kept` has its number in that, from 1, or None for a new
/// one. Where `make` gave the old one for a calendar in which the series that are kept were the same, with their exceptions, and no number is
/// there twice, it gives what `make` does; of two that are kept it copies the entry, and looks for no clash. With other arguments it gives a
/// certificate that may be wrong, or a clash. Fails only when out of memory.
pub fn extend(
    alloc: Global,
    old: &Certificate,
    kept: &[Option<u32>],
    calendar: &Calendar,
) -> Result<Made, AllocError>
    ensures made { IfOk result (λ made. AreKeptClear old.now kept.now calendar.now.series → IsMadeFor calendar.now made) }
    ensures clear { IfOk result (λ made. AreKeptClear old.now kept.now calendar.now.series → IsCertificate made ↔ AreClear (IsOneOf calendar.now) (IsOneOf calendar.now)) }
    ensures chosen { IfOk result (λ made. AreKeptFrom old.now kept.now calendar.now.series → IsChosenFor calendar.now made) }
    ensures first { IfOk result (IsFirstMade calendar.now) }
{
    if let Some(clash) = clash_in(alloc, calendar, kept)? {
        return Ok(Made::Clash(clash));
    }
    let singles = calendar.single_count();
    let certificate = certificate_from(alloc, old, kept, singles, calendar.series())?;
    Ok(Made::Clear(certificate))
}
