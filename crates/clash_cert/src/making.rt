//! Making: a certificate where what is confirmed is clear, else a clash.
ghost use Rattle.std.specs.Prelude.{◌≡◌, ◌↔◌, Contains, IfOk, IfSome, IfNone};
ghost use Rattle.std.specs.Ordering.{is_lt};
ghost use Rattle.profile.specs.checker.Instances.{AreClear, instance_cmp};
ghost use Rattle.profile.specs.events.Confirmed.{IsInSeries, IsOneOf};
ghost use Rattle.cal_events.specs.Calendar.{instance_of, owned_key_of};
ghost use Rattle.cal_events.specs.Clashes.{Names};
ghost use Rattle.cal_period.specs.Besides.{IsBeside};
ghost use Rattle.clash_cert.specs.Looked.{AreLookedAt, IsPairFound};
ghost use Rattle.clash_cert.specs.Makings.{IsCertificate, IsChosenFor, IsFirstClash, IsFirstMade, IsMadeFor, IsNamedClash, IsNamedAs, IsLaterStart, NamesOf};

use crate::certificate::Certificate;
use crate::choosing::certificate_of;
use crate::looking::{Shared, clash_of_new};
use cal_events::{Calendar, Instance, Overlap, OwnedKey};
use cal_period::{Beside, single_beside_series};
use std::alloc::{AllocError, Global};

/// Two instances of different keys and an instant in both, before the horizon: the later start.
/// `first` is less by start, organiser, UID, slot.
#[derive(Clone, Drop)]
pub struct Clash {
    pub first: OwnedKey,
    pub second: OwnedKey,
    pub instant: i64,
}

/// What making gives.
#[derive(Drop)]
pub enum Made {
    /// No two confirmed instances share an instant; the certificate holds.
    Clear(Certificate),
    /// Two of them do.
    Clash(Clash),
}

/// A certificate that holds where what is confirmed is clear, else a clash: first of two singles, then of a single and a series, then of series.
/// Fails only when out of memory.
pub fn make(alloc: Global, calendar: &Calendar) -> Result<Made, AllocError>
    ensures made { IfOk result (IsMadeFor calendar.now) }
    ensures clear { IfOk result (λ made. IsCertificate made ↔ AreClear (IsOneOf calendar.now) (IsOneOf calendar.now)) }
    ensures chosen { IfOk result (IsChosenFor calendar.now) }
    ensures first { IfOk result (IsFirstMade calendar.now) }
{
    if let Some(clash) = clash_in(alloc, calendar, &[])? {
        return Ok(Made::Clash(clash));
    }
    let certificate = certificate_of(alloc, calendar)?;
    Ok(Made::Clear(certificate))
}

/// Two confirmed instances that share an instant, None where all that it looks at are clear: all but the pairs of series that have both an old
/// number in `kept`. Fails only when out of memory.
pub(crate) fn clash_in(
    alloc: Global,
    calendar: &Calendar,
    kept: &[Option<u32>],
) -> Result<Option<Clash>, AllocError>
    ensures clash { IfOk result (λ found. IfSome found (IsNamedClash calendar.now)) }
    ensures first { IfOk result (λ found. IfSome found (IsFirstClash calendar.now)) }
    ensures clear { IfOk result (λ found. IfNone found (AreLookedAt kept.now calendar.now)) }
{
    if let Some(overlap) = calendar.first_overlap(alloc)? {
        return Ok(Some(of_singles(calendar, overlap)?));
    }
    if let Some(beside) = single_beside_series(calendar) {
        return Ok(Some(of_single_and_series(alloc, calendar, beside)?));
    }
    match clash_of_new(calendar.series(), kept) {
        Some(shared) => Ok(Some(of_series(alloc, calendar, shared)?)),
        None => Ok(None),
    }
}

/// The clash of two singles.
fn of_singles(calendar: &Calendar, overlap: Overlap) -> Result<Clash, AllocError>
    requires { Names calendar.now.singles overlap }
    ensures clash { IfOk result (IsNamedClash calendar.now) }
    ensures of { IfOk result (NamesOf (Contains calendar.now.singles) (Contains calendar.now.singles)) }
{
    let a = calendar.single(overlap.first).unwrap();
    let b = calendar.single(overlap.second).unwrap();
    let of_a = calendar.key(overlap.first)?.unwrap();
    let of_b = calendar.key(overlap.second)?.unwrap();
    Ok(clash_of(&a, &b, of_a, of_b))
}

/// The clash of a single and an instance of a series.
fn of_single_and_series(
    alloc: Global,
    calendar: &Calendar,
    beside: Beside<'_>,
) -> Result<Clash, AllocError>
    requires { IsBeside calendar.now beside }
    ensures clash { IfOk result (IsNamedClash calendar.now) }
    ensures of { IfOk result (NamesOf (Contains calendar.now.singles) (IsInSeries calendar.now.series)) }
{
    let single = calendar.single(beside.single).unwrap();
    let of_single = calendar.key(beside.single)?.unwrap();
    let series = calendar.series();
    let of_series = series[beside.series].key(alloc, beside.instance.start)?;
    Ok(clash_of(&single, &beside.instance, of_single, of_series))
}

/// The clash of two instances of series.
fn of_series(alloc: Global, calendar: &Calendar, shared: Shared<'_>) -> Result<Clash, AllocError>
    requires { IsPairFound calendar.now.series shared }
    ensures clash { IfOk result (IsNamedClash calendar.now) }
    ensures of { IfOk result (NamesOf (IsInSeries calendar.now.series) (IsInSeries calendar.now.series)) }
{
    let series = calendar.series();
    let of_first = series[shared.i].key(alloc, shared.first.start)?;
    let of_second = series[shared.j].key(alloc, shared.second.start)?;
    Ok(clash_of(&shared.first, &shared.second, of_first, of_second))
}

/// The clash of two instances, whose keys are owned: the lesser by start, organiser, UID and slot is first, and the instant is the later
/// start.
pub fn clash_of(a: &Instance<'_>, b: &Instance<'_>, of_a: OwnedKey, of_b: OwnedKey) -> Clash
    ensures { owned_key_of of_a ≡ (instance_of a.now).key → owned_key_of of_b ≡ (instance_of b.now).key → IsNamedAs (instance_of a.now) (instance_of b.now) result }
{
    let instant = later_start(a, b);
    if is_before(b, a) {
        Clash {
            first: of_b,
            second: of_a,
            instant,
        }
    } else {
        Clash {
            first: of_a,
            second: of_b,
            instant,
        }
    }
}

/// The later start of two instances.
fn later_start(a: &Instance<'_>, b: &Instance<'_>) -> i64
    ensures { IsLaterStart (instance_of a.now) (instance_of b.now) result }
{
    if a.start < b.start { b.start } else { a.start }
}

/// Is the first less by start, organiser, UID, slot?
fn is_before(a: &Instance<'_>, b: &Instance<'_>) -> bool
    ensures { result ≡ is_lt (instance_cmp (instance_of a.now) (instance_of b.now)) }
{
    a.start.cmp(&b.start).then(a.key.cmp(&b.key)).is_lt()
}
