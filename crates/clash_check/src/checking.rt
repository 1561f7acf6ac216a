//! Checking: a certificate's text against a calendar, and a clash against a calendar.
ghost use Rattle.std.specs.Prelude.{ℕ, List, ◌≡◌, ◌↔◌, ◌⊎◌, IsTrue, IfOk, IfNone, IfSome, Contains, map};
ghost use Rattle.profile.specs.Headline.{IsFree};
ghost use Rattle.profile.specs.checker.Instances.{Instance as SaidInstance, IsClear, IsWithin};
ghost use Rattle.profile.specs.events.Starts.{IsInstance};
ghost use Rattle.profile.specs.events.Confirmed.{Confirmed, IsInSeries, IsOneOf};
ghost use Rattle.profile.specs.checker.Calendars.{CertificateHolds};
ghost use Rattle.profile.specs.checker.Certificates.{CertificateHoldsFor};
ghost use Rattle.profile.specs.events.Spans.{AreSaidSeries};
ghost use Rattle.ical_values.specs.Octets.{address_octets};
ghost use Rattle.cal_events.specs.Calendar.{instance_of, owned_key_of};
ghost use Rattle.cal_events.specs.Series.{series_said};
ghost use Rattle.clash_cert.specs.Makings.{IsClashIn};
ghost use Rattle.clash_check.specs.declared.verdict.Verdict.{Verdict};
ghost use Rattle.clash_check.specs.Verdicts.{IsVerdict, MakesFew, IsRefusedCalendar, IsJudgement, HasThatKey, ShareInstant};

use crate::drawing::Drawing;
use crate::judging::judge;
use crate::law::yes_means_free;
use crate::verdict::{Checked, Why};
use cal_events::{
    Calendar, HORIZON, Instance, OwnedKey, Series, instances_last, known_by_start,
    one_calendar_text, series_are_said,
};
use cal_period::{residues_settle, spans_settle};
use clash_cert::{Clash, one_certificate};
use ical_lines::Fault;
use ical_values::Address;
use std::alloc::{AllocError, Global};

/// Does the certificate hold for the room's calendar? No for the first of: the calendar is refused (80), the
/// certificate's text is wrong (81), a count isn't the calendar's (82), an entry or a group doesn't hold (83), a single clashes with another or with
/// a series (84). Fails only when out of memory.
pub fn check(
    alloc: Global,
    calendar: &[u8],
    certificate: &[u8],
    room: &Address,
) -> Result<Checked, AllocError>
    // On yes no two of the instances that the calendar's octets confirm for the room share an instant before year 10000.
    ensures free { IfOk result (λ checked. checked.verdict ≡ Verdict.Yes → IsFree (address_octets room.now) calendar.now) }
    // Yes exactly where the certificate holds for what the calendar's octets spell.
    ensures yes { IfOk result (λ checked. (checked.verdict ≡ Verdict.Yes) ↔ CertificateHolds (address_octets room.now) calendar.now certificate.now) }
    // The calendar is refused, or this is the judgement of its confirmed instances.
    ensures judged { IfOk result (λ checked. IsRefusedCalendar calendar.now checked
        ⊎ IsJudgement (address_octets room.now) calendar.now certificate.now checked) }
{
    one_calendar_text();
    yes_means_free();
    match Calendar::read(alloc, calendar, room) {
        Ok(calendar) => judge_read(alloc, &calendar, certificate),
        Err(Fault::Refused(_)) => Ok(Checked::no(Why::CALENDAR, 0)),
        Err(Fault::Memory) => Err(AllocError),
    }
}

/// Does the text hold as a certificate for the calendar? Fails only when out of memory.
pub fn judge_read(
    alloc: Global,
    calendar: &Calendar,
    certificate: &[u8],
) -> Result<Checked, AllocError>
    // On yes no two instances of the calendar, of singles and of series, share an instant before year 10000.
    ensures clear { IfOk result (λ checked. checked.verdict ≡ Verdict.Yes → IsClear (IsOneOf calendar.now)) }
    ensures verdict { IfOk result (λ checked. IsVerdict calendar.now certificate.now checked.verdict) }
    ensures yes { IfOk result (λ checked. (checked.verdict ≡ Verdict.Yes) ↔ CertificateHoldsFor calendar.now certificate.now) }
    ensures made { IfOk result (MakesFew calendar.now certificate.now) }
{
    // Only for the proof: some VEVENT says each series.
    let _series = calendar.series();
    series_are_said();
    certificate_means_clear();
    one_certificate();
    let mut drawing = Drawing::new(alloc, calendar)?;
    judge(alloc, &mut drawing, certificate)
}

/// A certificate that holds is enough: no two of all confirmed instances clash, of singles and of series. Of two series END says so by itself,
/// SPAN and a group because all do in each period after the first what they did in that, and RES because no arcs of their residues meet.
pub fn certificate_means_clear()
    ensures { (all : Confirmed) (text : List ℕ) → AreSaidSeries all.series → CertificateHoldsFor all text → IsClear (IsOneOf all) }
{
    spans_settle();
    residues_settle();
}

/// Is this a clash of two confirmed instances of the calendar?
pub fn check_clash(calendar: &Calendar, clash: &Clash) -> bool
    ensures { IsTrue result ↔ IsClashIn calendar.now clash.now }
{
    // Only for the proof: each key is that of one instance.
    let _singles = calendar.singles();
    let _series = calendar.series();
    known_by_start();
    let Some(first) = confirmed_of(calendar, &clash.first) else {
        return false;
    };
    let Some(second) = confirmed_of(calendar, &clash.second) else {
        return false;
    };
    if has_key(&first, &clash.second) {
        return false;
    }
    share(&first, &second, clash.instant)
}

/// Do both hold the room in that second, before the horizon?
fn share(first: &Instance<'_>, second: &Instance<'_>, instant: i64) -> bool
    ensures { IsTrue result ↔ ShareInstant (instance_of first.now) (instance_of second.now) instant }
{
    instant < HORIZON && is_during(first, instant) && is_during(second, instant)
}

/// The confirmed instance of that key: a single, or one of a series.
fn confirmed_of<'a>(calendar: &'a Calendar, key: &OwnedKey) -> Option<Instance<'a>>
    ensures found { IfSome result (λ i. IsOneOf calendar.now (instance_of i) × HasThatKey key.now i) }
    ensures none { IfNone result ((b : SaidInstance) → IsOneOf calendar.now b → b.key ≡ owned_key_of key.now → ⊥) }
{
    match single_of(calendar, key) {
        Some(single) => Some(single),
        None => of_series(calendar.series(), key),
    }
}

/// The instance of that key of one of the series.
fn of_series<'a>(series: &'a [Series], key: &OwnedKey) -> Option<Instance<'a>>
    ensures found { IfSome result (λ i. IsInSeries (map series_said series.now) (instance_of i) × HasThatKey key.now i) }
    ensures none { IfNone result ((b : SaidInstance) → IsInSeries (map series_said series.now) b → b.key ≡ owned_key_of key.now → ⊥) }
{
    for place in 0..series.len() {
        if let Some(instance) = at_slot(&series[place], key) {
            return Some(instance);
        }
    }
    None
}

/// The instance of that key of a series: the first that starts at its slot or later, if it is that.
fn at_slot<'a>(series: &'a Series, key: &OwnedKey) -> Option<Instance<'a>>
    ensures found { IfSome result (λ i. IsInstance (series_said series.now) (instance_of i) × HasThatKey key.now i) }
    ensures none { IfNone result ((b : SaidInstance) → IsInstance (series_said series.now) b → b.key ≡ owned_key_of key.now → ⊥) }
{
    known_by_start();
    let mut starts = series.starts(key.slot);
    let first = starts.next()?;
    if has_key(&first, key) {
        Some(first)
    } else {
        None
    }
}

/// The single of that key.
fn single_of<'a>(calendar: &'a Calendar, key: &OwnedKey) -> Option<Instance<'a>>
    ensures found { IfSome result (λ i. Contains calendar.now.singles (instance_of i) × HasThatKey key.now i) }
    ensures none { IfNone result ((b : SaidInstance) → Contains calendar.now.singles b → b.key ≡ owned_key_of key.now → ⊥) }
{
    for place in 0..calendar.single_count() as usize {
        if let Some(single) = calendar.single(place) {
            if has_key(&single, key) {
                return Some(single);
            }
        }
    }
    None
}

/// Is it the key of the instance?
fn has_key(instance: &Instance<'_>, key: &OwnedKey) -> bool
    ensures { IsTrue result ↔ HasThatKey key.now instance.now }
{
    let own = &instance.key;
    own.slot == key.slot && own.uid == key.uid.as_str() && own.organiser == key.organiser.as_str()
}

/// Does the instance hold the room in that second?
fn is_during(instance: &Instance<'_>, instant: i64) -> bool
    ensures { IsTrue result ↔ IsWithin instance.now.start instance.now.end instant }
{
    instance.start <= instant && instant < instance.end
}
