//! The certificate that is made: an entry for each pair of series, by what they say alone. What an old certificate says of two of its series is
//! still so while they are the same.
ghost use Rattle.std.specs.Prelude.{ℕ, List, ◌≡◌, ◌+◌, ◌<◌, ◌==◌, Bool, None, length, map, IfOk, OnOk, slice_index_or};
ghost use Rattle.profile.specs.checker.Instances.{IsClear};
ghost use Rattle.profile.specs.checker.Certificates.{SpellsCertificate, CertificateHoldsFor, IsEntry, NoneSettle, IsEntryMade, IsCertificateMade};
ghost use Rattle.profile.specs.events.Confirmed.{Confirmed, IsOneOf};
ghost use Rattle.cal_events.specs.Series.{series_said};
ghost use Rattle.clash_cert.specs.Texts.{entry_said, pair_said};
ghost use Rattle.clash_cert.specs.Chosen.{AreKeptFrom, IsEntryAt, ArePairsMade};

use crate::certificate::{Certificate, Entry, Pair};
use cal_events::{Calendar, Series};
use cal_period::{settling_residues, span_of_pair};
use ical_values::Stamp;
use std::alloc::{AllocError, Global};

/// The certificate of a calendar that is known to be clear, by what its series say alone: no instance is looked at. For each pair RES where
/// residues settle it; else the SPAN of the first midnight and the least number of days, where its bound is before the horizon; else END. Fails
/// only when out of memory.
pub fn certificate_of(alloc: Global, calendar: &Calendar) -> Result<Certificate, AllocError>
    ensures made { IfOk result (IsCertificateMade calendar.now) }
    ensures holds { IfOk result (λ c. IsClear (IsOneOf calendar.now) → (text : List ℕ) → SpellsCertificate text c → CertificateHoldsFor calendar.now text) }
{
    let nothing = Certificate::of(0, 0, None, Vec::new(alloc));
    let singles = calendar.single_count();
    certificate_from(alloc, &nothing, &[], singles, calendar.series())
}

/// The certificate of so many singles and these series, which are known to be clear: the same as `certificate_of` makes of their calendar. For
/// each series `kept` has its number in an old certificate, from 1, or None. Where the old one was made by `certificate_of`, and the series that
/// are kept are the same as then, and none twice, the entries of two that are kept are copied. Fails only when out of memory.
pub fn certificate_from(
    alloc: Global,
    old: &Certificate,
    kept: &[Option<u32>],
    singles: u64,
    series: &[Series],
) -> Result<Certificate, AllocError>
    ensures { IfOk result (λ c. (all : Confirmed) → singles ≡ length all.singles → map series_said series.now ≡ all.series → AreKeptFrom old.now kept.now all.series → IsCertificateMade all c) }
{
    let pairs = pairs_of(alloc, old, kept, series)?;
    Ok(Certificate::of(singles, series.len() as u64, None, pairs))
}

/// The entries of all pairs of series.
fn pairs_of(
    alloc: Global,
    old: &Certificate,
    kept: &[Option<u32>],
    series: &[Series],
) -> Result<Vec<Pair>, AllocError>
    ensures { IfOk result (λ pairs. ArePairsMade (AreKeptFrom old.now kept.now (map series_said series.now)) (map series_said series.now) (length series.now) (length series.now) (map pair_said pairs.items)) }
{
    let mut pairs = Vec::new(alloc);
    for i in 0..series.len() {
        push_row(&mut pairs, old, kept, series, i)?;
    }
    Ok(pairs)
}

/// Adds the entries of the series at a place, with itself and those after it.
fn push_row(
    pairs: &mut Vec<Pair>,
    old: &Certificate,
    kept: &[Option<u32>],
    series: &[Series],
    i: usize,
) -> Result<(), AllocError>
    requires within { i < length series.now }
    requires made { ArePairsMade (AreKeptFrom old.now kept.now (map series_said series.now)) (map series_said series.now) i i (map pair_said pairs.old.items) }
    ensures { OnOk result (ArePairsMade (AreKeptFrom old.now kept.now (map series_said series.now)) (map series_said series.now) (i + 1) (i + 1) (map pair_said pairs.new.items)) }
{
    for j in i..series.len() {
        let entry = entry_at(*pairs.allocator(), old, kept, series, i, j)?;
        pairs.push(Pair {
            first: i as u64 + 1,
            second: j as u64 + 1,
            entry,
        })?;
    }
    Ok(())
}

/// The entry of the series at two places: what the old certificate says of them where both are kept.
fn entry_at(
    alloc: Global,
    old: &Certificate,
    kept: &[Option<u32>],
    series: &[Series],
    i: usize,
    j: usize,
) -> Result<Entry, AllocError>
    requires { (i < length series.now) × (j < length series.now) }
    ensures good { IfOk result (λ entry. IsEntry (entry_said entry)) }
    ensures made { IfOk result (λ entry. IsEntryAt (AreKeptFrom old.now kept.now (map series_said series.now)) (map series_said series.now) i j (entry_said entry)) }
{
    if let (Some(first), Some(second)) = (number_at(kept, i), number_at(kept, j)) {
        return Ok(old.between(u64::from(first), u64::from(second)));
    }
    entry_for(alloc, series, i, j)
}

/// The old number of the series at a place, None where it has none.
pub(crate) fn number_at(kept: &[Option<u32>], place: usize) -> Option<u32>
    ensures { result ≡ slice_index_or kept.now place None }
{
    match kept.get(place) {
        Some(number) => *number,
        None => None,
    }
}

/// The entry of the series at two places, by what they say.
fn entry_for(alloc: Global, series: &[Series], i: usize, j: usize) -> Result<Entry, AllocError>
    requires { (i < length series.now) × (j < length series.now) }
    ensures good { IfOk result (λ entry. IsEntry (entry_said entry)) }
    ensures made { IfOk result (λ entry. IsEntryAt (Unit {0}) (map series_said series.now) i j (entry_said entry)) }
{
    let a = &series[i];
    let b = &series[j];
    match settling_residues(alloc, a, b, i == j)? {
        Some(modulus) => Ok(Entry::Res(modulus)),
        None => Ok(entry_by_span(a, b)),
    }
}

/// The entry of two series, or of one with itself, which residues don't settle.
fn entry_by_span(a: &Series, b: &Series) -> Entry
    ensures good { IsEntry (entry_said result) }
    ensures made { (own : Bool) → NoneSettle own (series_said a.now) (series_said b.now) → IsEntryMade own (series_said a.now) (series_said b.now) (entry_said result) }
{
    let Some(span) = span_of_pair(a, b) else {
        return Entry::End;
    };
    // a span begins in 1970 at the earliest, and ends before the horizon
    let from = Stamp::of_instant(span.from).unwrap();
    Entry::Span {
        from,
        days: span.days,
    }
}
