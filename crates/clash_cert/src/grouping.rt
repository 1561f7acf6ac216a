//! Certificate version 2: one group of all series that spans settle, so that each is gone through once.
ghost use Rattle.std.specs.Prelude.{ℕ, List, ◌≡◌, ◌+◌, ◌^◌, ◌≤◌, ◌<◌, ◌||◌, false, None, suc, length, map, AllPairs, IfOk, MatchOption, slice_index_or};
ghost use Rattle.profile.specs.checker.Instances.{IsClear};
ghost use Rattle.profile.specs.checker.Certificates.{SpellsCertificate, CertificateHoldsFor, IsClaims, IsCertificateMade, IsCertificateWritten, IsGrouped, HasNoGroup, IsPair};
ghost use Rattle.profile.specs.events.Confirmed.{IsOneOf};
ghost use Rattle.profile.specs.text.Values.{IsClockSeconds};
ghost use Rattle.clash_cert.specs.Texts.{pair_said};
ghost use Rattle.clash_cert.specs.Grouped.{HaveSpan, AreMarked, are_among, apart_of, marked_from, spans, with_group};

use crate::certificate::{Certificate, Entry, Pair};
use crate::choosing::certificate_of;
use crate::groups::{Group, has_number};
use cal_events::Calendar;
use cal_period::{CommonSpan, span_of_members};
use ical_values::Stamp;
use std::alloc::{AllocError, Global};

/// The certificate of version 2 that one of version 1 gives, which `make` gave for a calendar: its series that have SPAN, with themselves or with
/// others, are one group, from the first midnight and after the least number of days that do for all; its other entries stay. None where fewer than
/// two have it, where no period of at most 2,932,897 days is common to them, where the bound isn't before the horizon, and of a certificate of
/// version 2. No instance is looked at. With another calendar it gives a certificate that may be wrong. Fails only when out of memory.
pub fn group(
    alloc: Global,
    certificate: &Certificate,
    calendar: &Calendar,
) -> Result<Option<Certificate>, AllocError>
    ensures { IsCertificateMade calendar.now certificate.now
        → IfOk result (λ found. MatchOption found (HasNoGroup calendar.now certificate.now) (IsGrouped calendar.now certificate.now)) }
{
    let series = calendar.series();
    if certificate.has_groups() || certificate.series() != series.len() as u64 {
        return Ok(None);
    }
    certificate.says_claims();
    let members = with_span(alloc, certificate)?;
    if members.len() < 2 {
        return Ok(None);
    }
    match span_of_members(series, &members) {
        Some(span) => Ok(Some(with_group(alloc, certificate, members, span)?)),
        None => Ok(None),
    }
}

/// The certificate that a room writes for a calendar that is known to be clear: the one of version 2 that `group` gives, else the one of version 1
/// that `certificate_of` gives. No instance is looked at. Fails only when out of memory.
pub fn certificate_written(alloc: Global, calendar: &Calendar) -> Result<Certificate, AllocError>
    ensures written { IfOk result (IsCertificateWritten calendar.now) }
    ensures holds { IfOk result (λ c. IsClear (IsOneOf calendar.now) → (text : List ℕ) → SpellsCertificate text c → CertificateHoldsFor calendar.now text) }
{
    let made = certificate_of(alloc, calendar)?;
    match group(alloc, &made, calendar)? {
        Some(grouped) => Ok(grouped),
        None => Ok(made),
    }
}

/// The certificate with one group, of these series, and the entries that stay beside it.
fn with_group(
    alloc: Global,
    certificate: &Certificate,
    members: Vec<u64>,
    span: CommonSpan,
) -> Result<Certificate, AllocError>
    requires version { certificate.now.groups ≡ None }
    requires have { HaveSpan certificate.now members.items }
    requires some { 2 ≤ length members.items }
    requires clock { IsClockSeconds span.from }
    ensures { IfOk result (λ grouped. grouped ≡ with_group certificate.now (record { from = span.from; days = span.days; members = members.items })) }
{
    certificate.says_claims();
    let pairs = pairs_apart(alloc, certificate.pairs(), &members)?;
    // a span begins in 1970 at the earliest, and ends before the horizon
    let from = Stamp::of_instant(span.from).unwrap();
    let mut groups = Vec::new(alloc);
    groups.push(Group {
        from,
        days: span.days,
        members,
    })?;
    let singles = certificate.singles();
    Ok(Certificate::of(singles, certificate.series(), Some(groups), pairs))
}

/// The numbers of the series that have SPAN, ascending.
fn with_span(alloc: Global, certificate: &Certificate) -> Result<Vec<u64>, AllocError>
    requires claims { IsClaims certificate.now }
    requires few { certificate.now.series < 2 ^ 63 }
    ensures { IfOk result (λ numbers. HaveSpan certificate.now numbers.items) }
{
    let marks = span_marks(alloc, certificate)?;
    numbers_marked(alloc, &marks)
}

/// Of each series whether it has SPAN.
fn span_marks(alloc: Global, certificate: &Certificate) -> Result<Vec<bool>, AllocError>
    requires claims { IsClaims certificate.now }
    requires few { certificate.now.series < 2 ^ 63 }
    ensures count { IfOk result (λ marks. length marks.items ≡ certificate.now.series) }
    ensures are { IfOk result (λ marks. AreMarked certificate.now.pairs marks.items) }
{
    let mut marks = vec![in alloc; false; certificate.series() as usize]?;
    for pair in certificate.pairs() {
        mark(&mut marks, pair);
    }
    Ok(marks)
}

/// Marks the two series of a pair, where its entry is SPAN.
fn mark(marks: &mut [bool], pair: &Pair)
    requires { IsPair (length marks.old) pair.now.first pair.now.second }
    ensures count { length marks.new ≡ length marks.old }
    ensures are { (place : ℕ) → place < length marks.old → slice_index_or marks.new place false ≡ (slice_index_or marks.old place false || spans (suc place) (pair_said pair.now)) }
{
    if let Entry::Span { .. } = pair.entry {
        marks[pair.first as usize - 1] = true;
        marks[pair.second as usize - 1] = true;
    }
}

/// The numbers of the series that are marked, counted from 1.
fn numbers_marked(alloc: Global, marks: &[bool]) -> Result<Vec<u64>, AllocError>
    ensures { IfOk result (λ numbers. numbers.items ≡ marked_from 1 marks.now) }
{
    let mut numbers = Vec::new(alloc);
    for (place, is_marked) in marks.iter().enumerate() {
        if *is_marked {
            numbers.push(place as u64 + 1)?;
        }
    }
    Ok(numbers)
}

/// The pairs that aren't both among these series, which ascend.
fn pairs_apart(alloc: Global, pairs: &[Pair], members: &[u64]) -> Result<Vec<Pair>, AllocError>
    requires { AllPairs ◌<◌ members.now }
    ensures { IfOk result (λ kept. map pair_said kept.items ≡ apart_of members.now (map pair_said pairs.now)) }
{
    let mut kept = Vec::new(alloc);
    for pair in pairs {
        if !are_both_among(members, pair) {
            kept.push(*pair)?;
        }
    }
    Ok(kept)
}

/// Are both series of a pair among these, which ascend?
fn are_both_among(members: &[u64], pair: &Pair) -> bool
    requires { AllPairs ◌<◌ members.now }
    ensures { result ≡ are_among members.now (pair_said pair.now) }
{
    has_number(members, pair.first) && has_number(members, pair.second)
}
