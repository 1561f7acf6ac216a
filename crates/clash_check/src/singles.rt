//! The singles: each is drawn once, and compared with the others and with the instances of the series around it. A series is drawn only beside those
//! that may share an instant with what starts at its residues modulo a week.
ghost use Rattle.std.specs.Prelude.{◌≡◌, ◌↔◌, ◌*◌, ◌<ℤ◌, ◌^◌, pos, length, map, IsTrue, Contains, MatchBool, IfOk};
ghost use Rattle.profile.specs.checker.Instances.{Instance, AreClear, HasClash, horizon};
ghost use Rattle.profile.specs.checker.Certificates.{IsSeriesAt};
ghost use Rattle.profile.specs.events.Events.{Event};
ghost use Rattle.profile.specs.events.Starts.{IsInstance};
ghost use Rattle.profile.specs.events.Confirmed.{IsOneOf};
ghost use Rattle.profile.specs.events.Residues.{AreResidues};
ghost use Rattle.profile.specs.events.Spans.{IsWidthOf};
ghost use Rattle.clash_check.specs.Draws.{IsPlaceIn};
ghost use Rattle.clash_check.specs.Entries.{IsMore};
ghost use Rattle.clash_check.specs.Singles.{span_in, week, HasSharer, IsSharedByNone, HasSharers, HasNoSharers, HaveSharers, HaveNoSharers, IsEachClear, IsFewMore, AreSinglesDrawn, IsEntryInstant};

use crate::drawn::Drawn;
use crate::walk::draw_span;
use cal_events::{HORIZON, Span, first_overlap};
use cal_period::reaches;
use std::alloc::{AllocError, Global};

/// The seconds of a week. A rule has few residues modulo them, whatever its weekdays.
const WEEK_SECONDS: u64 = 7 * 86_400;

/// Does a single clash with another or with an instance of a series? Each single is drawn once, so all are kept: it takes memory, and fails
/// only when out of it.
pub(crate) fn have_clash<D: Drawn>(alloc: Global, drawn: &mut D) -> Result<bool, AllocError>
    ensures calendar { D.calendar drawn.new ≡ D.calendar drawn.old }
    ensures clash { IfOk result (λ r. MatchBool r (HasClash (Contains (D.calendar drawn.old).singles) (IsOneOf (D.calendar drawn.old)))
        (AreClear (Contains (D.calendar drawn.old).singles) (IsOneOf (D.calendar drawn.old)))) }
    ensures count { IsEachClear (D.calendar drawn.old) → IfOk result (λ _. AreSinglesDrawn (D.calendar drawn.old) (D.count drawn.old) (D.count drawn.new)) }
{
    drawn.is_drawable();
    let spans = draw_singles(alloc, drawn)?;
    match first_overlap(alloc, &spans)? {
        Some(_) => Ok(true),
        None => any_meets(alloc, drawn, &spans),
    }
}

/// When each single starts and ends.
fn draw_singles<D: Drawn>(alloc: Global, drawn: &mut D) -> Result<Vec<Span>, AllocError>
    ensures calendar { D.calendar drawn.new ≡ D.calendar drawn.old }
    ensures spans { IfOk result (λ spans. spans.items ≡ map span_in (D.calendar drawn.old).singles) }
    ensures count { IfOk result (λ _. IsMore (D.count drawn.old) (D.count drawn.new) (length (D.calendar drawn.old).singles)) }
{
    let mut spans = Vec::new(alloc);
    for before in 0..drawn.singles() {
        let (start, end) = drawn.single(before + 1);
        spans.push(Span { start, end })?;
    }
    Ok(spans)
}

/// Does one of the spans share an instant with an instance of a series? Fails only when out of memory.
fn any_meets<D: Drawn>(alloc: Global, drawn: &mut D, spans: &[Span]) -> Result<bool, AllocError>
    ensures calendar { D.calendar drawn.new ≡ D.calendar drawn.old }
    ensures meets { IfOk result (λ r. MatchBool r (HaveSharers (D.calendar drawn.old) spans.now) (HaveNoSharers (D.calendar drawn.old) spans.now)) }
    ensures count { IsEachClear (D.calendar drawn.old)
        → IfOk result (λ _. IsFewMore (D.count drawn.old) (D.count drawn.new) (length (D.calendar drawn.old).series * (length spans.now * 3))) }
{
    for before in 0..drawn.series() {
        if series_meets(alloc, drawn, before + 1, spans)? {
            return Ok(true);
        }
    }
    Ok(false)
}

/// Does one of the spans share an instant with an instance of a series? Its residues are listed once for all of them. Fails only when out of memory.
fn series_meets<D: Drawn>(
    alloc: Global,
    drawn: &mut D,
    i: u64,
    spans: &[Span],
) -> Result<bool, AllocError>
    requires { IsPlaceIn (length (D.calendar drawn.old).series) i }
    ensures calendar { D.calendar drawn.new ≡ D.calendar drawn.old }
    ensures meets { IfOk result (λ r. (a : Event) → IsSeriesAt (D.calendar drawn.old) i a → MatchBool r (HasSharers a spans.now) (HasNoSharers a spans.now)) }
    ensures count { IfOk result (λ _. (a : Event) → IsSeriesAt (D.calendar drawn.old) i a → AreClear (IsInstance a) (IsInstance a)
        → IsFewMore (D.count drawn.old) (D.count drawn.new) (length spans.now * 3)) }
{
    let residues = drawn.residues(alloc, i, WEEK_SECONDS)?;
    Ok(meets_one(drawn, i, &residues, spans))
}

/// Does a series of these residues modulo a week share an instant with one of the spans?
fn meets_one<D: Drawn>(drawn: &mut D, i: u64, residues: &[u64], spans: &[Span]) -> bool
    requires place { IsPlaceIn (length (D.calendar drawn.old).series) i }
    requires residues { (a : Event) → IsSeriesAt (D.calendar drawn.old) i a → AreResidues a week residues.now }
    ensures calendar { D.calendar drawn.new ≡ D.calendar drawn.old }
    ensures meets { (a : Event) → IsSeriesAt (D.calendar drawn.old) i a → MatchBool result (HasSharers a spans.now) (HasNoSharers a spans.now) }
    ensures count { (a : Event) → IsSeriesAt (D.calendar drawn.old) i a → AreClear (IsInstance a) (IsInstance a)
        → IsFewMore (D.count drawn.old) (D.count drawn.new) (length spans.now * 3) }
{
    for span in spans {
        if meets(drawn, i, residues, *span) {
            return true;
        }
    }
    false
}

/// Does a span share an instant before the horizon with an instance of a series of these residues modulo a week? Nothing is drawn where one of them
/// has no length, and where no instance at these residues may.
fn meets<D: Drawn>(drawn: &mut D, i: u64, residues: &[u64], span: Span) -> bool
    requires place { IsPlaceIn (length (D.calendar drawn.old).series) i }
    requires residues { (a : Event) → IsSeriesAt (D.calendar drawn.old) i a → AreResidues a week residues.now }
    ensures calendar { D.calendar drawn.new ≡ D.calendar drawn.old }
    ensures meets { (a : Event) → IsSeriesAt (D.calendar drawn.old) i a → MatchBool result (HasSharer a span.start span.end) (IsSharedByNone a span.start span.end) }
    ensures count { (a : Event) → IsSeriesAt (D.calendar drawn.old) i a → AreClear (IsInstance a) (IsInstance a)
        → IsFewMore (D.count drawn.old) (D.count drawn.new) 3 }
{
    drawn.is_drawable();
    let width = drawn.width(i);
    if width == 0 {
        return false;
    }
    if !holds_instant(span) {
        return false;
    }
    if !reaches(WEEK_SECONDS, residues, width, span.start, span.end) {
        return false;
    }
    meets_near(drawn, i, span, width)
}

/// Does a span hold an instant before the horizon?
fn holds_instant(span: Span) -> bool
    ensures { IsTrue result ↔ (span.start <ℤ span.end) × (span.start <ℤ horizon) }
{
    span.start < span.end && span.start < HORIZON
}

/// Does one of the instances of a series that start less than its width before a span, or in it, share an instant with it? Of a series that is
/// clear at most two of these are over by the start of the span, and then the next one shares an instant.
fn meets_near<D: Drawn>(drawn: &mut D, i: u64, span: Span, width: i64) -> bool
    requires place { IsPlaceIn (length (D.calendar drawn.old).series) i }
    requires span { (span.start <ℤ span.end) × (span.start <ℤ horizon) }
    requires width { (pos 0 <ℤ width) × (width <ℤ pos (2 ^ 50)) }
    requires of { (a : Event) → IsSeriesAt (D.calendar drawn.old) i a → IsWidthOf a width }
    ensures calendar { D.calendar drawn.new ≡ D.calendar drawn.old }
    ensures meets { (a : Event) → IsSeriesAt (D.calendar drawn.old) i a → MatchBool result (HasSharer a span.start span.end) (IsSharedByNone a span.start span.end) }
    ensures count { (a : Event) → IsSeriesAt (D.calendar drawn.old) i a → AreClear (IsInstance a) (IsInstance a)
        → IsFewMore (D.count drawn.old) (D.count drawn.new) 3 }
{
    drawn.is_drawable();
    drawn.begin(i, entry(span.start, width), span.end);
    let mut next = draw_span(drawn, i);
    while let Some(instance) = next {
        if is_going_on(instance, span.start) {
            return true;
        }
        next = draw_span(drawn, i);
    }
    false
}

/// Where an instance may start that isn't over by an instant.
fn entry(instant: i64, width: i64) -> i64
    requires { (pos 0 <ℤ width) × (width <ℤ pos (2 ^ 50)) }
    ensures { IsEntryInstant instant width result }
{
    instant.saturating_sub(width - 1)
}

/// Has an instance a length, and isn't over by an instant?
fn is_going_on(instance: Span, instant: i64) -> bool
    ensures { IsTrue result ↔ (instance.start <ℤ instance.end) × (instant <ℤ instance.end) }
{
    instance.start < instance.end && instant < instance.end
}
