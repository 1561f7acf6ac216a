//! Which zones the times of an object name, from when on and until when.

ghost use Rattle.std.specs.Prelude.{◌≡◌, ◌≤ℤ◌, ◌+ℤ◌, pos, negsuc, ℕ, ℤ, true, false, Some, option_copied, IfOk, IfSome, OnOk};
ghost use Rattle.ical_lines.specs.Text.{line_text};
ghost use Rattle.ical_tree.specs.Tree.{component_lines, tree_of};
ghost use Rattle.profile.specs.text.Values.{SpellsDuration, SpellsLocal, SpellsStamp};
ghost use Rattle.profile.specs.events.ZonedTimes.{SpellsMidnight};
ghost use Rattle.profile.specs.doors.Uses.{is_time_line, SaysLocal, SaysStamp, SpellsOnClock, SaysOnClock, LastsDays, EventEndsBy, RuleEndsBy};
ghost use Rattle.profile.specs.series.Rules as rules;
ghost use Rattle.profile.specs.series.Rules.{UntilLocal};
ghost use Rattle.profile.specs.series.RuleTexts.{SpellsRule};
ghost use Rattle.cal_rules.specs.Views.{until_of};
ghost use Rattle.cal_doors.specs.Used.{AreUses, AreUsesWith, AddsUsesOf, AllBeginBy, HasNoDays, LineBeginsBy, LineEndsBy, IsAsWide, IsWidened, EndsEarlier};
ghost use Rattle.cal_doors.specs.declared.uses.Use.{Use};

use cal_rules::{RuleText, Until};
use ical_lines::{Fault, Line};
use ical_tree::Component;
use ical_values::date::read_date;
use ical_values::{DAY_SECONDS, Duration, LocalTime, Stamp};
use indexmap::IndexMap;
use std::alloc::{AllocError, Global};

/// How far a clock may be from UTC at the most, in seconds: less than a day.
const LEAST_OF_DAY: i64 = 86_399;

/// The local times that name a zone, in seconds.
#[derive(Clone, Copy)]
pub(crate) struct Use {
    /// None of them is earlier, and none that follows from them.
    pub(crate) first: i64,
    /// None of those in VEVENTs that name the zone is later, and none that their rules give. None where they go on, or it isn't known.
    pub(crate) last: Option<i64>,
}

/// The zones that times name.
pub(crate) type Uses = IndexMap<String, Use>;

/// The zones that the VEVENTs of an object name. None where a text with TZID is no local time.
pub(crate) fn uses_of(alloc: Global, object: &Component) -> Result<Option<Uses>, AllocError>
    ensures { IfOk result (λ found. IfSome found (λ uses. AreUses (tree_of object.now) uses.entries)) }
{
    let mut uses = IndexMap::new(alloc);
    for child in object.children() {
        if !child.is_named("VEVENT") {
            continue;
        }
        if !add_event(alloc, child, &mut uses)? {
            return Ok(None);
        }
    }
    Ok(Some(uses))
}

/// Adds the zones that a VEVENT names. False where a text with TZID is no local time.
fn add_event(alloc: Global, event: &Component, uses: &mut Uses) -> Result<bool, AllocError>
    ensures { IfOk result (λ all. all ≡ true → AreUsesWith (component_lines event.now) uses.old.entries uses.new.entries) }
{
    let whole = Use {
        first: event_first(alloc, event)?,
        last: event_end(alloc, event)?,
    };
    for line in event.lines() {
        if !is_time_line(line) {
            continue;
        }
        if !add_line(alloc, line, whole, uses)? {
            return Ok(false);
        }
    }
    Ok(true)
}

/// Adds the zone that a line of times names, if it names one; `whole` is about all times of its VEVENT. False where a text of it is no local time.
fn add_line(alloc: Global, line: Line<'_>, whole: Use, uses: &mut Uses) -> Result<bool, AllocError>
    ensures { IfOk result (λ all. all ≡ true → AddsUsesOf (line_text line.entry) whole uses.old.entries uses.new.entries) }
{
    let Some(name) = line.param("TZID") else {
        return Ok(true);
    };
    let Some(first) = first_local(line) else {
        return Ok(false);
    };
    let more = Use {
        first: first.min(whole.first),
        last: whole.last,
    };
    widen(alloc, uses, name, more)?;
    Ok(true)
}

/// The first local time that a VEVENT needs in each zone that it names, whichever its lines name there.
fn event_first(alloc: Global, event: &Component) -> Result<i64, AllocError>
    ensures { IfOk result (AllBeginBy (component_lines event.now)) }
{
    let days = lasts_days(event);
    let mut first = i64::MAX;
    for line in event.lines() {
        first = first.min(line_first(alloc, line, days)?);
    }
    Ok(first)
}

/// The first of those that one line is about: that of UNTIL; and where days count, any that is shown at one of its times.
fn line_first(alloc: Global, line: Line<'_>, days: bool) -> Result<i64, AllocError>
    ensures { IfOk result (LineBeginsBy days (line_text line.entry)) }
{
    if line.is_named("RRULE") {
        return until_local(alloc, line.value());
    }
    if !(days && is_time_line(line)) {
        return Ok(i64::MAX);
    }
    Ok(earliest(line))
}

/// Whether a VEVENT may last nominal days.
fn lasts_days(event: &Component) -> bool
    ensures { result ≡ false → LastsDays (component_lines event.now) → ⊥ }
{
    for line in event.lines() {
        if has_days(line) {
            return true;
        }
    }
    false
}

/// Whether a line is a length that may have nominal days.
fn has_days(line: Line<'_>) -> bool
    ensures { result ≡ false → HasNoDays (line_text line.entry) }
{
    if !line.is_named("DURATION") {
        return false;
    }
    match duration_end(line.value()) {
        Some(_) => false,
        None => true,
    }
}

/// The local time of UNTIL; the greatest number where it is none.
fn until_local(alloc: Global, text: &str) -> Result<i64, AllocError>
    ensures { IfOk result (λ first. (rule : rules.RuleText) (local : ℤ) → SpellsRule text.now rule → rule.until ≡ Some (UntilLocal local) → first ≤ℤ local) }
{
    let rule = match RuleText::read(alloc, text) {
        Ok(rule) => rule,
        Err(Fault::Memory) => return Err(AllocError),
        Err(Fault::Refused(_)) => return Ok(i64::MAX),
    };
    let Some(until) = rule.until() else {
        return Ok(i64::MAX);
    };
    Ok(local_of(&until))
}

/// The local time that UNTIL names; the greatest number where it isn't one.
fn local_of(until: &Until) -> i64
    ensures { (local : ℤ) → until_of until.now ≡ UntilLocal local → result ≡ local }
{
    match until {
        Until::Local(local) => local.seconds(),
        Until::Date(_) | Until::Utc(_) => i64::MAX,
    }
}

/// No local time is earlier, on whatever clock, that is shown at one of the times of a line.
fn earliest(line: Line<'_>) -> i64
    ensures local { (local : ℤ) → SaysOnClock (line_text line.entry) local → (result +ℤ pos 86_399) ≤ℤ local }
    ensures utc { (instant : ℤ) → SaysStamp (line_text line.entry) instant → result ≤ℤ instant }
{
    let mut first = i64::MAX;
    for text in line.value().split(',') {
        first = first.min(earliest_of(text));
    }
    first
}

/// No local time is earlier, on whatever clock, that is shown at the time that a text is; the greatest number where it is none.
fn earliest_of(text: &str) -> i64
    ensures local { (local : ℤ) → SpellsOnClock text.now local → (result +ℤ pos 86_399) ≤ℤ local }
    ensures utc { (instant : ℤ) → SpellsStamp text.now instant → result ≤ℤ instant }
{
    let local = local_in(text).min(midnight_in(text)) - LEAST_OF_DAY;
    local.min(instant_in(text))
}

/// The local time that a text is; the greatest number where it is none.
fn local_in(text: &str) -> i64
    ensures value { (local : ℤ) → SpellsLocal text.now local → result ≡ local }
    ensures range { negsuc 62_135_596_799 ≤ℤ result }
{
    match LocalTime::read(text) {
        Ok(local) => local.seconds(),
        Err(_) => i64::MAX,
    }
}

/// The local time with which the day begins that a text is; the greatest number where it is none.
fn midnight_in(text: &str) -> i64
    ensures value { (local : ℤ) → SpellsMidnight text.now local → result ≡ local }
    ensures range { negsuc 62_135_596_799 ≤ℤ result }
{
    match read_date(text.as_bytes()) {
        Some(day) => day.number() * DAY_SECONDS as i64,
        None => i64::MAX,
    }
}

/// The instant that a text is in UTC; the greatest number where it is none.
fn instant_in(text: &str) -> i64
    ensures { (instant : ℤ) → SpellsStamp text.now instant → result ≡ instant }
{
    match Stamp::read(text) {
        Ok(stamp) => stamp.instant(),
        Err(_) => i64::MAX,
    }
}

/// The first of the local times of a line. None where one of its texts is none.
fn first_local(line: Line<'_>) -> Option<i64>
    ensures { IfSome result (λ first. (local : ℤ) → SaysLocal (line_text line.entry) local → first ≤ℤ local) }
{
    let mut first = i64::MAX;
    for text in line.value().split(',') {
        let Ok(local) = LocalTime::read(text) else {
            return None;
        };
        first = first.min(local.seconds());
    }
    Some(first)
}

/// Adds local times that name a zone.
fn widen(alloc: Global, uses: &mut Uses, name: &str, more: Use) -> Result<(), AllocError>
    ensures { OnOk result (IsWidened name.now more uses.old.entries uses.new.entries) }
{
    let both = wider(uses.get(name), more);
    let name = String::from_str(alloc, name)?;
    uses.insert(name, both)?;
    Ok(())
}

/// A use that is about the local times of both.
fn wider(earlier: Option<&Use>, more: Use) -> Use
    ensures more { IsAsWide more result }
    ensures earlier { (u : Use) → option_copied earlier.entry ≡ Some u → IsAsWide u result }
{
    let Some(earlier) = earlier else {
        return more;
    };
    Use {
        first: earlier.first.min(more.first),
        last: later(earlier.last, more.last),
    }
}

/// The later of two ends. None where one of them is none.
fn later(one: Option<i64>, other: Option<i64>) -> Option<i64>
    ensures { IfSome result (λ end. EndsEarlier one end × EndsEarlier other end) }
{
    Some(one?.max(other?))
}

/// The end of the local times of a VEVENT, and of those that its rule gives. None where they go on, or it isn't known.
fn event_end(alloc: Global, event: &Component) -> Result<Option<i64>, AllocError>
    ensures { IfOk result (λ found. IfSome found (EventEndsBy (component_lines event.now))) }
{
    let mut last = i64::MIN;
    for line in event.lines() {
        let Some(end) = line_end(alloc, line)? else {
            return Ok(None);
        };
        last = last.max(end);
    }
    Ok(Some(last))
}

/// The end of what a line says of local times: of its own, or of the starts by a rule. None where they go on, where it isn't known, and for a
/// length of nominal days.
fn line_end(alloc: Global, line: Line<'_>) -> Result<Option<i64>, AllocError>
    ensures { IfOk result (λ found. IfSome found (LineEndsBy (line_text line.entry))) }
{
    if line.is_named("RRULE") {
        return rule_end(alloc, line.value());
    }
    if line.is_named("DURATION") {
        return Ok(duration_end(line.value()));
    }
    if is_time_line(line) {
        return Ok(Some(last_local(line)));
    }
    Ok(Some(i64::MIN))
}

/// The end of the local times at which a rule lets an event start. None where it has no UNTIL, or isn't read.
fn rule_end(alloc: Global, text: &str) -> Result<Option<i64>, AllocError>
    ensures { IfOk result (λ found. IfSome found (λ last. (rule : rules.RuleText) × SpellsRule text.now rule × RuleEndsBy rule last)) }
{
    let rule = match RuleText::read(alloc, text) {
        Ok(rule) => rule,
        Err(Fault::Memory) => return Err(AllocError),
        Err(Fault::Refused(_)) => return Ok(None),
    };
    let Some(until) = rule.until() else {
        return Ok(None);
    };
    Ok(Some(until_end(&until)))
}

/// A day after the date or the instant that UNTIL names, two days after a local time: what that means, and a start, differ from their local times by
/// less than a day each.
fn until_end(until: &Until) -> i64
    ensures { (rule : rules.RuleText) → rule.until ≡ Some (until_of until.now) → RuleEndsBy rule result }
{
    let day = DAY_SECONDS as i64;
    match until {
        Until::Date(date) => date.number() as i64 * day + day,
        Until::Local(local) => local.seconds() + 2 * day,
        Until::Utc(stamp) => stamp.instant() + day,
    }
}

/// No end for a length of nominal days, or for one that isn't read; one of seconds alone doesn't matter.
fn duration_end(text: &str) -> Option<i64>
    ensures { IfSome result (λ _. (days seconds : ℕ) → SpellsDuration text.now days seconds → days ≡ 0) }
{
    let Ok(length) = Duration::read(text) else {
        return None;
    };
    if length.days > 0 {
        return None;
    }
    Some(i64::MIN)
}

/// The last of the local times of a line; the least number where it says none.
fn last_local(line: Line<'_>) -> i64
    ensures { (local : ℤ) → SaysLocal (line_text line.entry) local → local ≤ℤ result }
{
    let mut last = i64::MIN;
    for text in line.value().split(',') {
        if let Ok(local) = LocalTime::read(text) {
            last = last.max(local.seconds());
        }
    }
    last
}

/// Whether the values of a line are times: whether it is a DTSTART, DTEND, RECURRENCE-ID, RDATE or EXDATE (RFC 5545 3.8.2, 3.8.4.4, 3.8.5).
pub fn is_time_line(line: Line<'_>) -> bool
    ensures { result ≡ is_time_line (line_text line.entry) }
{
    line.is_named("DTSTART")
        || line.is_named("DTEND")
        || line.is_named("RECURRENCE-ID")
        || line.is_named("RDATE")
        || line.is_named("EXDATE")
}
