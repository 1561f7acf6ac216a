//! What of a VTIMEZONE is in the way of a room that reads it: the part, STANDARD or DAYLIGHT, and the line of it (RFC 5545 3.6.5).

ghost use Rattle.std.specs.Prelude.{◌≡◌, ◌⊎◌, ◌<◌, ◌+◌, ◌∷◌, ℕ, List, [], Some, None, true, false, drop, length, Contains, IfOk, IfSome, IfNone};
ghost use Rattle.ical_lines.specs.Text.{line_text};
ghost use Rattle.ical_tree.specs.Runs.{lines_left};
ghost use Rattle.ical_tree.specs.Tree.{component_name, component_lines};
ghost use Rattle.profile.specs.events.Properties.{IsMissing, lines_named};
ghost use Rattle.profile.specs.series.ZoneTexts.{IsFixedLine, TimesFault, is_part};
ghost use Rattle.cal_zones.specs.Read.{HasZoneFault, zone_parts};
ghost use Rattle.fault_places.specs.Obstacles.{HasFar, HasRuleCause, HasUnmatched, IsCause, IsFirstLine, IsLonely, IsLocalOnce, IsOnce, IsNthPart, IsRuleCause, IsSecondLine, IsTextCause, IsTimesCause, missing_words, named, parts_named, text_of, time_name, twice_words, words_of};

use cal_rules::RuleText;
use cal_zones::day_named;
use ical_lines::{Fault, Line};
use ical_tree::{Component, OwnLines};
use ical_values::UtcOffset;
use ical_values::stamp::ends_in_z;
use std::alloc::{AllocError, Global};

/// What is in the way.
#[derive(Clone, Copy, PartialEq, Eq)]
pub enum Obstacle {
    /// There is neither STANDARD nor DAYLIGHT.
    NoPart,
    /// RDATE.
    Dates,
    /// A property that isn't there.
    Missing(PartTime),
    /// One that occurs twice.
    Twice(PartTime),
    /// DTSTART isn't local.
    Fixed,
    /// RRULE of the only part.
    RuledAlone,
    /// It is the second part of its name.
    Second,
    /// No RRULE, beside another part.
    NoRule,
    TwoRules,
    /// UNTIL in RRULE.
    Until,
    /// COUNT in RRULE.
    Count,
    /// RRULE isn't of one day of every year.
    OtherRule,
    /// TZOFFSETFROM and TZOFFSETTO are more than 12 hours apart.
    FarApart,
    /// TZOFFSETFROM isn't the TZOFFSETTO of the other part.
    Unmatched,
    /// It begins less than two days from the other part.
    Close,
}

/// A property that a part has once.
#[derive(Clone, Copy, PartialEq, Eq)]
pub enum PartTime {
    Start,
    From,
    To,
}

/// What of a part is in the way.
#[derive(Clone, Copy)]
pub(crate) struct Cause<'a> {
    pub(crate) obstacle: Obstacle,
    /// The text of its line; None where it is the part itself.
    pub(crate) line: Option<&'a str>,
}

/// What of a VTIMEZONE is in the way.
#[derive(Clone, Copy)]
pub(crate) struct PartCause<'c, 'a> {
    /// The part, or the VTIMEZONE itself.
    pub(crate) component: &'c Component<'a>,
    pub(crate) cause: Cause<'c>,
}

/// A part of a VTIMEZONE, by its place among the components inside.
#[derive(Clone, Copy)]
struct Part<'c, 'a> {
    place: usize,
    component: &'c Component<'a>,
}

/// The greatest difference between the offsets of a zone, in seconds.
const HALF_DAY: u32 = 43_200;

/// What is in the way of a VTIMEZONE that is refused with this number, from 40 to 42.
pub(crate) fn cause_in<'c, 'a>(
    alloc: Global,
    zone: &'c Component<'a>,
    number: u8,
) -> Result<Option<PartCause<'c, 'a>>, AllocError>
    requires { HasZoneFault zone.now number }
    ensures { IfOk result (λ found. IfSome found (IsCause zone.now number)) }
{
    match number {
        40 => shape_cause(alloc, zone),
        41 => Ok(offsets_cause(zone)),
        42 => Ok(close_cause(zone)),
        _ => Ok(None),
    }
}

/// What is in the way of one that is refused for its shape: the times of a part come before the other parts, and those before their rules.
fn shape_cause<'c, 'a>(
    alloc: Global,
    zone: &'c Component<'a>,
) -> Result<Option<PartCause<'c, 'a>>, AllocError>
    requires { HasZoneFault zone.now 40 }
    ensures { IfOk result (λ found. IfSome found (IsCause zone.now 40)) }
{
    if let Some(found) = first_times_cause(zone) {
        return Ok(Some(found));
    }
    if let Some(part) = second_part(zone, "STANDARD") {
        return Ok(Some(part.itself(Obstacle::Second)));
    }
    if let Some(part) = second_part(zone, "DAYLIGHT") {
        return Ok(Some(part.itself(Obstacle::Second)));
    }
    let Some(standard) = first_part(zone, "STANDARD") else {
        return Ok(lonely_cause(zone, "DAYLIGHT"));
    };
    let Some(daylight) = first_part(zone, "DAYLIGHT") else {
        return Ok(lonely_cause(zone, "STANDARD"));
    };
    rules_cause(alloc, standard, daylight)
}

/// What is in the way of the times of the first part where something is.
fn first_times_cause<'c, 'a>(zone: &'c Component<'a>) -> Option<PartCause<'c, 'a>>
    ensures found { IfSome result (IsCause zone.now 40) }
    ensures none { IfNone result ((part : List (List ℕ)) → Contains (zone_parts zone.now) part → TimesFault part 40 → ⊥) }
{
    for (place, component) in zone.children().iter().enumerate() {
        if is_part(component) {
            if let Some(cause) = times_cause(component) {
                return Some(Part { place, component }.with(cause));
            }
        }
    }
    None
}

/// RDATE, or DTSTART, TZOFFSETFROM or TZOFFSETTO of a part.
fn times_cause<'c>(part: &'c Component) -> Option<Cause<'c>>
    ensures found { IfSome result (λ cause. IsTimesCause (component_lines part.now) cause.obstacle (text_of cause.line)) }
    ensures none { IfNone result (TimesFault (component_lines part.now) 40 → ⊥) }
{
    if let Some(line) = first_line(part, "RDATE") {
        return Some(Cause::at(Obstacle::Dates, line));
    }
    if let Some(cause) = start_cause(part) {
        return Some(cause);
    }
    if let Some(cause) = once_cause(part, PartTime::From) {
        return Some(cause);
    }
    once_cause(part, PartTime::To)
}

/// DTSTART of a part, where it isn't there once, or isn't local.
fn start_cause<'c>(part: &'c Component) -> Option<Cause<'c>>
    ensures found { IfSome result (λ cause. IsTimesCause (component_lines part.now) cause.obstacle (text_of cause.line)) }
    ensures none { IfNone result (IsLocalOnce (component_lines part.now)) }
{
    if let Some(cause) = once_cause(part, PartTime::Start) {
        return Some(cause);
    }
    let line = first_line(part, "DTSTART")?;
    if !is_fixed(line) {
        return None;
    }
    Some(Cause::at(Obstacle::Fixed, line))
}

/// A property of a part, where it isn't there once.
fn once_cause<'c>(part: &'c Component, time: PartTime) -> Option<Cause<'c>>
    ensures found { IfSome result (λ cause. IsTimesCause (component_lines part.now) cause.obstacle (text_of cause.line)) }
    ensures none { IfNone result (IsOnce (time_name time) (component_lines part.now)) }
{
    if first_line(part, time.name()).is_none() {
        return Some(Cause::itself(Obstacle::Missing(time)));
    }
    let line = second_line(part, time.name())?;
    Some(Cause::at(Obstacle::Twice(time), line))
}

/// Whether a time is in UTC or in a zone.
fn is_fixed(line: Line<'_>) -> bool
    ensures yes { result ≡ true → IsFixedLine (line_text line.entry) }
    ensures no { result ≡ false → IsFixedLine (line_text line.entry) → ⊥ }
{
    ends_in_z(line.value()) || line.param("TZID").is_some()
}

/// What is in the way where there is no part of the other name: the RRULE of the one part; or that there is no part.
fn lonely_cause<'c, 'a>(zone: &'c Component<'a>, name: &str) -> Option<PartCause<'c, 'a>>
    ensures { IfSome result (IsLonely zone.now name.now) }
{
    let Some(part) = first_part(zone, name) else {
        return Some(PartCause {
            component: zone,
            cause: Cause::itself(Obstacle::NoPart),
        });
    };
    let line = first_line(part.component, "RRULE")?;
    Some(part.with(Cause::at(Obstacle::RuledAlone, line)))
}

/// What is in the way of the rule of one of two parts.
fn rules_cause<'c, 'a>(
    alloc: Global,
    standard: Part<'c, 'a>,
    daylight: Part<'c, 'a>,
) -> Result<Option<PartCause<'c, 'a>>, AllocError>
    ensures { IfOk result (λ found. IfSome found (λ cause. HasRuleCause standard.entry.component.now cause ⊎ HasRuleCause daylight.entry.component.now cause)) }
{
    if let Some(cause) = rule_cause(alloc, standard.component)? {
        return Ok(Some(standard.with(cause)));
    }
    if let Some(cause) = rule_cause(alloc, daylight.component)? {
        return Ok(Some(daylight.with(cause)));
    }
    Ok(None)
}

/// What is in the way of the rule of a part.
fn rule_cause<'c>(alloc: Global, part: &'c Component) -> Result<Option<Cause<'c>>, AllocError>
    ensures { IfOk result (λ found. IfSome found (λ cause. IsRuleCause (component_lines part.now) cause.obstacle (text_of cause.line))) }
{
    let Some(line) = first_line(part, "RRULE") else {
        return Ok(Some(Cause::itself(Obstacle::NoRule)));
    };
    if let Some(second) = second_line(part, "RRULE") {
        return Ok(Some(Cause::at(Obstacle::TwoRules, second)));
    }
    let Some(obstacle) = rule_obstacle(alloc, line.value())? else {
        return Ok(None);
    };
    Ok(Some(Cause::at(obstacle, line)))
}

/// What is in the way in the text of a rule.
fn rule_obstacle(alloc: Global, text: &str) -> Result<Option<Obstacle>, AllocError>
    ensures { IfOk result (λ found. IfSome found (IsTextCause text.now)) }
{
    let rule = match RuleText::read(alloc, text) {
        Ok(rule) => rule,
        Err(Fault::Memory) => return Err(AllocError),
        Err(Fault::Refused(_)) => return Ok(Some(Obstacle::OtherRule)),
    };
    if rule.until().is_some() {
        return Ok(Some(Obstacle::Until));
    }
    if rule.count().is_some() {
        return Ok(Some(Obstacle::Count));
    }
    if day_named(&rule).is_none() {
        return Ok(Some(Obstacle::OtherRule));
    }
    Ok(None)
}

/// What is in the way of a VTIMEZONE whose offsets don't match.
fn offsets_cause<'c, 'a>(zone: &'c Component<'a>) -> Option<PartCause<'c, 'a>>
    ensures { IfSome result (IsCause zone.now 41) }
{
    let Some(standard) = first_part(zone, "STANDARD") else {
        return far_cause(first_part(zone, "DAYLIGHT")?);
    };
    let Some(daylight) = first_part(zone, "DAYLIGHT") else {
        return far_cause(standard);
    };
    if let Some(found) = unmatched_cause(standard, daylight) {
        return Some(found);
    }
    if let Some(found) = unmatched_cause(daylight, standard) {
        return Some(found);
    }
    far_cause(standard)
}

/// TZOFFSETFROM of a part, where it isn't the TZOFFSETTO of the other part.
fn unmatched_cause<'c, 'a>(part: Part<'c, 'a>, other: Part<'c, 'a>) -> Option<PartCause<'c, 'a>>
    ensures { IfSome result (HasUnmatched part.entry.component.now other.entry.component.now) }
{
    let line = first_line(part.component, "TZOFFSETFROM")?;
    let others = first_line(other.component, "TZOFFSETTO")?;
    let from = UtcOffset::read(line.value()).ok()?;
    let to = UtcOffset::read(others.value()).ok()?;
    if from.seconds() == to.seconds() {
        return None;
    }
    Some(part.with(Cause::at(Obstacle::Unmatched, line)))
}

/// TZOFFSETTO of a part, where it is more than 12 hours from its TZOFFSETFROM.
fn far_cause<'c, 'a>(part: Part<'c, 'a>) -> Option<PartCause<'c, 'a>>
    ensures { IfSome result (HasFar part.entry.component.now) }
{
    let line = first_line(part.component, "TZOFFSETTO")?;
    let others = first_line(part.component, "TZOFFSETFROM")?;
    let to = UtcOffset::read(line.value()).ok()?;
    let from = UtcOffset::read(others.value()).ok()?;
    if to.seconds().abs_diff(from.seconds()) <= HALF_DAY {
        return None;
    }
    Some(part.with(Cause::at(Obstacle::FarApart, line)))
}

/// DAYLIGHT, where it begins too close to STANDARD.
fn close_cause<'c, 'a>(zone: &'c Component<'a>) -> Option<PartCause<'c, 'a>>
    ensures { IfSome result (IsCause zone.now 42) }
{
    let part = first_part(zone, "DAYLIGHT")?;
    Some(part.itself(Obstacle::Close))
}

/// Whether a component is a part.
fn is_part(component: &Component) -> bool
    ensures { result ≡ is_part (component_name component.now) }
{
    component.is_named("STANDARD") || component.is_named("DAYLIGHT")
}

/// The first STANDARD or DAYLIGHT, by its name.
fn first_part<'c, 'a>(zone: &'c Component<'a>, name: &str) -> Option<Part<'c, 'a>>
    ensures found { IfSome result (λ part. IsNthPart zone.now name.now 0 part.component.now) }
    ensures none { IfNone result (parts_named zone.now name.now ≡ []) }
{
    first_named(zone.children(), name)
}

/// The second one.
fn second_part<'c, 'a>(zone: &'c Component<'a>, name: &str) -> Option<Part<'c, 'a>>
    ensures found { IfSome result (λ part. IsNthPart zone.now name.now 1 part.component.now) }
    ensures none { IfNone result (drop 1 (parts_named zone.now name.now) ≡ []) }
{
    let first = first_named(zone.children(), name)?;
    let later = first.place + 1;
    let second = first_named(&zone.children()[later..], name)?;
    Some(Part {
        place: later + second.place,
        component: second.component,
    })
}

/// The first of some components that has this name.
fn first_named<'c, 'a>(components: &'c [Component<'a>], name: &str) -> Option<Part<'c, 'a>>
    ensures place { IfSome result (λ part. part.place < length components.now) }
    ensures found { IfSome result (λ part. named name.now components.now ≡ part.component.now ∷ named name.now (drop (part.place + 1) components.now)) }
    ensures none { IfNone result (named name.now components.now ≡ []) }
{
    for (place, component) in components.iter().enumerate() {
        if component.is_named(name) {
            return Some(Part { place, component });
        }
    }
    None
}

/// The first line of a property.
pub(crate) fn first_line<'c>(part: &'c Component, name: &str) -> Option<Line<'c>>
    ensures found { IfSome result (λ line. IsFirstLine name.now (component_lines part.now) (line_text line)) }
    ensures none { IfNone result (IsMissing name.now (component_lines part.now)) }
{
    let mut lines = part.lines();
    next_line(&mut lines, name)
}

/// The second one.
pub(crate) fn second_line<'c>(part: &'c Component, name: &str) -> Option<Line<'c>>
    ensures found { IfSome result (λ line. IsSecondLine name.now (component_lines part.now) (line_text line)) }
    ensures none { IfNone result (drop 1 (lines_named name.now (component_lines part.now)) ≡ []) }
{
    let mut lines = part.lines();
    next_line(&mut lines, name)?;
    next_line(&mut lines, name)
}

/// The next line of a property; those up to it are taken.
fn next_line<'c>(lines: &mut OwnLines<'c>, name: &str) -> Option<Line<'c>>
    ensures found { IfSome result (λ line. lines_named name.now (lines_left lines.old) ≡ line_text line ∷ lines_named name.now (lines_left lines.new)) }
    ensures none { IfNone result (lines_named name.now (lines_left lines.old) ≡ []) }
{
    while let Some(line) = lines.next() {
        if line.is_named(name) {
            return Some(line);
        }
    }
    None
}

impl Obstacle {
    /// What it is, in words that follow the name of the part.
    pub fn words(self) -> &'static str
        ensures { result.now ≡ words_of self }
    {
        match self {
            Obstacle::NoPart => "neither STANDARD nor DAYLIGHT is in it.",
            Obstacle::Dates => "it has RDATE.",
            Obstacle::Missing(time) => time.missing_words(),
            Obstacle::Twice(time) => time.twice_words(),
            Obstacle::Fixed => "its DTSTART isn't local: it ends in Z or has TZID.",
            Obstacle::RuledAlone => "it has RRULE, and no other part is there.",
            Obstacle::Second => "it is a second part of that name.",
            Obstacle::NoRule => "it has no RRULE, and another part is there.",
            Obstacle::TwoRules => "RRULE occurs twice in it.",
            Obstacle::Until => "its RRULE has UNTIL.",
            Obstacle::Count => "its RRULE has COUNT.",
            Obstacle::OtherRule => "its RRULE isn't of a form that is read.",
            Obstacle::FarApart => "its TZOFFSETFROM and TZOFFSETTO are more than 12 hours apart.",
            Obstacle::Unmatched => "its TZOFFSETFROM isn't the TZOFFSETTO of the other part.",
            Obstacle::Close => "it begins less than two days before or after the other part.",
        }
    }
}

impl PartTime {
    /// Of one that isn't there.
    fn missing_words(self) -> &'static str
        ensures { result.now ≡ missing_words self }
    {
        match self {
            PartTime::Start => "it has no DTSTART.",
            PartTime::From => "it has no TZOFFSETFROM.",
            PartTime::To => "it has no TZOFFSETTO.",
        }
    }

    /// Of one that occurs twice.
    fn twice_words(self) -> &'static str
        ensures { result.now ≡ twice_words self }
    {
        match self {
            PartTime::Start => "DTSTART occurs twice in it.",
            PartTime::From => "TZOFFSETFROM occurs twice in it.",
            PartTime::To => "TZOFFSETTO occurs twice in it.",
        }
    }

    /// Its property.
    pub(crate) fn name(self) -> &'static str
        ensures { result.now ≡ time_name self }
    {
        match self {
            PartTime::Start => "DTSTART",
            PartTime::From => "TZOFFSETFROM",
            PartTime::To => "TZOFFSETTO",
        }
    }
}

impl<'a> Cause<'a> {
    /// A line of a part.
    fn at(obstacle: Obstacle, line: Line<'a>) -> Cause<'a>
        ensures obstacle { result.obstacle ≡ obstacle }
        ensures line { text_of result.line ≡ Some (line_text line.entry) }
    {
        Cause {
            obstacle,
            line: Some(line.text()),
        }
    }

    /// A part itself.
    fn itself(obstacle: Obstacle) -> Cause<'a>
        ensures obstacle { result.obstacle ≡ obstacle }
        ensures line { text_of result.line ≡ None }
    {
        Cause {
            obstacle,
            line: None,
        }
    }
}

impl<'c, 'a> Part<'c, 'a> {
    /// With what of it is in the way.
    fn with(self, cause: Cause<'c>) -> PartCause<'c, 'a>
        ensures component { result.component.now ≡ self.entry.component.now }
        ensures cause { result.cause ≡ cause.entry }
    {
        PartCause {
            component: self.component,
            cause,
        }
    }

    /// Which is in the way itself.
    fn itself(self, obstacle: Obstacle) -> PartCause<'c, 'a>
        ensures component { result.component.now ≡ self.entry.component.now }
        ensures obstacle { result.cause.obstacle ≡ obstacle }
        ensures line { text_of result.cause.line ≡ None }
    {
        self.with(Cause::itself(obstacle))
    }
}
