//! The parts of a VTIMEZONE, the components named STANDARD or DAYLIGHT directly inside, and their lines DTSTART,
//! TZOFFSETFROM and TZOFFSETTO (RFC 5545 3.6.5).

ghost use Rattle.std.specs.Prelude.{◌≡◌, ℕ, List, ◌∷◌, [], length, find, option_map, Contains, IfSome, IfNone, true, None, Some, IfOk, IfErr, OnOk};
ghost use Rattle.ical_tree.specs.Own.{own_lines, numbered_own};
ghost use Rattle.ical_tree.specs.Tree.{component_name, component_lines, component_children};
ghost use Rattle.profile.specs.text.Lines.{is_same_name};
ghost use Rattle.profile.specs.series.ZoneBlame.{is_offset, PartBlame};
ghost use Rattle.profile.specs.series.ZoneTexts.{is_part, IsFixedLine, IsLocalLine, IsOffsetLine, SaysPartTimes, TimesFault};
ghost use Rattle.cal_zones.specs.Read.{parts_in, zone_parts, StartFault, OffsetFault};
ghost use Rattle.ical_lines.specs.Text.{line_text};
ghost use Rattle.profile.specs.events.Properties.{Says, IsMissing, is_of, is_date_time};
ghost use Rattle.cal_zones.specs.Onsets.{observance_of};

use crate::observance::Observance;
use ical_lines::{Line, Refusal};
use ical_tree::{Component, Properties};
use ical_values::stamp::ends_in_z;
use ical_values::{LocalTime, UtcOffset};

/// Is it a part?
pub(crate) fn is_part(component: &Component) -> bool
    ensures { result ≡ is_part (component_name component.now) }
{
    component.is_named("STANDARD") || component.is_named("DAYLIGHT")
}

/// The first part.
pub(crate) fn first_part<'c, 'a>(zone: &'c Component<'a>) -> Option<&'c Component<'a>>
    ensures { option_map (λ c. c.now) result ≡ find (λ c. is_part (component_name c)) (component_children zone.now) }
{
    zone.children().iter().find(|child| is_part(child))
}

/// The one part, where there is exactly one.
pub(crate) fn only_part<'c, 'a>(zone: &'c Component<'a>) -> Option<&'c Component<'a>>
    ensures found { IfSome result (λ part. zone_parts zone.now ≡ component_lines part.now ∷ []) }
    ensures among { IfSome result (λ part. Contains (component_children zone.now) part.now) }
    ensures none { IfNone result (length (zone_parts zone.now) ≡ 1 → ⊥) }
{
    let mut only = None;
    for child in zone.children() {
        if is_part(child) {
            if only.is_some() {
                return None;
            }
            only = Some(child);
        }
    }
    only
}

/// The one component of that name, where there is exactly one.
pub(crate) fn only_named<'c, 'a>(zone: &'c Component<'a>, name: &str) -> Option<&'c Component<'a>>
    ensures found { IfSome result (λ part.
        parts_in (λ n. is_same_name n name.now) (component_children zone.now) ≡ component_lines part.now ∷ []) }
    ensures among { IfSome result (λ part. Contains (component_children zone.now) part.now) }
    ensures none { IfNone result
        (length (parts_in (λ n. is_same_name n name.now) (component_children zone.now)) ≡ 1 → ⊥) }
{
    let mut found = None;
    for child in zone.children() {
        if child.is_named(name) {
            if found.is_some() {
                return None;
            }
            found = Some(child);
        }
    }
    found
}

/// Refused with 40 where there is such a property, at its first line. Names are compared caseless.
pub(crate) fn check_missing(properties: &Properties<'_>, name: &str) -> Result<(), Refusal>
    ensures missing { OnOk result (IsMissing name.now (own_lines properties.now)) }
    ensures fault { IfErr result (λ e. (e.number ≡ 40) × (IsMissing name.now (own_lines properties.now) → ⊥)) }
    ensures at { IfErr result (λ e. PartBlame (numbered_own properties.now) e.number e.line) }
{
    match first_named(properties, name) {
        Some(line) => Err(Refusal::ZONE_SHAPE.at(line.number())),
        None => Ok(()),
    }
}

/// The first line of that name.
fn first_named<'p, 'a>(properties: &'p Properties<'a>, name: &str) -> Option<&'p Line<'a>>
    ensures { option_map (λ line. line.now) result ≡ find (λ line. is_of name.now (line_text line)) properties.now.lines.items }
{
    properties.lines().iter().find(|line| line.is_named(name))
}

/// Is its value a date-time? It is where VALUE isn't written.
fn is_date_time(line: Line<'_>) -> bool
    ensures { result ≡ is_date_time (line_text line.entry) }
{
    match line.param("VALUE") {
        None => true,
        Some(word) => word.eq_ignore_ascii_case("DATE-TIME"),
    }
}

/// The local time of a line. Refused with 40 where it is in UTC or in a zone, with 11 where it isn't one.
pub fn read_local(line: Line<'_>) -> Result<LocalTime, Refusal>
    ensures says { IfOk result (IsLocalLine (line_text line.entry)) }
    ensures fault { IfErr result (λ e. StartFault (line_text line.entry) e.number) }
    ensures fixed { IfErr result (λ e. IsFixedLine (line_text line.entry) → e.number ≡ 40) }
    ensures at { IfErr result (λ e. e.line ≡ line.entry.number) }
{
    if line.param("TZID").is_some() {
        return Err(Refusal::ZONE_SHAPE.at(line.number()));
    }
    if ends_in_z(line.value()) {
        return Err(Refusal::ZONE_SHAPE.at(line.number()));
    }
    if !is_date_time(line) {
        return Err(Refusal::BAD_DATE_TIME.at(line.number()));
    }
    line.placed(LocalTime::read(line.value()))
}

/// The offset of that name. Refused with 40 where it is missing or occurs twice, with 13 where it isn't one.
pub fn read_offset(properties: &Properties<'_>, name: &str) -> Result<UtcOffset, Refusal>
    ensures says { IfOk result (λ t. Says name.now true IsOffsetLine (own_lines properties.now) (Some t)) }
    ensures fault { IfErr result (λ e. OffsetFault name.now (own_lines properties.now) e.number) }
    ensures at { ((line : List ℕ) → is_of name.now line ≡ true → is_offset line ≡ true)
        → IfErr result (λ e. PartBlame (numbered_own properties.now) e.number e.line) }
{
    let line = properties.required(name, Refusal::ZONE_SHAPE)?;
    line.placed(UtcOffset::read(line.value()))
}

/// The times of a part, as an observance without a rule. Refused with 40 where there is an RDATE, where one of
/// the three is missing or occurs twice, or DTSTART isn't a local time without a zone; with 11 or 13 where a
/// value isn't one.
pub(crate) fn read_times(properties: &Properties<'_>) -> Result<Observance, Refusal>
    ensures says { IfOk result (λ o. SaysPartTimes (own_lines properties.now) (observance_of o)) }
    ensures no_rule { IfOk result (λ o. o.rule ≡ None) }
    ensures fault { IfErr result (λ e. TimesFault (own_lines properties.now) e.number) }
    ensures at { IfErr result (λ e. PartBlame (numbered_own properties.now) e.number e.line) }
{
    check_missing(properties, "RDATE")?;
    let line = properties.required("DTSTART", Refusal::ZONE_SHAPE)?;
    let start = read_local(line)?;
    let from = read_offset(properties, "TZOFFSETFROM")?;
    let to = read_offset(properties, "TZOFFSETTO")?;
    Ok(Observance::new(start, None, from, to))
}
