//! Reading a VTIMEZONE (RFC 5545 3.6.5). It reads parts that all say one offset; one part without a rule;
//! one STANDARD and one DAYLIGHT that each name one day of the year.

ghost use Rattle.std.specs.Prelude.{◌≡◌, ℕ, List, true, false, length, Contains, None, Some, IfOk, IfErr};
ghost use Rattle.ical_lines.specs.Fault.{RefusesBy, RefusesWhere};
ghost use Rattle.ical_tree.specs.Tree.{component_lines, numbered_of, zone_of_component};
ghost use Rattle.profile.specs.text.Trees.{Tree};
ghost use Rattle.profile.specs.series.ZoneBlame.{PartBlame, ZoneBlame};
ghost use Rattle.profile.specs.series.ZoneTexts.{SaysZone, ZoneFault, SaysYearly, SpellsYear, SpellsNoYear, OffsetsDiffer, KeepsOffset, Strays, SaysPartTimes, TimesFault};
ghost use Rattle.cal_zones.specs.Shapes.{rule_named};
ghost use Rattle.cal_zones.specs.Onsets.{observance_of};
ghost use Rattle.cal_zones.specs.Kinds.{zone_of};
ghost use Rattle.cal_zones.specs.Read.{SaysComponentZone, HasZoneFault, zone_parts, SomeTimesFault, YearlyFault, IsShapeFault, SaysSingle, SingleFault};
ghost use Rattle.profile.specs.series.Zones as zones;
ghost use Rattle.profile.specs.events.Properties as lines;

use crate::observance::Observance;
use crate::one_day::day_of_year;
use crate::parts::{check_missing, first_part, is_part, only_named, only_part, read_times};
use crate::yearly::Yearly;
use crate::zone::Zone;
use cal_rules::{RuleText, one_rule};
use ical_lines::{Fault, Refusal};
use ical_tree::{Component, Properties};
use ical_values::local_time::one_local_time;
use ical_values::offset::one_offset;
use std::alloc::Global;

/// A VTIMEZONE says at most one zone, and none where it has a fault. With the contract of `Zone::read`:
/// what is read is the one zone that it says, and what is refused says none.
pub fn one_zone()
    ensures one { (t : Tree) (a b : zones.Zone) → SaysZone t a → SaysZone t b → a ≡ b }
    ensures or_a_fault { (t : Tree) (a : zones.Zone) (n : ℕ) → SaysZone t a → ZoneFault t n → ⊥ }
{
    one_rule();
    one_local_time();
    one_offset();
}

/// The zone that a VTIMEZONE says.
pub(crate) fn read_zone(alloc: Global, zone: &Component) -> Result<Zone, Fault>
    ensures says { IfOk result (λ z. SaysComponentZone zone.now (zone_of z)) }
    ensures fault { IfErr result (RefusesBy (HasZoneFault zone.now)) }
    ensures at { IfErr result (RefusesWhere (ZoneBlame (zone_of_component zone.now))) }
{
    let Some(part) = first_part(zone) else {
        return Err(Fault::Refused(Refusal::ZONE_SHAPE.at(zone.begun())));
    };
    let first = times_of(alloc, part)?;
    if all_keep(alloc, zone, first.offset_from)? {
        return Ok(Zone::keeping(first));
    }
    read_changing(alloc, zone)
}

/// The times of a part. Refused where they are wrong.
fn times_of(alloc: Global, part: &Component) -> Result<Observance, Fault>
    ensures says { IfOk result (λ o. SaysPartTimes (component_lines part.now) (observance_of o)) }
    ensures fault { IfErr result (RefusesBy (TimesFault (component_lines part.now))) }
    ensures at { IfErr result (RefusesWhere (PartBlame (numbered_of part.now))) }
{
    let properties = Properties::of(alloc, part)?;
    Ok(read_times(&properties)?)
}

/// Does a part say only that offset? Refused where its times are wrong.
fn keeps(alloc: Global, part: &Component, offset: i32) -> Result<bool, Fault>
    ensures yes { IfOk result (λ b. b ≡ true → KeepsOffset offset (component_lines part.now)) }
    ensures no { IfOk result (λ b. b ≡ false → Strays offset (component_lines part.now)) }
    ensures fault { IfErr result (RefusesBy (TimesFault (component_lines part.now))) }
    ensures at { IfErr result (RefusesWhere (PartBlame (numbered_of part.now))) }
{
    let times = times_of(alloc, part)?;
    Ok(times.offset_from == offset && times.offset_to == offset)
}

/// Do all parts say only that offset? Refused where the times of one are wrong.
fn all_keep(alloc: Global, zone: &Component, offset: i32) -> Result<bool, Fault>
    ensures yes { IfOk result (λ b. b ≡ true
        → (part : List (List ℕ)) → Contains (zone_parts zone.now) part → KeepsOffset offset part) }
    ensures no { IfOk result (λ b. b ≡ false
        → (part : List (List ℕ)) × Contains (zone_parts zone.now) part × Strays offset part) }
    ensures fault { IfErr result (RefusesBy (SomeTimesFault (zone_parts zone.now))) }
    ensures at { IfErr result (RefusesWhere (ZoneBlame (zone_of_component zone.now))) }
{
    for child in zone.children() {
        if is_part(child) {
            if !keeps(alloc, child, offset)? {
                return Ok(false);
            }
        }
    }
    Ok(true)
}

/// A zone whose offsets differ.
fn read_changing(alloc: Global, zone: &Component) -> Result<Zone, Fault>
    requires { OffsetsDiffer (zone_parts zone.now) }
    ensures says { IfOk result (λ z. SaysComponentZone zone.now (zone_of z)) }
    ensures fault { IfErr result (RefusesBy (HasZoneFault zone.now)) }
    ensures at { IfErr result (RefusesWhere (ZoneBlame (zone_of_component zone.now))) }
{
    match only_part(zone) {
        Some(part) => read_single(alloc, part),
        None => read_pair(alloc, zone),
    }
}

/// The zone of one part. Refused with 40 where it has a rule, with 41 where its offsets are over 12 hours
/// apart, and where its times are wrong.
fn read_single(alloc: Global, part: &Component) -> Result<Zone, Fault>
    ensures says { IfOk result (λ z. SaysSingle (component_lines part.now) (zone_of z)) }
    ensures fault { IfErr result (RefusesBy (SingleFault (component_lines part.now))) }
    ensures at { IfErr result (RefusesWhere (PartBlame (numbered_of part.now))) }
{
    let properties = Properties::of(alloc, part)?;
    let observance = read_times(&properties)?;
    check_missing(&properties, "RRULE")?;
    match Zone::single(observance) {
        Ok(zone) => Ok(zone),
        Err(refusal) => Err(Fault::Refused(refusal.at(part.begun()))),
    }
}

/// The zone of one STANDARD and one DAYLIGHT.
fn read_pair(alloc: Global, zone: &Component) -> Result<Zone, Fault>
    requires differ { OffsetsDiffer (zone_parts zone.now) }
    requires several { length (zone_parts zone.now) ≡ 1 → ⊥ }
    ensures says { IfOk result (λ z. SaysComponentZone zone.now (zone_of z)) }
    ensures fault { IfErr result (RefusesBy (HasZoneFault zone.now)) }
    ensures at { IfErr result (RefusesWhere (ZoneBlame (zone_of_component zone.now))) }
{
    let Some(standard) = only_named(zone, "STANDARD") else {
        return Err(Fault::Refused(Refusal::ZONE_SHAPE.at(zone.begun())));
    };
    let Some(daylight) = only_named(zone, "DAYLIGHT") else {
        return Err(Fault::Refused(Refusal::ZONE_SHAPE.at(zone.begun())));
    };
    let first = read_yearly(alloc, standard)?;
    let second = read_yearly(alloc, daylight)?;
    match Zone::pair(first, second) {
        Ok(zone) => Ok(zone),
        Err(refusal) => {
            // they contradict each other: the later one is where that is seen
            let later = standard.begun().max(daylight.begun());
            Err(Fault::Refused(refusal.at(later)))
        }
    }
}

/// A part that begins on one day every year. Refused where its times are wrong, and with 40 where RRULE is missing, occurs twice
/// or names no one day of the year.
fn read_yearly(alloc: Global, part: &Component) -> Result<Observance, Fault>
    ensures says { IfOk result (λ o. SaysYearly (component_lines part.now) (observance_of o)) }
    ensures has_rule { IfOk result (λ o. o.rule ≡ None → ⊥) }
    ensures fault { IfErr result (RefusesBy (YearlyFault (component_lines part.now))) }
    ensures at { IfErr result (RefusesWhere (PartBlame (numbered_of part.now))) }
{
    let properties = Properties::of(alloc, part)?;
    let mut observance = read_times(&properties)?;
    let line = properties.required("RRULE", Refusal::ZONE_SHAPE)?;
    let rule = line.placed_fault(read_year(alloc, line.value()))?;
    observance.rule = Some(rule);
    Ok(observance)
}

/// The one day of the year that the text of a rule names. Refused with 40 where it names none.
pub(crate) fn read_year(alloc: Global, text: &str) -> Result<Yearly, Fault>
    ensures says { IfOk result (λ r. SpellsYear text.now (rule_named r.month r.days)) }
    ensures fault { IfErr result (RefusesBy (λ n. (n ≡ 40) × SpellsNoYear text.now)) }
{
    let rule = match RuleText::read(alloc, text) {
        Ok(rule) => rule,
        Err(fault) => return Err(shape_fault(fault)),
    };
    Ok(day_of_year(&rule).ok_or(Refusal::ZONE_SHAPE)?)
}

/// What is wrong with a rule is a shape that isn't supported.
fn shape_fault(fault: Fault) -> Fault
    ensures { IsShapeFault fault result }
{
    match fault {
        Fault::Memory => Fault::Memory,
        Fault::Refused(_) => Fault::Refused(Refusal::ZONE_SHAPE),
    }
}
