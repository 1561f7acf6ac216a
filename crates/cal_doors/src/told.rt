//! Whether an answer in other words is right: it is read again, and compared line by line.

ghost use Rattle.std.specs.Prelude.{◌≡◌, ℕ, List, true, Contains, codes, Some, IfOk};
ghost use Rattle.std.specs.List.{AllZip};
ghost use Rattle.ical_lines.specs.Text.{line_text};
ghost use Rattle.ical_tree.specs.Runs.{lines_left};
ghost use Rattle.ical_tree.specs.Tree.{tree_of};
ghost use Rattle.profile.specs.text.Lines.{line_name, line_value, line_param};
ghost use Rattle.profile.specs.text.Trees.{Tree};
ghost use Rattle.profile.specs.events.Properties.{time_kind};
ghost use Rattle.profile.specs.doors.Uses.{is_time_line, IsLineIn};
ghost use Rattle.profile.specs.doors.Returning.{TellsSame};
ghost use Rattle.cal_doors.specs.Named.{AreNamed};
ghost use Rattle.cal_doors.specs.Told.{AreWordsOf, BeginsWithEvent, events_among, HasItsZone, TellsAnswer};

use crate::named::NamedZones;
use crate::readable::{object_of, text_of};
use crate::uses::is_time_line;
use crate::words::Words;
use ical_lines::Line;
use ical_tree::{Component, OwnLines};
use std::alloc::{AllocError, Global};

/// Whether octets are an answer told in other words: with its lines, those of its VEVENTs told so, and with the zones that these name.
pub(crate) fn is_told(
    alloc: Global,
    octets: &[u8],
    told: &Component,
    asked: &NamedZones<'_, '_>,
    read: &NamedZones<'_, '_>,
    words: &Words<'_>,
) -> Result<bool, AllocError>
    requires asked { AreNamed asked.now }
    requires read { AreNamed read.now }
    requires words { AreWordsOf (tree_of read.now.object.now) (tree_of told.now) words.now }
    ensures { IfOk result (λ right. right ≡ true
        → TellsAnswer (tree_of asked.now.object.now) (tree_of read.now.object.now) (tree_of told.now) octets.now) }
{
    let Some(text) = text_of(alloc, octets)? else {
        return Ok(false);
    };
    let Some(given) = object_of(alloc, &text)? else {
        return Ok(false);
    };
    let zones = NamedZones::of(alloc, &given)?;
    let events = given.children();
    if !given.has_same_lines(told) || !are_told(told.children(), events, words) {
        return Ok(false);
    }
    Ok(have_zones(events, &zones, asked, read))
}

/// Whether the VEVENTs among components are told by those among others.
fn are_told(told: &[Component], given: &[Component], words: &Words<'_>) -> bool
    ensures { result ≡ true → (read answer : Tree) → AreWordsOf read answer words.now
        → AllZip (AllZip (TellsSame read answer)) (events_among told.now) (events_among given.now) }
{
    let mut left = given;
    for event in told {
        if !event.is_named("VEVENT") {
            continue;
        }
        left = from_event(left);
        let [first, later @ ..] = left else {
            return false;
        };
        if !are_told_lines(event.lines(), first.lines(), words) {
            return false;
        }
        left = later;
    }
    from_event(left).is_empty()
}

/// What is left from the first VEVENT on.
pub(crate) fn from_event<'s, 'a>(components: &'s [Component<'a>]) -> &'s [Component<'a>]
    ensures { BeginsWithEvent components.now result.now }
{
    let mut left = components;
    while let [first, later @ ..] = left {
        if first.is_named("VEVENT") {
            return left;
        }
        left = later;
    }
    left
}

/// Whether lines are told by others, one by one.
#[tactic(auto, using(crate::proofs::ToldWords::zip_end))]
fn are_told_lines(lines: OwnLines<'_>, others: OwnLines<'_>, words: &Words<'_>) -> bool
    ensures { result ≡ true → (read answer : Tree) → AreWordsOf read answer words.now
        → AllZip (TellsSame read answer) (lines_left lines.entry) (lines_left others.entry) }
{
    let mut others = others;
    for line in lines {
        let Some(other) = others.next() else {
            return false;
        };
        if !is_told_line(line, other, words) {
            return false;
        }
    }
    others.next().is_none()
}

/// Whether a line is told by another.
fn is_told_line(line: Line<'_>, other: Line<'_>, words: &Words<'_>) -> bool
    ensures { result ≡ true → (read answer : Tree) → AreWordsOf read answer words.now → TellsSame read answer (line_text line.entry) (line_text other.entry) }
{
    is_kept(line, other) || is_its_instance(line, other, words) || is_in_zone(line, other, words)
}

/// Whether a line names no zone, and stays as it is.
#[tactic(auto, using(crate::proofs::ToldWords::told_kept))]
fn is_kept(line: Line<'_>, other: Line<'_>) -> bool
    ensures { result ≡ true → (read answer : Tree) → TellsSame read answer (line_text line.entry) (line_text other.entry) }
{
    line.text() == other.text() && line.param("TZID").is_none()
}

/// Whether a line names an instance, and the other one is the line of the object for it.
fn is_its_instance(line: Line<'_>, other: Line<'_>, words: &Words<'_>) -> bool
    ensures { result ≡ true → (read answer : Tree) → AreWordsOf read answer words.now → TellsSame read answer (line_text line.entry) (line_text other.entry) }
{
    match words.instance(line) {
        Some(text) => text == other.text(),
        None => false,
    }
}

/// Whether two lines say the same times, in a zone that is the same under both names.
fn is_in_zone(line: Line<'_>, other: Line<'_>, words: &Words<'_>) -> bool
    ensures { result ≡ true → (read answer : Tree) → AreWordsOf read answer words.now → TellsSame read answer (line_text line.entry) (line_text other.entry) }
{
    if !is_time_line(line) || !has_same_parts(line, other) {
        return false;
    }
    let Some(name) = line.param("TZID") else {
        return false;
    };
    let Some(new) = other.param("TZID") else {
        return false;
    };
    words.is_same_zone(name, new)
}

/// Whether two lines have the same name, the same value, and the same VALUE.
#[tactic(auto, using(crate::proofs::ToldWords::same_kind))]
fn has_same_parts(line: Line<'_>, other: Line<'_>) -> bool
    ensures name { result ≡ true → line_name (line_text other.entry) ≡ line_name (line_text line.entry) }
    ensures value { result ≡ true → line_value (line_text other.entry) ≡ line_value (line_text line.entry) }
    ensures kind { result ≡ true → time_kind (line_text other.entry) ≡ time_kind (line_text line.entry) }
{
    line.name() == other.name()
        && line.value() == other.value()
        && line.param("VALUE") == other.param("VALUE")
}

/// Whether each zone that the VEVENTs among components name is the one asked for, or the one that is read in its place.
fn have_zones(
    components: &[Component],
    zones: &NamedZones<'_, '_>,
    asked: &NamedZones<'_, '_>,
    read: &NamedZones<'_, '_>,
) -> bool
    requires zones { AreNamed zones.now }
    requires asked { AreNamed asked.now }
    requires read { AreNamed read.now }
    ensures { result ≡ true → (name line : List ℕ) (lines : List (List ℕ)) → Contains (events_among components.now) lines → IsLineIn name lines line
        → HasItsZone (tree_of zones.now.object.now) (tree_of asked.now.object.now) (tree_of read.now.object.now) name }
{
    for component in components {
        if component.is_named("VEVENT") && !has_zones(component.lines(), zones, asked, read) {
            return false;
        }
    }
    true
}

/// Whether the zones that some lines name are there.
fn has_zones(
    lines: OwnLines<'_>,
    zones: &NamedZones<'_, '_>,
    asked: &NamedZones<'_, '_>,
    read: &NamedZones<'_, '_>,
) -> bool
    requires zones { AreNamed zones.now }
    requires asked { AreNamed asked.now }
    requires read { AreNamed read.now }
    ensures { result ≡ true → (name line : List ℕ) → IsLineIn name (lines_left lines.entry) line
        → HasItsZone (tree_of zones.now.object.now) (tree_of asked.now.object.now) (tree_of read.now.object.now) name }
{
    for line in lines {
        if !has_zone(line, zones, asked, read) {
            return false;
        }
    }
    true
}

/// Whether the zone that a line names is there, if it is one of times.
fn has_zone(
    line: Line<'_>,
    zones: &NamedZones<'_, '_>,
    asked: &NamedZones<'_, '_>,
    read: &NamedZones<'_, '_>,
) -> bool
    requires zones { AreNamed zones.now }
    requires asked { AreNamed asked.now }
    requires read { AreNamed read.now }
    ensures { result ≡ true → (name : List ℕ) → is_time_line (line_text line.entry) ≡ true → line_param (codes "TZID") (line_text line.entry) ≡ Some name
        → HasItsZone (tree_of zones.now.object.now) (tree_of asked.now.object.now) (tree_of read.now.object.now) name }
{
    if !is_time_line(line) {
        return true;
    }
    match line.param("TZID") {
        Some(name) => is_its_zone(name, zones, asked, read),
        None => true,
    }
}

/// Whether a name means the VTIMEZONE that is asked for; where there is none, the one that is read.
fn is_its_zone(
    name: &str,
    zones: &NamedZones<'_, '_>,
    asked: &NamedZones<'_, '_>,
    read: &NamedZones<'_, '_>,
) -> bool
    requires zones { AreNamed zones.now }
    requires asked { AreNamed asked.now }
    requires read { AreNamed read.now }
    ensures { result ≡ true → HasItsZone (tree_of zones.now.object.now) (tree_of asked.now.object.now) (tree_of read.now.object.now) name.now }
{
    let Some(zone) = zones.named(name) else {
        return false;
    };
    if let Some(its) = asked.named(name) {
        return zone.is_same(its);
    }
    match read.named(name) {
        Some(its) => zone.is_same(its),
        None => false,
    }
}
