//! An answer in other words. Nothing is said of what comes out: it is read again, and judged (`is_told`).

ghost use Rattle.cal_doors.specs.Named.{AreNamed};

use crate::named::NamedZones;
use crate::uses::is_time_line;
use crate::words::Words;
use ical_lines::{Line, write_line, write_property};
use ical_tree::{Component, write_object};
use indexmap::IndexMap;
use std::alloc::{AllocError, Global};

/// Names of zones, in the order in which they are used.
pub(crate) type Names = IndexMap<String, ()>;

/// The answer in the words of an object, with the VTIMEZONEs that it then names; those of the original come first. None where nothing is told in
/// other words, or a line can't be.
pub(crate) fn retold(
    alloc: Global,
    told: &Component,
    asked: &NamedZones<'_, '_>,
    read: &NamedZones<'_, '_>,
    words: &Words<'_>,
) -> Result<Option<Vec<u8>>, AllocError>
    requires asked { AreNamed asked.now }
    requires read { AreNamed read.now }
{
    let mut events = Events {
        out: Vec::new(alloc),
        zones: IndexMap::new(alloc),
        is_changed: false,
    };
    for child in told.children() {
        if !events.take_component(alloc, child, words)? {
            return Ok(None);
        }
    }
    if !events.is_changed {
        return Ok(None);
    }
    let mut out = Vec::new(alloc);
    write_property(&mut out, "BEGIN", told.name())?;
    write_lines(told, &mut out)?;
    for (name, _) in events.zones.iter() {
        write_zone(name.as_str(), asked, read, &mut out)?;
    }
    out.extend_from_slice(events.out.as_slice())?;
    write_property(&mut out, "END", told.name())?;
    Ok(Some(out))
}

/// Writes a component's own lines.
pub(crate) fn write_lines(component: &Component, out: &mut Vec<u8>) -> Result<(), AllocError> {
    for line in component.lines() {
        write_line(out, line.text())?;
    }
    Ok(())
}

/// Writes the VTIMEZONE that a name means: the one asked for, or the one that is read.
fn write_zone(
    name: &str,
    asked: &NamedZones<'_, '_>,
    read: &NamedZones<'_, '_>,
    out: &mut Vec<u8>,
) -> Result<(), AllocError>
    requires asked { AreNamed asked.now }
    requires read { AreNamed read.now }
{
    if let Some(zone) = asked.named(name) {
        return write_object(zone, out);
    }
    match read.named(name) {
        Some(zone) => write_object(zone, out),
        None => Ok(()),
    }
}

/// The components of the answer but for its VTIMEZONEs, as far as they are told.
#[derive(Drop)]
struct Events {
    out: Vec<u8>,
    /// The zones that are named.
    zones: Names,
    /// Something was told in other words.
    is_changed: bool,
}

impl Events {
    /// Takes a component that is directly inside the answer. False where it can't be told.
    fn take_component(
        &mut self,
        alloc: Global,
        component: &Component,
        words: &Words<'_>,
    ) -> Result<bool, AllocError> {
        if component.is_named("VTIMEZONE") {
            return Ok(true);
        }
        if component.is_named("VEVENT") {
            return self.take_event(alloc, component, words);
        }
        write_object(component, &mut self.out)?;
        Ok(true)
    }

    /// Takes a VEVENT. False where it can't be told.
    fn take_event(
        &mut self,
        alloc: Global,
        event: &Component,
        words: &Words<'_>,
    ) -> Result<bool, AllocError> {
        write_property(&mut self.out, "BEGIN", event.name())?;
        for line in event.lines() {
            if !self.take_line(alloc, line, words)? {
                return Ok(false);
            }
        }
        for child in event.children() {
            write_object(child, &mut self.out)?;
        }
        write_property(&mut self.out, "END", event.name())?;
        Ok(true)
    }

    /// Takes a line of a VEVENT. False where it can't be told.
    fn take_line(
        &mut self,
        alloc: Global,
        line: Line<'_>,
        words: &Words<'_>,
    ) -> Result<bool, AllocError> {
        if let Some(text) = words.instance(line) {
            self.put(alloc, line, text)?;
            return Ok(true);
        }
        let Some(name) = line.param("TZID") else {
            write_line(&mut self.out, line.text())?;
            return Ok(true);
        };
        if !is_time_line(line) {
            return Ok(false);
        }
        let Some(new) = words.name(name) else {
            return Ok(false);
        };
        let text = with_zone(alloc, line, new)?;
        self.put(alloc, line, text.as_str())?;
        Ok(true)
    }

    /// Puts a text in the place of a line, and notes the zone that it names.
    fn put(&mut self, alloc: Global, line: Line<'_>, text: &str) -> Result<(), AllocError> {
        if text != line.text() {
            self.is_changed = true;
        }
        if let Some(other) = Line::read(text) {
            note_zone(alloc, other, &mut self.zones)?;
        }
        write_line(&mut self.out, text)
    }
}

/// Notes the zone that a line names, if it names one.
pub(crate) fn note_zone(
    alloc: Global,
    line: Line<'_>,
    zones: &mut Names,
) -> Result<(), AllocError> {
    if let Some(name) = line.param("TZID") {
        let name = String::from_str(alloc, name)?;
        zones.insert(name, ())?;
    }
    Ok(())
}

/// A line with another name of its zone.
fn with_zone(alloc: Global, line: Line<'_>, name: &str) -> Result<String, AllocError> {
    let mut text = String::from_str(alloc, line.name())?;
    for param in line.params() {
        text.push(';')?;
        text.push_str(param.name)?;
        text.push('=')?;
        if param.name.eq_ignore_ascii_case("TZID") {
            push_name(&mut text, name)?;
        } else {
            text.push_str(param.value)?;
        }
    }
    text.push(':')?;
    text.push_str(line.value())?;
    Ok(text)
}

/// Appends the value of a parameter, quoted where it has to be.
fn push_name(text: &mut String, name: &str) -> Result<(), AllocError> {
    if !name
        .bytes()
        .any(|octet| matches!(octet, b':' | b';' | b','))
    {
        return text.push_str(name);
    }
    text.push('"')?;
    text.push_str(name)?;
    text.push('"')
}
