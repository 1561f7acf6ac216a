//! Where in its octets a logical line begins: the physical line, and its property.

ghost use Rattle.std.specs.Prelude.{◌≡◌, ◌<◌, ◌^◌, ◌+◌, ◌⊎◌, false, IfNone, IfOk, IfSome, OnOk};
ghost use Rattle.profile.specs.text.Lines.{is_continuation};
ghost use Rattle.fault_places.specs.Places.{Begins, Continues, HasNoLine, IsHere, IsPlaceOf, is_sought, name_written, property_written};

use ical_lines::{Fault, Limits, Line, Unfolded, read_lines_are_content, split_line, without_mark};
use std::alloc::{AllocError, Global};
use std::str;

/// A content line of an object.
#[derive(Drop)]
pub struct Place {
    /// The physical line on which it begins, counted from 1.
    pub line: u64,
    /// Its property, as it is written; empty where the octets are no content line.
    pub property: Vec<u8>,
}

/// The place of the logical line of this number, counted from 1. None where there is no such line.
pub fn place_of(alloc: Global, octets: &[u8], line: usize) -> Result<Option<Place>, AllocError>
    ensures found { IfOk result (λ found. IfSome found (λ place. IsPlaceOf octets.now line place.line place.property.items)) }
    ensures none { IfOk result (λ found. IfNone found (HasNoLine octets.now line)) }
{
    if line == 0 {
        return Ok(None);
    }
    let (first, mut left) = split_line(without_mark(octets));
    let mut begun = Begun::first(alloc, first, line)?;
    while let Some(rest) = left {
        let (next, later) = split_line(rest);
        if let Some(place) = begun.take(alloc, next)? {
            return Ok(Some(place));
        }
        left = later;
    }
    begun.place(alloc)
}

/// The logical line that has begun.
#[derive(Drop)]
struct Begun {
    content: Vec<u8>,
    /// The physical line on which it begins.
    line: u64,
    /// How many physical lines were taken.
    count: u64,
    /// Which of the lines from this one on is sought, counted from 1; empty ones aren't counted.
    sought: usize,
}

impl Begun {
    /// The one that begins with the first physical line.
    fn first(alloc: Global, line: &[u8], sought: usize) -> Result<Begun, AllocError>
        ensures content { IfOk result (λ begun. begun.content.items ≡ line.now) }
        ensures at { IfOk result (λ begun. begun.line ≡ 1) }
        ensures count { IfOk result (λ begun. begun.count ≡ 1) }
        ensures sought { IfOk result (λ begun. begun.sought ≡ sought) }
    {
        let mut content = Vec::new(alloc);
        content.extend_from_slice(line)?;
        Ok(Begun {
            content,
            line: 1,
            count: 1,
            sought,
        })
    }

    /// Takes the next physical line: it continues the line that has begun, or another begins. Gives the place of the former where that is the one.
    fn take(&mut self, alloc: Global, next: &[u8]) -> Result<Option<Place>, AllocError>
        requires fits { self.old.count < 2 ^ 63 }
        requires some { 0 < self.old.sought }
        ensures found { IfOk result (λ found. IfSome found (λ place. (is_continuation next.now ≡ false) × IsHere self.old place)) }
        ensures taken { IfOk result (λ found. IfNone found (Continues self.old next.now self.new ⊎ Begins self.old next.now self.new)) }
        ensures count { IfOk result (λ found. IfNone found (self.new.count ≡ self.old.count + 1)) }
    {
        if let [b' ' | b'\t', continued @ ..] = next {
            self.count += 1;
            self.content.extend_from_slice(continued)?;
            return Ok(None);
        }
        if let Some(place) = self.place(alloc)? {
            return Ok(Some(place));
        }
        self.end(next)?;
        Ok(None)
    }

    /// Begins another line.
    fn end(&mut self, next: &[u8]) -> Result<(), AllocError>
        requires fits { self.old.count < 2 ^ 63 }
        requires some { 0 < self.old.sought }
        requires other { is_sought self.old ≡ false }
        ensures begins { OnOk result (is_continuation next.now ≡ false → Begins self.old next.now self.new) }
        ensures count { OnOk result (self.new.count ≡ self.old.count + 1) }
    {
        self.count += 1;
        if !self.content.is_empty() {
            self.sought -= 1;
        }
        self.line = self.count;
        self.content.clear();
        self.content.extend_from_slice(next)?;
        Ok(())
    }

    /// Its place, where it is the one.
    fn place(&self, alloc: Global) -> Result<Option<Place>, AllocError>
        ensures found { IfOk result (λ found. IfSome found (IsHere self.now)) }
        ensures none { IfOk result (λ found. IfNone found (is_sought self.now ≡ false)) }
    {
        if self.sought != 1 || self.content.is_empty() {
            return Ok(None);
        }
        Ok(Some(Place {
            line: self.line,
            property: property_in(alloc, self.content.as_slice())?,
        }))
    }
}

/// The property of a line, as it is written; empty where it is no content line.
fn property_in(alloc: Global, content: &[u8]) -> Result<Vec<u8>, AllocError>
    ensures { IfOk result (λ property. property.items ≡ property_written content.now) }
{
    read_lines_are_content();
    let mut property = Vec::new(alloc);
    match Unfolded::read(alloc, content, Limits::Open) {
        Ok(_) => property.extend_from_slice(name_in(content))?,
        Err(Fault::Memory) => return Err(AllocError),
        Err(Fault::Refused(_)) => {}
    }
    Ok(property)
}

/// The name of a line; empty where it is no text of one line.
fn name_in(content: &[u8]) -> &[u8]
    ensures { result.now ≡ name_written content.now }
{
    let Ok(text) = str::from_utf8(content) else {
        return b"";
    };
    match Line::read(text) {
        Some(line) => line.name().as_bytes(),
        None => b"",
    }
}
