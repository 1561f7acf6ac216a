//! Unfolding (RFC 5545 3.1): octets to a text whose lines are the logical lines.
//! Physical lines end at LF, and one CR before it isn't part of them; the end of the input ends one too.
//! A physical line that begins with a space or a tab continues the line before it.
ghost use Rattle.std.specs.Prelude.{◌≡◌, ◌++◌, ◌<◌, ◌≤◌, ◌^◌, ◌∷◌, ◌+◌, drop, take, filter, length, false, if◌then◌else◌, IfOk, IfErr};
ghost use Rattle.std.specs.Vec.{vec_len};
ghost use Rattle.std.specs.List.{list_any, prefix_len};
ghost use Rattle.std.specs.Str.{is_utf8};
ghost use Rattle.profile.specs.text.Lines.{
  without_mark,
  without_return,
  physical_lines,
  is_continuation,
  unfolded,
  logical_lines,
  ended,
  is_filled,
};
ghost use Rattle.ical_lines.specs.Fault.{RefusesBy, RefusesAt};
ghost use Rattle.ical_lines.specs.Breaks.{lines_of};
ghost use Rattle.ical_lines.specs.Unfold.{lines_after, with_breaks, broken_if_filled};
ghost use Rattle.ical_lines.specs.FirstLine.{IsAfterBreak};

use crate::fault::{Fault, Refusal};
use memchr::memchr;
use std::alloc::{AllocError, Global};

/// A text whose lines are the logical lines of some octets.
#[derive(Drop)]
pub enum UnfoldedText<'a> {
    /// The octets themselves, where nothing is folded.
    Lent(&'a str),
    /// The logical lines, each ended by CRLF.
    Owned(String),
}

impl<'a> UnfoldedText<'a> {
    ghost use Rattle.ical_lines.specs.Text.{unfolded_octets};

    /// Unfolds octets. It refuses those that aren't UTF-8 once they are unfolded (5).
    /// It takes memory only where something is folded.
    pub fn of(alloc: Global, octets: &'a [u8]) -> Result<UnfoldedText<'a>, Fault>
        ensures lines { IfOk result (λ text. lines_of (unfolded_octets text) ≡ logical_lines octets.now) }
        ensures refuses { IfErr result (RefusesBy (λ n. (n ≡ 5) × (is_utf8 (ended (logical_lines octets.now)) ≡ false))) }
        ensures at { IfErr result (RefusesAt (λ line. line ≡ 1 + prefix_len is_utf8 (logical_lines octets.now))) }
    {
        let unmarked = without_mark(octets);
        if is_folded(unmarked) {
            return match String::from_utf8(unfold(alloc, unmarked)?) {
                Ok(text) => Ok(UnfoldedText::Owned(text)),
                Err(error) => Err(Fault::Refused(not_utf8(error.as_bytes()))),
            };
        }
        let Ok(text) = str::from_utf8(unmarked) else {
            return Err(Fault::Refused(not_utf8(unmarked)));
        };
        Ok(UnfoldedText::Lent(text))
    }

    /// The whole text.
    pub fn as_str(&self) -> &str
        ensures { result.now ≡ unfolded_octets self.now }
    {
        match self {
            UnfoldedText::Lent(text) => text,
            UnfoldedText::Owned(text) => text.as_str(),
        }
    }
}

/// The refusal of a text that isn't UTF-8, at the first of its lines that isn't.
fn not_utf8(text: &[u8]) -> Refusal
    ensures { (result.number ≡ 5) × (result.line ≡ 1 + prefix_len is_utf8 (lines_of text.now)) }
{
    let mut passed = 0usize;
    let mut left = Some(text);
    while let Some(rest) = left {
        let (line, next) = split_line(rest);
        let Ok(text) = str::from_utf8(line) else {
            return Refusal::NOT_UTF8.at(passed + 1);
        };
        if !text.is_empty() {
            passed += 1;
        }
        left = next;
    }
    Refusal::NOT_UTF8.at(passed + 1)
}

/// Whether a physical line continues the one before it.
fn is_folded(octets: &[u8]) -> bool
    ensures { result ≡ list_any is_continuation (drop 1 (physical_lines octets.now)) }
{
    let (_first, mut left) = split_line(octets);
    while let Some(rest) = left {
        let (line, next) = split_line(rest);
        if matches!(line, [b' ' | b'\t', ..]) {
            return true;
        }
        left = next;
    }
    false
}

/// The logical lines that aren't empty, in order, each ended by CRLF: a CR that ends a line itself stays so apart.
/// It fails where memory is refused.
fn unfold(alloc: Global, octets: &[u8]) -> Result<Vec<u8>, AllocError>
    ensures { IfOk result (λ text. text.items ≡ with_breaks (filter is_filled (unfolded (physical_lines octets.now)))) }
{
    let mut text = Vec::new(alloc);
    // Where the line that has begun starts.
    let mut begun = 0;
    let (first, mut left) = split_line(octets);
    text.extend_from_slice(first)?;
    while let Some(rest) = left {
        let (line, next) = split_line(rest);
        begun = add_line(&mut text, begun, line)?;
        left = next;
    }
    end_line(&mut text, begun)?;
    Ok(text)
}

/// Adds a physical line: to the line that has begun, or as a new one after it.
/// It gives the place where the line that has begun starts now.
fn add_line(text: &mut Vec<u8>, begun: usize, line: &[u8]) -> Result<usize, AllocError>
    requires { begun ≤ vec_len text.old }
    ensures { IfOk result (λ start. (start ≤ vec_len text.new)
        × (take start text.new.items ≡ (if is_continuation line.now then take begun text.old.items
        else take begun text.old.items ++ broken_if_filled (drop begun text.old.items)))
        × (drop start text.new.items ≡ (if is_continuation line.now then drop begun text.old.items ++ drop 1 line.now
        else line.now))) }
{
    match line {
        [b' ' | b'\t', continued @ ..] => {
            text.extend_from_slice(continued)?;
            Ok(begun)
        }
        _ => {
            end_line(text, begun)?;
            let start = text.len();
            text.extend_from_slice(line)?;
            Ok(start)
        }
    }
}

/// Ends the line that has begun with CRLF; an empty one is dropped.
fn end_line(text: &mut Vec<u8>, begun: usize) -> Result<(), AllocError>
    requires { begun ≤ vec_len text.old }
    ensures { IfOk result (λ _. text.new.items ≡ take begun text.old.items ++ broken_if_filled (drop begun text.old.items)) }
{
    if text.len() > begun {
        text.extend_from_slice(b"\r\n")?;
    }
    Ok(())
}

/// The first physical line (RFC 5545 3.1), without one CR at its end, and what follows its LF where it has one.
pub fn split_line(octets: &[u8]) -> (&[u8], Option<&[u8]>)
    ensures lines { physical_lines octets.now ≡ result.0.now ∷ lines_after result.1 }
    ensures rest { IsAfterBreak octets.now result.1 }
    ensures memory { length octets.now < 2 ^ 63 }
{
    match memchr(b'\n', octets) {
        Some(end) => (without_return(&octets[..end]), Some(&octets[end + 1..])),
        None => (without_return(octets), None),
    }
}

/// A physical line without the CR at its end.
fn without_return(line: &[u8]) -> &[u8]
    ensures { result.now ≡ without_return line.now }
{
    match line {
        [rest @ .., b'\r'] => rest,
        _ => line,
    }
}

/// The octets without a byte order mark at their start.
pub fn without_mark(octets: &[u8]) -> &[u8]
    ensures { result.now ≡ without_mark octets.now }
{
    match octets {
        [0xEF, 0xBB, 0xBF, rest @ ..] => rest,
        _ => octets,
    }
}
