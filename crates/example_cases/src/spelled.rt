//! How tables and answers spell octets.
//!
//! In a table `\r`, `\n` and `\t` are CR, LF and TAB, `\\` is a backslash, and `\xHH` is the octet of two hexadecimal digits. `{N TEXT}` is
//! N times TEXT.
//!
//! Answers have octets in quotes, escaped as in Rust (`shown`), or bare with the escapes of the tables (`escaped`).

use crate::no_answer::NoAnswer;
use crate::words::count;
use ical_lines::Refusal;
use std::alloc::{AllocError, Global};

/// The most octets that `shown` shows. Of more it says how many they are.
const SHOWN: usize = 200;

/// How far an escape is read.
#[derive(Clone, Copy)]
enum Escape {
    /// None has begun.
    No,
    Backslash,
    /// `\x`.
    Hex,
    /// `\x` and its first digit.
    Digit(u8),
}

/// The octets that a column spells.
pub fn octets_of(alloc: Global, column: &str) -> Result<Vec<u8>, NoAnswer> {
    let mut octets = Vec::new(alloc);
    let Some((before, repeated)) = column.split_once('{') else {
        push_unescaped(&mut octets, column)?;
        return Ok(octets);
    };
    push_unescaped(&mut octets, before)?;
    for piece in repeated.split('{') {
        push_repeated(&mut octets, piece)?;
    }
    Ok(octets)
}

/// The text that a column spells, which is refused where it isn't UTF-8.
pub fn text_of(alloc: Global, column: &str) -> Result<String, NoAnswer> {
    let octets = octets_of(alloc, column)?;
    match String::from_utf8(octets) {
        Ok(text) => Ok(text),
        Err(_) => Err(NoAnswer::Refused(Refusal::NOT_UTF8)),
    }
}

/// Adds what `N TEXT}` and the text after it spell.
fn push_repeated(octets: &mut Vec<u8>, piece: &str) -> Result<(), NoAnswer> {
    let (repeated, after) = piece.split_once('}').ok_or(NoAnswer::Unreadable)?;
    let (times, text) = repeated.split_once(' ').ok_or(NoAnswer::Unreadable)?;
    for _ in 0..count(times)? {
        push_unescaped(octets, text)?;
    }
    push_unescaped(octets, after)
}

fn push_unescaped(octets: &mut Vec<u8>, text: &str) -> Result<(), NoAnswer> {
    let mut escape = Escape::No;
    for octet in text.bytes() {
        escape = match escape {
            Escape::No if octet == b'\\' => Escape::Backslash,
            Escape::Backslash if octet == b'x' => Escape::Hex,
            Escape::Hex => Escape::Digit(digit(octet)?),
            Escape::No => push(octets, octet)?,
            Escape::Backslash => push(octets, meaning(octet)?)?,
            Escape::Digit(first) => push(octets, first << 4 | digit(octet)?)?,
        };
    }
    match escape {
        Escape::No => Ok(()),
        _ => Err(NoAnswer::Unreadable),
    }
}

/// Adds an octet, after which no escape has begun.
fn push(octets: &mut Vec<u8>, octet: u8) -> Result<Escape, AllocError> {
    octets.push(octet)?;
    Ok(Escape::No)
}

/// What the octet after a backslash means.
fn meaning(octet: u8) -> Result<u8, NoAnswer> {
    match octet {
        b'r' => Ok(b'\r'),
        b'n' => Ok(b'\n'),
        b't' => Ok(b'\t'),
        b'\\' => Ok(b'\\'),
        _ => Err(NoAnswer::Unreadable),
    }
}

/// The value of a hexadecimal digit.
fn digit(octet: u8) -> Result<u8, NoAnswer> {
    match octet {
        b'0'..=b'9' => Ok(octet - b'0'),
        b'A'..=b'F' => Ok(octet - b'A' + 10),
        _ => Err(NoAnswer::Unreadable),
    }
}

/// Octets in quotes.
pub fn shown(alloc: Global, octets: &[u8]) -> Result<String, AllocError> {
    if octets.len() > SHOWN {
        return format!(in alloc; "{} octets", octets.len());
    }
    let text = String::from_utf8_lossy(alloc, octets)?;
    format!(in alloc; "{text:?}")
}

/// Octets with escapes; what isn't printable ASCII is `\xHH`.
pub fn escaped(alloc: Global, octets: &[u8]) -> Result<String, AllocError> {
    let mut text = String::new(alloc);
    for octet in octets {
        match *octet {
            b'\r' => text.push_str("\\r")?,
            b'\n' => text.push_str("\\n")?,
            b'\\' => text.push_str("\\\\")?,
            b' '..=b'~' => text.push(char::from(*octet))?,
            _ => write!(text, "\\x{:02x}", *octet)?,
        }
    }
    Ok(text)
}
