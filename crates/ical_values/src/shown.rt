//! Values in the one form in which they are written, each as a text of its own (RFC 5545 3.3).

ghost use Rattle.std.specs.Prelude.{◌≡◌, ◌<ℤ◌, pos, decimal, string_bytes, IfOk, MatchOption};
ghost use Rattle.std.specs.Str.{IsUtf8};
ghost use Rattle.profile.specs.text.Values.{escaped, SpellsDate, WritesLocal, WritesOffset, WritesStamp};
ghost use Rattle.ical_values.specs.Octets.{text_octets};

use crate::date;
use crate::local_time::LocalTime;
use crate::offset::UtcOffset;
use crate::sequence::Sequence;
use crate::stamp::Stamp;
use crate::text::Text;
use cal_days::Day;
use std::alloc::{AllocError, Global};

/// The octets of a written stamp; a local time has one fewer.
const STAMP_OCTETS: usize = 16;

/// 9999-12-31, the last day that a text can say, as days from 1970-01-01.
const LAST_NUMBER_OF_TEXTS: i64 = 2_932_896;

/// The most octets of a written offset.
const OFFSET_OCTETS: usize = 7;

/// A day as text (RFC 5545 3.3.4); None of one past 9999-12-31.
pub fn date_text(alloc: Global, day: Day) -> Result<Option<String>, AllocError>
    ensures { IfOk result (λ text. MatchOption text (pos 2_932_896 <ℤ day) (λ text. SpellsDate (string_bytes text) day)) }
{
    if day.number() > LAST_NUMBER_OF_TEXTS {
        return Ok(None);
    }
    let octets = Vec::from_slice(alloc, &date::date_text(day))?;
    Ok(Some(text_of(octets)))
}

/// A stamp, as text (RFC 5545 3.3.5, form 2).
pub fn stamp_text(alloc: Global, stamp: Stamp) -> Result<String, AllocError>
    ensures { IfOk result (λ text. WritesStamp (string_bytes text) stamp) }
{
    let mut octets = Vec::with_capacity(alloc, STAMP_OCTETS)?;
    stamp.write(&mut octets)?;
    Ok(text_of(octets))
}

/// A local time, as text (RFC 5545 3.3.5, form 1).
pub fn local_text(alloc: Global, time: LocalTime) -> Result<String, AllocError>
    ensures { IfOk result (λ text. WritesLocal (string_bytes text) time) }
{
    let mut octets = Vec::with_capacity(alloc, STAMP_OCTETS)?;
    time.write(&mut octets)?;
    Ok(text_of(octets))
}

/// An offset, as text (RFC 5545 3.3.14).
pub fn offset_text(alloc: Global, offset: UtcOffset) -> Result<String, AllocError>
    ensures { IfOk result (λ text. WritesOffset (string_bytes text) offset) }
{
    let mut octets = Vec::with_capacity(alloc, OFFSET_OCTETS)?;
    offset.write(&mut octets)?;
    Ok(text_of(octets))
}

/// The digits of a sequence number (RFC 5545 3.8.7.4).
pub fn sequence_text(alloc: Global, sequence: Sequence) -> Result<String, AllocError>
    ensures { IfOk result (λ text. string_bytes text ≡ decimal sequence) }
{
    sequence.number().to_string(alloc)
}

/// A text with its escapes (RFC 5545 3.3.11).
pub fn escaped_text(alloc: Global, text: &Text) -> Result<String, AllocError>
    ensures { IfOk result (λ line. string_bytes line ≡ escaped (text_octets text.now)) }
{
    let mut octets = Vec::with_capacity(alloc, text.as_str().len())?;
    text.write(&mut octets)?;
    Ok(text_of(octets))
}

/// Octets that are text.
fn text_of(octets: Vec<u8>) -> String
    requires { IsUtf8 octets.items }
    ensures { string_bytes result ≡ octets.items }
{
    match String::from_utf8(octets) {
        Ok(text) => text,
        Err(_) => unreachable!(),
    }
}
