//! The way back: an answer to an object, told in the words of that object.

ghost use Rattle.std.specs.Prelude.{IfOk, IfSome};
ghost use Rattle.ical_tree.specs.Tree.{tree_of};
ghost use Rattle.profile.specs.doors.Returning.{IsReturned};
ghost use Rattle.cal_doors.specs.Adapted.{list_of};
ghost use Rattle.cal_doors.specs.Told.{IsAnswerTold, IsReturnedBy};

use crate::named::NamedZones;
use crate::readable::{adapt, object_of, text_of};
use crate::retold::retold;
use crate::told::is_told;
use crate::words::Words;
use ical_tree::Component;
use std::alloc::{AllocError, Global};

/// The answer in the words of the original, which a room read as it came or made readable: a RECURRENCE-ID is the line of the original for the
/// same instance, a zone has its name there, and the VTIMEZONEs are those of the original. All other lines of its VEVENTs, and its own, stay. None
/// where it is handed on as it is: nothing is told in other words, or it can't be. What is made is read again, and handed on only if it is right.
pub fn returned(
    alloc: Global,
    original: &[u8],
    listed: Option<&Component<'_>>,
    answer: &[u8],
) -> Result<Option<Vec<u8>>, AllocError>
    ensures { IfOk result (λ found. IfSome found (λ given. IsReturned (list_of listed.entry) original.now answer.now given.items)) }
{
    match adapt(alloc, original, listed)? {
        Some(adapted) => returned_by(alloc, original, adapted.octets.as_slice(), answer),
        None => returned_by(alloc, original, original, answer),
    }
}

/// The answer in the words of the original, where a room reads the object that octets are in the place of the original.
fn returned_by(
    alloc: Global,
    original: &[u8],
    readable: &[u8],
    answer: &[u8],
) -> Result<Option<Vec<u8>>, AllocError>
    ensures { IfOk result (λ found. IfSome found (λ given. IsReturnedBy original.now readable.now answer.now given.items)) }
{
    let Some(asked_text) = text_of(alloc, original)? else {
        return Ok(None);
    };
    let Some(asked) = object_of(alloc, &asked_text)? else {
        return Ok(None);
    };
    let Some(read_text) = text_of(alloc, readable)? else {
        return Ok(None);
    };
    let Some(read) = object_of(alloc, &read_text)? else {
        return Ok(None);
    };
    answered(alloc, &asked, &read, answer)
}

/// The answer in the words of an object that is read in the place of the one asked for.
fn answered(
    alloc: Global,
    asked: &Component,
    read: &Component,
    answer: &[u8],
) -> Result<Option<Vec<u8>>, AllocError>
    ensures { IfOk result (λ found. IfSome found (λ given. IsAnswerTold (tree_of asked.now) (tree_of read.now) answer.now given.items)) }
{
    let Some(text) = text_of(alloc, answer)? else {
        return Ok(None);
    };
    let Some(told) = object_of(alloc, &text)? else {
        return Ok(None);
    };
    let words = Words::of(alloc, read, &told)?;
    let asked = NamedZones::of(alloc, asked)?;
    let read = NamedZones::of(alloc, read)?;
    let Some(given) = retold(alloc, &told, &asked, &read, &words)? else {
        return Ok(None);
    };
    if !is_told(alloc, given.as_slice(), &told, &asked, &read, &words)? {
        return Ok(None);
    }
    Ok(Some(given))
}
