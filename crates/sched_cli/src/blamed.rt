//! Of a calendar that is refused: its number, and the UID that it is refused for.

ghost use Rattle.std.specs.Prelude.{◌≡◌, ℕ, List, IfOk, IfSome};
ghost use Rattle.sched_cli.specs.Blaming.{IsRefusedText, IsUidLine, SaysBlamed, SaysRefused};

use crate::shown::append_cut;
use crate::status::{REFUSED, report_refused, say};
use cal_events::{Calendar, blamed_uid};
use ical_lines::{Fault, Refusal};
use ical_values::Address;
use itoa::Buffer;
use sched_box::Output;
use std::alloc::{AllocError, Global};

/// Says that a calendar is refused, and for which UID, if that is known; gives the status for it.
pub(crate) fn report_calendar<E: Output>(
    alloc: Global,
    calendar: &[u8],
    refusal: Refusal,
    errors: &mut E,
) -> u8
    ensures status { result ≡ 3 }
    ensures says { SaysRefused calendar.now refusal.number (E.contents errors.old) (E.contents errors.new) (E.may_lose errors.new) }
{
    // Where memory for more is refused the number alone is said.
    let Ok(text) = refused_lines(alloc, calendar, refusal.number) else {
        return report_refused(errors, refusal);
    };
    say(errors, text.as_slice());
    REFUSED
}

/// `roombox: refused 53`, and behind it `roombox: UID plan`, as lines.
fn refused_lines(alloc: Global, calendar: &[u8], number: u8) -> Result<Vec<u8>, AllocError>
    ensures { IfOk result (λ text. IsRefusedText calendar.now number text.items) }
{
    let mut text = Vec::new(alloc);
    let mut digits = Buffer::new();
    text.extend_from_slice(b"roombox: refused ")?;
    text.extend_from_slice(digits.format(number).as_bytes())?;
    text.extend_from_slice(b"\n")?;
    let Some(line) = uid_line(alloc, calendar, number)? else {
        return Ok(text);
    };
    text.extend_from_slice(line.as_slice())?;
    Ok(text)
}

/// Says for which UID a calendar is refused, and nothing where that isn't known, or memory for it is refused.
pub(crate) fn say_blamed<E: Output>(alloc: Global, calendar: &[u8], room: &Address, errors: &mut E)
    ensures { SaysBlamed calendar.now (E.contents errors.old) (E.contents errors.new) (E.may_lose errors.new) }
{
    let Err(Fault::Refused(refusal)) = Calendar::read(alloc, calendar, room) else {
        return;
    };
    let Ok(Some(line)) = uid_line(alloc, calendar, refusal.number) else {
        return;
    };
    say(errors, line.as_slice());
}

/// `roombox: UID plan`, as a line; None where no UID is known.
fn uid_line(alloc: Global, calendar: &[u8], number: u8) -> Result<Option<Vec<u8>>, AllocError>
    ensures { IfOk result (λ found. IfSome found (λ line. IsUidLine calendar.now number line.items)) }
{
    let Some(uid) = blamed_uid(alloc, calendar, number)? else {
        return Ok(None);
    };
    let mut line = Vec::new(alloc);
    line.extend_from_slice(b"roombox: UID ")?;
    append_cut(&mut line, uid.as_str().as_bytes())?;
    line.extend_from_slice(b"\n")?;
    Ok(Some(line))
}
