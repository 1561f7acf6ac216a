//! `explain`: what the number of a refusal means, and what to do about it.

ghost use Rattle.std.specs.Prelude.{◌≡◌, ◌<◌, ◌⊎◌, ℕ, List, length, is_some, true, false, IfSome};
ghost use Rattle.std.specs.Io.KnownBytes.{Appends, Keeps};
ghost use Rattle.sched_cli.specs.Commands.{BlamesDevice, IsStatusSaid, TellsDevice};
ghost use Rattle.sched_cli.specs.Diagnosis.{IsMeaningOf};
ghost use Rattle.sched_cli.specs.Explained.{is_explained};

use crate::status::{DONE, USAGE, report_write};
use sched_box::Output;

/// What the number of a refusal, or of the checker's no, means and what to do about it, as a line; None where nothing has that number.
pub fn explanation(number: u8) -> Option<&'static str>
    ensures known { is_some result ≡ is_explained number }
    ensures text { IfSome result (λ line. 0 < length line.now) }
    ensures own { IfSome result (λ line. IsMeaningOf number line.now) }
{
    match number {
        1 => Some(
            "1: a line without a colon, as of a preamble or a mail's text before BEGIN:VCALENDAR. What to do: fix the line; a long line's continuation begins with a space.\n",
        ),
        2 => Some(
            "2: a name that isn't letters, digits and `-`, or a parameter without `=`. What to do: fix the name; write `NAME=value`.\n",
        ),
        3 => Some(
            "3: a quoted parameter value that isn't closed, or a stray quote. What to do: close it; bare values can't have quotes.\n",
        ),
        4 => Some("4: a control octet, or a CR that ends no line. What to do: remove it.\n"),
        5 => Some("5: not UTF-8. What to do: convert the object to UTF-8.\n"),
        6 => Some(
            "6: more than 1048576 octets or 65536 lines. What to do: send less in one object.\n",
        ),
        10 => Some(
            "10: not a UTC date-time (expected something like 20250310T090000Z). What to do: fix the value.\n",
        ),
        11 => Some(
            "11: not a date-time, or with TZID a UTC time. What to do: fix the value or its VALUE parameter; leave out `Z` or TZID.\n",
        ),
        12 => Some(
            "12: not a duration (expected something like PT1H30M). What to do: fix the value.\n",
        ),
        13 => Some("13: not a UTC offset, in a VTIMEZONE. What to do: fix the value.\n"),
        14 => Some("14: UID empty or past 1024 octets. What to do: give another UID.\n"),
        15 => Some(
            "15: not an address of at most 1024 octets (expected something like mailto:ann@example.com). What to do: fix the address; quote a parameter value that has a colon, as in CN=\"Room: 3\".\n",
        ),
        16 => Some("16: SEQUENCE not from 0 to 2147483647. What to do: fix the number.\n"),
        20 => Some(
            "20: an END of another component than the one that was begun last. What to do: end each component before the one around it; here an END, as END:VEVENT, or a BEGIN is missing.\n",
        ),
        21 => Some("21: BEGIN without its END. What to do: end each component that is begun.\n"),
        22 => Some("22: components more than 8 deep. What to do: flatten the object.\n"),
        23 => Some(
            "23: no VCALENDAR, something outside it, or one inside it. What to do: send one VCALENDAR, as the decoded text/calendar part of a mail is, without blanks at the ends of lines.\n",
        ),
        24 => Some("24: VERSION missing, twice or not 2.0. What to do: write VERSION:2.0 once.\n"),
        25 => Some("25: more than 200 VEVENTs. What to do: send several objects.\n"),
        30 => Some(
            "30: a part of RRULE that is unknown, left out here (BYHOUR, RSCALE, ..) or empty, as behind a last `;`, or a FREQ other than DAILY, WEEKLY, MONTHLY and YEARLY. What to do: leave out the part or the `;`; give FREQ one of these four.\n",
        ),
        31 => Some(
            "31: a value of RRULE that is none, out of its range, or a list of more than 366. What to do: fix the value.\n",
        ),
        32 => Some(
            "32: parts of RRULE that don't go together, one twice, or no FREQ. What to do: fix the rule.\n",
        ),
        33 => Some("33: COUNT beside UNTIL. What to do: keep one.\n"),
        34 => Some(
            "34: DTSTART isn't a day of its own rule. What to do: move the start, or fix the rule.\n",
        ),
        40 => Some(
            "40: a VTIMEZONE of a shape that isn't read. What to do: let `roombox adapt` make an object that is read; or send one STANDARD and one DAYLIGHT, each with an RRULE of one day of every year and without UNTIL, COUNT and RDATE; one part without RRULE; or UTC.\n",
        ),
        41 => Some(
            "41: offsets of a VTIMEZONE that don't match, or lie more than 12 hours apart. What to do: fix TZOFFSETFROM and TZOFFSETTO: of two parts each comes from the offset that the other goes to.\n",
        ),
        42 => Some(
            "42: STANDARD and DAYLIGHT begin less than two days apart. What to do: fix their rules.\n",
        ),
        43 => Some(
            "43: no VTIMEZONE has the name that TZID gives. What to do: send the VTIMEZONE in the same object, fix the name, or let `roombox adapt --zones FILE` bring it from a list.\n",
        ),
        44 => Some(
            "44: X-ROOM-ZONE twice, or words that mean no zone. What to do: write an offset, or two offsets and when each begins, as -0500 -0400 11 1SU 0200 3 2SU 0200.\n",
        ),
        50 => Some("50: DTEND before DTSTART. What to do: fix the times.\n"),
        51 => Some(
            "51: more than 366 days, or a negative duration. What to do: send a shorter event.\n",
        ),
        52 => Some(
            "52: a time outside of the local years 1970 to 9999, or not before 10000-01-01T00:00:00Z. What to do: roombox books from 1970 to 9999.\n",
        ),
        53 => Some("53: two VEVENTs of one meeting without RECURRENCE-ID. What to do: send one.\n"),
        54 => Some(
            "54: two VEVENTs of one meeting for one instance, or two of an ADD that start together. What to do: send one for each instance.\n",
        ),
        56 => Some(
            "56: a period, or more than 366 times of RDATE or of EXDATE in a VEVENT. What to do: write a date-time; send fewer.\n",
        ),
        57 => Some(
            "57: DTEND of another form than DTSTART, a DURATION of hours beside a date, or a date or a time without zone as the RECURRENCE-ID of a store or a REPLY. What to do: write both as dates, both without zone, or both in UTC or with TZID.\n",
        ),
        60 => Some(
            "60: METHOD twice, or another word than REQUEST, CANCEL, ADD, REPLY and REFRESH, such as PUBLISH. What to do: send REQUEST, or store the meeting without METHOD.\n",
        ),
        61 => Some(
            "61: UID, DTSTAMP or DTSTART missing, a property twice, or DTEND beside DURATION. What to do: fix the VEVENT.\n",
        ),
        62 => Some(
            "62: two UIDs or ORGANIZERs in one message. What to do: send a message for each meeting.\n",
        ),
        63 => Some("63: no ORGANIZER. What to do: name the organiser.\n"),
        64 => Some(
            "64: a VEVENT of a REPLY or a REFRESH that doesn't have one attendee. What to do: send one for each attendee.\n",
        ),
        65 => Some("65: RANGE on RECURRENCE-ID. What to do: send an override for each instance.\n"),
        66 => Some("66: no VEVENT. What to do: send a VEVENT.\n"),
        67 => Some(
            "67: RRULE or RDATE beside RECURRENCE-ID, or in an ADD. What to do: leave them to the VEVENT without RECURRENCE-ID; in an ADD send one VEVENT for each instance.\n",
        ),
        70 => Some(
            "70: a store, a REPLY or a REFRESH whose ORGANIZER isn't hosted. What to do: name the organiser in the preamble; give a meeting for rooms its METHOD.\n",
        ),
        71 => Some(
            "71: a REPLY to a SEQUENCE past the last that was sent, or a REPLY or a REFRESH for a meeting that isn't known. What to do: store the meeting first; answer what was sent.\n",
        ),
        72 => Some(
            "72: a store for which no greater SEQUENCE up to 2147483647 is left. What to do: store the meeting under another UID.\n",
        ),
        73 => Some(
            "73: a REPLY or a REFRESH of one who isn't an attendee of the last store. What to do: store the meeting with that attendee.\n",
        ),
        80 => Some(
            "80: the calendar is refused: it isn't one that roombox reads. What to do: send one VCALENDAR, with the VTIMEZONEs that its times name.\n",
        ),
        81 => Some(
            "81: the certificate's line of the number behind it is wrong or missing. What to do: write it as `keep --certificate` does; lines end with LF alone.\n",
        ),
        82 => Some(
            "82: the certificate counts other singles or series than the calendar has for this room. What to do: look at the spelling of ROOM first.\n",
        ),
        83 => Some(
            "83: the two series behind it, or those of the group that begins with them, have instances that overlap, or arcs of their residues meet, or SPAN, RES or GROUP isn't allowed of them. What to do: write END for each pair; where it is 83 again, the calendar isn't clear.\n",
        ),
        84 => Some(
            "84: a single overlaps with another, or with a series. What to do: compare the calendar's times: the calendar isn't clear.\n",
        ),
        90 => Some(
            "90: the preamble can't be read, as where words mean no zone, or a zone is of no room or the second of one; for `keep`, also a room that it doesn't name. What to do: see `roombox serve --help`.\n",
        ),
        _ => None,
    }
}

/// `explain N`: writes what the number means and what to do about it. Gives 2 where nothing has that number, and writes nothing then.
pub fn run_explain<W: Output, E: Output>(number: u8, writer: &mut W, errors: &mut E) -> u8
    ensures explained { result ≡ 0 → is_explained number ≡ true }
    ensures written { result ≡ 0 → (line : List ℕ) × (0 < length line) × IsMeaningOf number line × Appends (W.contents writer.old) (W.contents writer.new) line }
    ensures unknown { result ≡ 2 → is_explained number ≡ false }
    ensures unwritten { (result ≡ 2) ⊎ (result ≡ 5) → Keeps (W.contents writer.old) (W.contents writer.new) }
    ensures device { BlamesDevice false (W.has_failed writer.new) result }
    ensures told { TellsDevice result false false (W.has_failed writer.old) (W.has_failed writer.new) }
    ensures status { (result ≡ 0) ⊎ (result ≡ 2) ⊎ (result ≡ 4) ⊎ (result ≡ 5) }
    ensures said { IsStatusSaid result (E.contents errors.old) (E.contents errors.new) (E.may_lose errors.new) }
{
    let Some(line) = explanation(number) else {
        return USAGE;
    };
    match writer.put(line.as_bytes()) {
        Ok(()) => DONE,
        Err(fault) => report_write(errors, fault),
    }
}
