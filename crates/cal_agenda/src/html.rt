//! Texts of a page in HTML: names, days, times and instants.
ghost use Rattle.std.specs.Prelude.{◌≡◌, ◌<◌, ◌≤ℤ◌, pos, ◌++◌, IfOk, OnOk};
ghost use Rattle.std.specs.List.{flat_map};
ghost use Rattle.profile.specs.text.Values.{IsClockSeconds, two_digits};
ghost use Rattle.profile.specs.series.Days.{day_index};
ghost use Rattle.cal_zones.specs.Kinds.{zone_of};
ghost use Rattle.cal_agenda.specs.Html.{IsClockText, IsEndText, IsTimeElement, IsUtcText, clock_text, date_text, html, html_octet, weekday_name};
ghost use Rattle.cal_agenda.specs.Pages.{IsWellWithin};

use cal_days::Day;
use cal_zones::Zone;
use ical_values::LocalTime;
use std::alloc::{AllocError, Global};

/// Octets one after another. Fails only when out of memory.
pub(crate) fn joined(alloc: Global, pieces: &[&[u8]]) -> Result<Vec<u8>, AllocError>
    ensures { IfOk result (λ octets. octets.items ≡ flat_map (λ piece. piece.now) pieces.now) }
{
    let mut octets = Vec::new(alloc);
    for piece in pieces {
        octets.extend_from_slice(*piece)?;
    }
    Ok(octets)
}

/// A text as it stands in HTML, with `&`, `<`, `>` and `"` by their names. Fails only when out of memory.
pub(crate) fn html_text(alloc: Global, text: &str) -> Result<Vec<u8>, AllocError>
    ensures { IfOk result (λ octets. octets.items ≡ html text.now) }
{
    let mut octets = Vec::new(alloc);
    for octet in text.as_bytes() {
        push_octet(&mut octets, *octet)?;
    }
    Ok(octets)
}

/// Appends an octet of a text as it stands in HTML.
fn push_octet(out: &mut Vec<u8>, octet: u8) -> Result<(), AllocError>
    ensures { OnOk result (out.new.items ≡ out.old.items ++ html_octet octet) }
{
    match octet {
        b'&' => out.extend_from_slice(b"&amp;"),
        b'<' => out.extend_from_slice(b"&lt;"),
        b'>' => out.extend_from_slice(b"&gt;"),
        b'"' => out.extend_from_slice(b"&quot;"),
        _ => out.extend_from_slice(&[octet]),
    }
}

/// The name of a weekday, 0 for Monday.
pub(crate) fn weekday_name(weekday: u8) -> &'static str
    ensures { result.now ≡ weekday_name weekday }
{
    match weekday {
        0 => "Monday",
        1 => "Tuesday",
        2 => "Wednesday",
        3 => "Thursday",
        4 => "Friday",
        5 => "Saturday",
        _ => "Sunday",
    }
}

/// The date of a day up to 9999-12-31, as `2025-03-10`.
pub(crate) fn date_octets(day: Day) -> [u8; 10]
    requires { day ≤ℤ pos 2_932_896 }
    ensures { result ≡ date_text (day_index day) }
{
    let date = day.civil();
    let year = date.year.unsigned_abs();
    let [y1, y2] = two((year / 100) as u8);
    let [y3, y4] = two((year % 100) as u8);
    let [m1, m2] = two(date.month);
    let [d1, d2] = two(date.day);
    [y1, y2, y3, y4, b'-', m1, m2, b'-', d1, d2]
}

/// A second of a day in hours and minutes, as `09:30`.
fn clock_octets(second: u32) -> [u8; 5]
    requires { second < 86_400 }
    ensures { result ≡ clock_text second }
{
    let [h1, h2] = two((second / 3600) as u8);
    let [m1, m2] = two((second / 60 % 60) as u8);
    [h1, h2, b':', m1, m2]
}

/// The two digits of a number below 100.
fn two(n: u8) -> [u8; 2]
    requires { n < 100 }
    ensures { result ≡ two_digits n }
{
    [b'0' + n / 10, b'0' + n % 10]
}

/// What the clocks of a zone show at an instant, in hours and minutes.
pub(crate) fn shown_at(zone: &Zone, instant: i64) -> [u8; 5]
    requires { IsWellWithin instant }
    ensures { IsClockText (zone_of zone.now) instant result }
{
    let seconds = instant + zone.offset(instant) as i64;
    let local = LocalTime::of_seconds(seconds).unwrap();
    let (_, second) = local.day_and_second();
    clock_octets(second)
}

/// What the clocks of a zone show at the instant at which something ends, in hours and minutes; the end of the day is 24:00.
pub(crate) fn end_shown_at(zone: &Zone, end_of_day: i64, instant: i64) -> [u8; 5]
    requires { IsWellWithin instant }
    ensures { IsEndText (zone_of zone.now) end_of_day instant result }
{
    if instant == end_of_day {
        return *b"24:00";
    }
    shown_at(zone, instant)
}

/// An element TIME: an instant in UTC for programs, and what is shown for people. Fails only when out of memory.
pub(crate) fn time_element(alloc: Global, instant: i64, shown: &[u8]) -> Result<Vec<u8>, AllocError>
    requires { IsClockSeconds instant }
    ensures { IfOk result (λ text. IsTimeElement instant shown.now text.items) }
{
    let utc = utc_text(alloc, instant)?;
    joined(
        alloc,
        &[b"<time datetime=\"", &utc, b"\">", shown, b"</time>"],
    )
}

/// An instant in UTC, as `2025-03-10T09:30:00Z`. Fails only when out of memory.
fn utc_text(alloc: Global, instant: i64) -> Result<Vec<u8>, AllocError>
    requires { IsClockSeconds instant }
    ensures { IfOk result (λ text. IsUtcText instant text.items) }
{
    let time = LocalTime::of_seconds(instant).unwrap();
    let (day, second) = time.day_and_second();
    let date = date_octets(day);
    let clock = clock_octets(second);
    let seconds = two((second % 60) as u8);
    joined(alloc, &[&date, b"T", &clock, b":", &seconds, b"Z"])
}
