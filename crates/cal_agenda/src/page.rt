//! A page for the door of a room, as HTML without scripts: what is taken and what is free of each day that a span of time touches.
ghost use Rattle.std.specs.Prelude.{◌≡◌, ◌++◌, ℕ, List, map, option_map, IfOk, OnOk};
ghost use Rattle.profile.specs.checker.Agendas.{Taken};
ghost use Rattle.profile.specs.events.Confirmed.{IsOneOf};
ghost use Rattle.cal_zones.specs.Kinds.{zone_of};
ghost use Rattle.cal_events.specs.Calendar.{instance_of};
ghost use Rattle.cal_agenda.specs.Blocks.{free_if, woven};
ghost use Rattle.cal_agenda.specs.PageDays.{day_said};
ghost use Rattle.cal_agenda.specs.Pages.{AreTimesOfDay, IsBlockLine, IsPage, IsSection, clock_words, day_heading, page_clocks, page_opening};
ghost use Rattle.cal_agenda.specs.Printing.{LinesOf};

use crate::confirmed::agenda;
use crate::days::{days_of, in_day};
use crate::html::{
    date_octets, end_shown_at, html_text, joined, shown_at, time_element, weekday_name,
};
use crate::page_span::{LocalDay, PageSpan};
use crate::published::plain_address;
use cal_days::Day;
use cal_events::{Calendar, Instance, Span};
use cal_zones::Zone;
use std::alloc::{AllocError, Global};

/// The style of a page.
const STYLE: &str = "\
:root { color-scheme: light dark; --page: #f6f5f1; --ink: #1d2127; --soft: #565d68; --taken: #6b2737; --rim: #6b2737; --on-taken: #ffffff; --free: #ffffff; --on-free: #14532d; --edge: #2f7d4f; }
@media (prefers-color-scheme: dark) { :root { --page: #14171b; --ink: #eceef1; --soft: #a9b1bc; --taken: #5c2b37; --rim: #b5707f; --on-taken: #fff1f3; --free: #14171b; --on-free: #a5e2bb; --edge: #5fae80; } }
* { box-sizing: border-box; }
html { font: clamp(100%, 1.25vw, 200%)/1.3 system-ui, -apple-system, 'Segoe UI', Roboto, 'Noto Sans', 'DejaVu Sans', sans-serif; }
body { margin: 0; padding: 1.25rem; background: var(--page); color: var(--ink); }
header { display: flex; flex-wrap: wrap; justify-content: space-between; align-items: baseline; gap: 0 1.5rem; }
h1 { margin: 0; font-size: 2.25rem; line-height: 1.15; overflow-wrap: anywhere; }
header p { margin: 0; color: var(--soft); }
main { display: grid; grid-template-columns: repeat(auto-fill, minmax(min(100%, 11.5rem), 1fr)); gap: 1.25rem 0.75rem; margin-top: 1rem; }
h2 { margin: 0 0 0.5rem; font-size: 1.25rem; line-height: 1.15; }
h2 time { display: block; font-size: 0.9375rem; font-weight: 400; color: var(--soft); }
ol { display: grid; gap: 0.5rem; margin: 0; padding: 0; list-style: none; }
li { padding: 0.375rem 0.625rem; border: 0.1875rem solid var(--rim); border-radius: 0.5rem; overflow-wrap: anywhere; }
.taken { background: var(--taken); color: var(--on-taken); }
.free { background: var(--free); color: var(--on-free); border: 0.1875rem dashed var(--edge); }
.when { display: block; font-size: 1.375rem; font-weight: 700; font-variant-numeric: tabular-nums; }
b { letter-spacing: 0.04em; text-transform: uppercase; }
.who { display: block; font-size: 0.9375rem; }
section:first-child { grid-column: 1 / -1; }
section:first-child h2 { font-size: 2rem; }
section:first-child h2 time { display: inline; font-size: 1.25rem; }
section:first-child ol { grid-template-columns: repeat(auto-fill, minmax(min(100%, 19.5rem), 1fr)); }
section:first-child .when { font-size: clamp(2.5rem, 4.2vw, 3.375rem); line-height: 1.1; }
section:first-child b { font-size: 2rem; line-height: 1.2; }
section:first-child .who { font-size: 1.5rem; }
";

/// The page of a room, by its name, with what its calendar confirms on each day that a span touches: its times, who booked it, and when the room is
/// free. Days and times go by the clocks of a zone, or by UTC. For each day the calendar's singles are looked at once, and of its series what comes
/// near to the day. Fails only when out of memory.
pub fn html_page(
    alloc: Global,
    name: &str,
    calendar: &Calendar,
    zone: Option<Zone>,
    span: PageSpan,
) -> Result<Vec<u8>, AllocError>
    ensures { IfOk result (λ octets. IsPage name.now (option_map zone_of zone) (IsOneOf calendar.now) span.start span.end octets.items) }
{
    let clocks = page_clocks(zone);
    let days = days_of(alloc, &clocks, span)?;
    let opening = opening_text(alloc, name, zone)?;
    let sections = sections_text(alloc, calendar, &clocks, &days)?;
    joined(
        alloc,
        &[&opening, &sections, b"</main>\n</body>\n</html>\n"],
    )
}

/// Whose clocks the days and times go by.
fn page_clocks(zone: Option<Zone>) -> Zone
    ensures { zone_of result ≡ page_clocks (option_map zone_of zone) }
{
    match zone {
        Some(zone) => zone,
        None => Zone::utc(),
    }
}

/// Whose clocks the days and times go by, in words.
fn clock_words(zone: Option<Zone>) -> &'static str
    ensures { result.now ≡ clock_words (option_map zone_of zone) }
{
    match zone {
        Some(_) => "All times are local.",
        None => "All times are UTC.",
    }
}

/// What comes before the days: the style, the room's name, and whose clocks these are.
fn opening_text(alloc: Global, name: &str, zone: Option<Zone>) -> Result<Vec<u8>, AllocError>
    ensures { IfOk result (λ text. text.items ≡ page_opening name.now (option_map zone_of zone)) }
{
    let name = html_text(alloc, name)?;
    joined(
        alloc,
        &[
            b"<!doctype html>\n<html lang=\"en\">\n<head>\n<meta charset=\"utf-8\">\n<meta name=\"viewport\" content=\"width=device-width\">\n<title>",
            &name,
            b"</title>\n<style>\n",
            STYLE.as_bytes(),
            b"</style>\n</head>\n<body>\n<header>\n<h1>",
            &name,
            b"</h1>\n<p>",
            clock_words(zone).as_bytes(),
            b"</p>\n</header>\n<main>\n",
        ],
    )
}

/// The days, one after another.
fn sections_text(
    alloc: Global,
    calendar: &Calendar,
    zone: &Zone,
    days: &[LocalDay],
) -> Result<Vec<u8>, AllocError>
    ensures { IfOk result (λ text. LinesOf (IsSection (zone_of zone.now) (IsOneOf calendar.now)) (map day_said days.now) text.items) }
{
    let mut text = Vec::new(alloc);
    for day in days {
        let section = section_text(alloc, calendar, zone, day)?;
        text.extend_from_slice(&section)?;
    }
    Ok(text)
}

/// A day: its heading, and the lines of what is taken and what is free.
fn section_text(
    alloc: Global,
    calendar: &Calendar,
    zone: &Zone,
    day: &LocalDay,
) -> Result<Vec<u8>, AllocError>
    ensures { IfOk result (λ text. IsSection (zone_of zone.now) (IsOneOf calendar.now) (day_said day.now) text.items) }
{
    let span = Span {
        start: day.start,
        end: day.end,
    };
    let instances = agenda(alloc, calendar, span)?;
    let heading = heading_text(alloc, day)?;
    let lines = lines_text(alloc, zone, day, &instances)?;
    joined(alloc, &[&heading, &lines, b"</ol>\n</section>\n"])
}

/// The heading of a day: its weekday and its date.
fn heading_text(alloc: Global, day: &LocalDay) -> Result<Vec<u8>, AllocError>
    ensures { IfOk result (λ text. text.items ≡ day_heading day.now.index) }
{
    let day = Day::at_index(day.index).unwrap();
    let name = weekday_name(day.weekday());
    let date = date_octets(day);
    joined(
        alloc,
        &[
            b"<section>\n<h2>",
            name.as_bytes(),
            b" <time datetime=\"",
            &date,
            b"\">",
            &date,
            b"</time></h2>\n<ol role=\"list\">\n",
        ],
    )
}

/// The lines of the instances of a day, and of when the room is free between them.
fn lines_text(
    alloc: Global,
    zone: &Zone,
    day: &LocalDay,
    instances: &[Instance<'_>],
) -> Result<Vec<u8>, AllocError>
    ensures { IfOk result (λ text. LinesOf (IsBlockLine (zone_of zone.now) (day_said day.now)) (woven day.now.start day.now.end (map instance_of instances.now)) text.items) }
{
    let mut lines = Vec::new(alloc);
    let mut left = day.start;
    for instance in instances {
        add_free(alloc, zone, day, left, instance.start, &mut lines)?;
        add_taken(alloc, zone, day, instance, &mut lines)?;
        left = left.max(instance.end);
    }
    add_free(alloc, zone, day, left, day.end, &mut lines)?;
    Ok(lines)
}

/// Adds the line of a free span, if there is an instant in it.
fn add_free(
    alloc: Global,
    zone: &Zone,
    day: &LocalDay,
    start: i64,
    end: i64,
    lines: &mut Vec<u8>,
) -> Result<(), AllocError>
    ensures { OnOk result ((line : List ℕ) × LinesOf (IsBlockLine (zone_of zone.now) (day_said day.now)) (free_if start end) line × (lines.new.items ≡ lines.old.items ++ line)) }
{
    if start >= end {
        return Ok(());
    }
    let times = times_text(alloc, zone, day, start, end)?;
    let line = joined(
        alloc,
        &[
            b"<li class=\"free\"><span class=\"when\">",
            &times,
            b"</span> <b>free</b></li>\n",
        ],
    )?;
    lines.extend_from_slice(&line)?;
    Ok(())
}

/// Adds the line of an instance.
fn add_taken(
    alloc: Global,
    zone: &Zone,
    day: &LocalDay,
    instance: &Instance<'_>,
    lines: &mut Vec<u8>,
) -> Result<(), AllocError>
    ensures { OnOk result ((line : List ℕ) × IsBlockLine (zone_of zone.now) (day_said day.now) (Taken (instance_of instance.now)) line × (lines.new.items ≡ lines.old.items ++ line)) }
{
    let times = times_text(alloc, zone, day, instance.start, instance.end)?;
    let who = html_text(alloc, plain_address(instance.key.organiser))?;
    let line = joined(
        alloc,
        &[
            b"<li class=\"taken\"><span class=\"when\">",
            &times,
            b"</span> <b>taken</b> <span class=\"who\">",
            &who,
            b"</span></li>\n",
        ],
    )?;
    lines.extend_from_slice(&line)?;
    Ok(())
}

/// When something begins and ends on a day: what began before the day begins with it, and what goes on behind it ends with it.
fn times_text(
    alloc: Global,
    zone: &Zone,
    day: &LocalDay,
    start: i64,
    end: i64,
) -> Result<Vec<u8>, AllocError>
    ensures { IfOk result (λ text. AreTimesOfDay (zone_of zone.now) (day_said day.now) start end text.items) }
{
    let start = in_day(day, start);
    let end = in_day(day, end);
    let first = time_element(alloc, start, &shown_at(zone, start))?;
    let last = time_element(alloc, end, &end_shown_at(zone, day.end, end))?;
    joined(alloc, &[&first, b"&ndash;", &last])
}
