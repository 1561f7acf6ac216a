//! Zones against another program: what Python's zoneinfo says of the current rules of fifteen zones, as `tests/zone_table.py` writes it
//! down. A line NAME of `zone-names.txt` compares the zone of `NAME.ics` with the rows of `NAME.txt`.

use crate::zones::zone_of_object;
use cal_zones::Zone;
use example_cases::words::{first_word, number};
use example_cases::{Case, NoAnswer};
use ical_values::LocalTime;
use std::rt::Files;
use std::{fs, io};

/// Compares the zones of the table.
pub fn print_table<R: Files + Print + AllocGlobal>(rt: &R) -> io::Result<()> {
    let table = fs::read_to_string(rt, "zone-names.txt")?;
    for line in table.lines() {
        if let Some(case) = Case::of(line) {
            print(rt, case)?;
        }
    }
    Ok(())
}

/// Prints `ok NAME` and how many rows there are where all agree, else `differs NAME` and the first row that doesn't.
fn print<R: Files + Print + AllocGlobal>(rt: &R, case: Case<'_>) -> io::Result<()> {
    let alloc = rt.alloc();
    let name = case.name();
    let object = format!(in alloc; "{name}.ics")?;
    let object = fs::read(rt, object.as_str())?;
    let rows = format!(in alloc; "{name}.txt")?;
    let rows = fs::read_to_string(rt, rows.as_str())?;
    let zone = zone_of_object(alloc, object.as_slice());
    match first_differing(&zone, rows.as_str()) {
        Some(row) => println!(rt; "differs {name} {row}"),
        None => println!(rt; "ok {name} {}", rows.lines().count()),
    }
}

fn first_differing<'a>(zone: &Result<Zone, NoAnswer>, rows: &'a str) -> Option<&'a str> {
    for row in rows.lines() {
        if !agrees(zone, row) {
            return Some(row);
        }
    }
    None
}

/// Does a row `at INSTANT OFFSET`, `local LOCAL INSTANT` or `refused NUMBER` agree?
fn agrees(zone: &Result<Zone, NoAnswer>, row: &str) -> bool {
    let (kind, rest) = first_word(row);
    match zone {
        Ok(zone) => has_row(zone, kind, rest),
        Err(NoAnswer::Refused(refusal)) => {
            kind == "refused" && rest.parse::<u8>() == Ok(refusal.number)
        }
        Err(_) => false,
    }
}

fn has_row(zone: &Zone, kind: &str, rest: &str) -> bool {
    let (first, second) = first_word(rest);
    match kind {
        "at" => is_offset(zone, first, second),
        "local" => is_meaning(zone, first, second),
        _ => false,
    }
}

fn is_offset(zone: &Zone, instant: &str, offset: &str) -> bool {
    match number(instant) {
        Ok(instant) => offset.parse::<i32>() == Ok(zone.offset(instant)),
        Err(_) => false,
    }
}

fn is_meaning(zone: &Zone, local: &str, instant: &str) -> bool {
    match LocalTime::read(local) {
        Ok(local) => instant.parse::<i64>() == Ok(zone.resolve(local)),
        Err(_) => false,
    }
}
