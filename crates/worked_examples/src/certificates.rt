//! Cases of the texts of certificates: `certificate | TEXT` reads one, `certificate-of | TEXT` reads one and writes it, after an octet that is
//! there already.

ghost use Rattle.std.specs.Prelude.{◌<◌};

use clash_cert::{CertFault, Certificate, Entry, Group};
use clash_check::{Checked, Verdict};
use example_cases::answers::append;
use example_cases::spelled::{escaped, octets_of};
use example_cases::{Case, NoAnswer};
use std::alloc::Global;

/// What a text says as a certificate, or its first wrong line.
pub fn read_answer(alloc: Global, case: Case<'_>) -> Result<String, NoAnswer> {
    let text = octets_of(alloc, case.input())?;
    match Certificate::read(alloc, text.as_slice()) {
        Ok(certificate) => content(alloc, &certificate),
        Err(CertFault::Line(line)) => Ok(format!(in alloc; "line {line}")?),
        Err(CertFault::Memory) => Err(NoAnswer::Memory),
    }
}

/// What is written of a certificate that is read.
pub fn write_answer(alloc: Global, case: Case<'_>) -> Result<String, NoAnswer> {
    let text = octets_of(alloc, case.input())?;
    let Ok(certificate) = Certificate::read(alloc, text.as_slice()) else {
        return Err(NoAnswer::Unreadable);
    };
    let mut out = Vec::from_slice(alloc, b"x")?;
    certificate.write(&mut out)?;
    Ok(escaped(alloc, out.as_slice())?)
}

/// Its counts, its groups, and the entry of each pair.
fn content(alloc: Global, certificate: &Certificate) -> Result<String, NoAnswer> {
    let singles = certificate.singles();
    let series = certificate.series();
    let mut list = format!(in alloc; "{singles} singles, {series} series")?;
    for group in certificate.groups() {
        add_group(alloc, group, &mut list)?;
    }
    for i in 0..series {
        add_entries(alloc, certificate, i + 1, &mut list)?;
    }
    Ok(list)
}

/// Adds the days and the first instant of a group, and its series.
fn add_group(alloc: Global, group: &Group, list: &mut String) -> Result<(), NoAnswer> {
    let item = format!(in alloc; "{} days from {} of", group.days, group.from.instant())?;
    append(list, ", ", item.as_str())?;
    for number in &group.members {
        let word = format!(in alloc; "{number}")?;
        append(list, " ", word.as_str())?;
    }
    Ok(())
}

/// Adds the entries of a series with itself and with those after it.
fn add_entries(
    alloc: Global,
    certificate: &Certificate,
    i: u64,
    list: &mut String,
) -> Result<(), NoAnswer>
    requires { 0 < i }
{
    for j in i - 1..certificate.series() {
        let item = entry_text(alloc, certificate.entry(i, j + 1))?;
        append(list, ", ", item.as_str())?;
    }
    Ok(())
}

fn entry_text(alloc: Global, entry: Entry) -> Result<String, NoAnswer> {
    match entry {
        Entry::End => Ok("to the horizon".to_string(alloc)?),
        Entry::Span { from, days } => {
            Ok(format!(in alloc; "{days} days from {}", from.instant())?)
        }
        Entry::Res(m) => Ok(format!(in alloc; "residues modulo {m}")?),
        Entry::Group(number) => Ok(format!(in alloc; "in group {number}")?),
    }
}

/// The checker's answer in words: for a no its number and the two that it names; then how many instances were made.
pub fn verdict_text(alloc: Global, checked: Checked) -> Result<String, NoAnswer> {
    let made = checked.made;
    match checked.verdict {
        Verdict::Yes => Ok(format!(in alloc; "yes, {made} made")?),
        Verdict::No(why) => Ok(format!(in alloc;
            "no {} {} {}, {made} made",
            why.number, why.first, why.second
        )?),
    }
}
